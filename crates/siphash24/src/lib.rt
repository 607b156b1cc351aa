//! SipHash-2-4, the keyed hash of Jean-Philippe Aumasson and Daniel J. Bernstein ("SipHash: a fast
//! short-input PRF", 2012): 64 bits of a message under a key of 16 bytes. The token chain steps by it.
//!
//! The contracts say the exact hash, as `paygo_spec` defines it in `specs/Sip.antt`.
#![tactic(auto)]

ghost use Rattle.std.specs.Prelude.{◌≡◌};
ghost use Rattle.byteorder.specs.Endian.{little_bytes};
ghost use Rattle.paygo_spec.specs.Sip.{SipState, sip_round, sip_start, sip_absorb, sip_finish, last_word, sip};

use byteorder::{ByteOrder, LittleEndian};
use std::marker::Model;

/// The last word of a message of eight bytes: no bytes are left, and the length stands in the top byte.
const EIGHT_BYTES: u64 = 8 << 56;

/// The four words of the hash while it takes in a message.
#[derive(Clone, Copy)]
struct State {
    v0: u64,
    v1: u64,
    v2: u64,
    v3: u64,
}

impl Model for State {
    ghost Value = { SipState };

    ghost view = { λ s. record { v0 = s.v0; v1 = s.v1; v2 = s.v2; v3 = s.v3 } };

    ghost inverse = { λ s. record { v0 = s.v0; v1 = s.v1; v2 = s.v2; v3 = s.v3 } };
}

impl State {
    /// The state before the first word, for this key.
    fn start(key: &[u8; 16]) -> State
        ensures { result ≡ sip_start key.now }
    {
        let k0 = LittleEndian::read_u64(key);
        let k1 = LittleEndian::read_u64(&key[8..]);
        State {
            v0: k0 ^ 0x736f_6d65_7073_6575,
            v1: k1 ^ 0x646f_7261_6e64_6f6d,
            v2: k0 ^ 0x6c79_6765_6e65_7261,
            v3: k1 ^ 0x7465_6462_7974_6573,
        }
    }

    /// The state after one round.
    #[tactic(auto, unfolding(paygo_spec::specs::Sip::sip_round))]
    fn round(self) -> State
        ensures { result ≡ sip_round self }
    {
        let State {
            v0: mut v0,
            v1: mut v1,
            v2: mut v2,
            v3: mut v3,
        } = self;
        v0 = v0.wrapping_add(v1);
        v1 = v1.rotate_left(13) ^ v0;
        v0 = v0.rotate_left(32);
        v2 = v2.wrapping_add(v3);
        v3 = v3.rotate_left(16) ^ v2;
        v0 = v0.wrapping_add(v3);
        v3 = v3.rotate_left(21) ^ v0;
        v2 = v2.wrapping_add(v1);
        v1 = v1.rotate_left(17) ^ v2;
        v2 = v2.rotate_left(32);
        State { v0, v1, v2, v3 }
    }

    /// The state after this word of the message.
    #[tactic(auto, unfolding(paygo_spec::specs::Sip::sip_absorb))]
    fn absorb(self, word: u64) -> State
        ensures { result ≡ sip_absorb self word }
    {
        let mut state = self;
        state.v3 ^= word;
        state = state.round().round();
        state.v0 ^= word;
        state
    }

    /// The hash, once the last word is in.
    #[tactic(auto, unfolding(paygo_spec::specs::Sip::sip_finish))]
    fn finish(self) -> u64
        ensures { result ≡ sip_finish self }
    {
        let mut state = self;
        state.v2 ^= 0xff;
        state = state.round().round().round().round();
        state.v0 ^ state.v1 ^ state.v2 ^ state.v3
    }
}

/// The last word of a message: the bytes after its whole words, and its length modulo 256 in the top byte.
#[tactic(auto, using(crate::proofs::Words::tail_below, crate::proofs::Words::rest_is))]
fn last(message: &[u8]) -> u64
    ensures { result ≡ last_word message.now }
{
    let left = message.len() % 8;
    let tail = if left == 0 {
        0
    } else {
        LittleEndian::read_uint(&message[8 * (message.len() / 8)..], left)
    };
    tail + (((message.len() % 256) as u64) << 56)
}

/// The SipHash-2-4 of a message of any length under the key.
#[tactic(auto, using(crate::proofs::Words::absorb_more, crate::proofs::Words::rest_is), unfolding(paygo_spec::specs::Sip::sip))]
pub fn hash(key: &[u8; 16], message: &[u8]) -> u64
    ensures { result ≡ sip key.now message.now }
{
    let mut state = State::start(key);
    for i in 0..message.len() / 8 {
        state = state.absorb(LittleEndian::read_u64(&message[8 * i..]));
    }
    state.absorb(last(message)).finish()
}

/// The SipHash-2-4 of the message of eight bytes that reads, the lowest byte first, as `word`.
#[tactic(auto, unfolding(paygo_spec::specs::Sip::sip))]
pub fn hash8(key: &[u8; 16], word: u64) -> u64
    ensures { result ≡ sip key.now (little_bytes 8 word) }
{
    State::start(key).absorb(word).absorb(EIGHT_BYTES).finish()
}

#[cfg(test)]
mod tests;
