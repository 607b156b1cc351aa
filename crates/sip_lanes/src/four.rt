//! Four SipHash states side by side.

ghost use Rattle.std.specs.Prelude.{◌≡◌, ◌<◌, map, bit_xor};
ghost use Rattle.std.specs.Int.{w64, rotate_left};
ghost use Rattle.std.specs.Simd.Lanes.{zip2};
ghost use Rattle.paygo_spec.specs.Sip.{sum64, sip_round, sip_start, sip_absorb, sip_finish};
ghost use Rattle.sip_lanes.specs.Side.{lanes, pairs, states, key_lanes, hash_of_word};

use byteorder::{ByteOrder, LittleEndian};
use std::simd::u64x4;

/// The last word of a message of eight bytes: no bytes are left, and the length stands in the top byte.
const EIGHT_BYTES: u64 = 8 << 56;

/// Four states of the hash, one a lane. Each word of the state is a vector of all four lanes' numbers.
#[derive(Clone, Copy)]
pub(crate) struct Four {
    v0: u64x4,
    v1: u64x4,
    v2: u64x4,
    v3: u64x4,
}

/// The sums of two numbers, lane by lane, modulo 2^64.
#[inline(always)]
#[tactic(auto, using(crate::proofs::LaneLemmas::sums_are))]
fn sum(a: u64x4, b: u64x4) -> u64x4
    ensures { result ≡ pairs sum64 a b }
{
    a + b
}

/// The exclusive or of two numbers, lane by lane.
#[inline(always)]
#[tactic(auto, using(crate::proofs::LaneLemmas::xors_are))]
fn xor(a: u64x4, b: u64x4) -> u64x4
    ensures { result ≡ pairs bit_xor a b }
{
    a ^ b
}

/// The numbers rotated to the left by so many bits, from 1 to 63, lane by lane.
#[inline(always)]
fn rotate(a: u64x4, by: u64) -> u64x4
    requires { (0 < by) × (by < 64) }
    ensures { result ≡ map (λ x. rotate_left w64 x by) (lanes a) }
{
    (a << u64x4::splat(by)) | (a >> u64x4::splat(64 - by))
}

impl Four {
    /// The states before the first word, for these keys.
    #[inline(always)]
    fn start(keys: &[[u8; 16]; 4]) -> Four
        ensures { states result ≡ map sip_start (key_lanes keys.now) }
    {
        let low = u64x4::from_array([
            LittleEndian::read_u64(&keys[0]),
            LittleEndian::read_u64(&keys[1]),
            LittleEndian::read_u64(&keys[2]),
            LittleEndian::read_u64(&keys[3]),
        ]);
        let high = u64x4::from_array([
            LittleEndian::read_u64(&keys[0][8..]),
            LittleEndian::read_u64(&keys[1][8..]),
            LittleEndian::read_u64(&keys[2][8..]),
            LittleEndian::read_u64(&keys[3][8..]),
        ]);
        Four {
            v0: xor(low, u64x4::splat(0x736f_6d65_7073_6575)),
            v1: xor(high, u64x4::splat(0x646f_7261_6e64_6f6d)),
            v2: xor(low, u64x4::splat(0x6c79_6765_6e65_7261)),
            v3: xor(high, u64x4::splat(0x7465_6462_7974_6573)),
        }
    }

    /// The states after one round.
    #[inline(always)]
    #[tactic(auto, unfolding(paygo_spec::specs::Sip::sip_round))]
    fn round(self) -> Four
        ensures { states result ≡ map sip_round (states self) }
    {
        let a0 = sum(self.v0, self.v1);
        let a1 = xor(rotate(self.v1, 13), a0);
        let a2 = rotate(a0, 32);
        let b0 = sum(self.v2, self.v3);
        let b1 = xor(rotate(self.v3, 16), b0);
        let c0 = sum(a2, b1);
        let c1 = xor(rotate(b1, 21), c0);
        let d0 = sum(b0, a1);
        let d1 = xor(rotate(a1, 17), d0);
        let d2 = rotate(d0, 32);
        Four {
            v0: c0,
            v1: d1,
            v2: d2,
            v3: c1,
        }
    }

    /// The states after these words of the messages, one of each.
    #[inline(always)]
    #[tactic(auto, unfolding(paygo_spec::specs::Sip::sip_absorb))]
    fn absorb(self, words: u64x4) -> Four
        ensures { states result ≡ zip2 sip_absorb (states self) (lanes words) }
    {
        let mixed = Four {
            v3: xor(self.v3, words),
            ..self
        };
        let turned = mixed.round().round();
        Four {
            v0: xor(turned.v0, words),
            ..turned
        }
    }

    /// The hashes, once the last words are in.
    #[inline(always)]
    #[tactic(auto, unfolding(paygo_spec::specs::Sip::sip_finish))]
    fn finish(self) -> u64x4
        ensures { result ≡ map sip_finish (states self) }
    {
        let mixed = Four {
            v2: xor(self.v2, u64x4::splat(0xff)),
            ..self
        };
        let turned = mixed.round().round().round().round();
        xor(xor(xor(turned.v0, turned.v1), turned.v2), turned.v3)
    }
}

/// The hashes of four messages of eight bytes, each under its key. A message is given as the number that it reads as,
/// the lowest byte first.
pub(crate) fn hash_four(keys: &[[u8; 16]; 4], words: [u64; 4]) -> [u64; 4]
    ensures { result ≡ zip2 hash_of_word (key_lanes keys.now) (lanes words) }
{
    Four::start(keys)
        .absorb(u64x4::from_array(words))
        .absorb(u64x4::splat(EIGHT_BYTES))
        .finish()
        .to_array()
}
