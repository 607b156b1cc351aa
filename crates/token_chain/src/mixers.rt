//! What one step up a chain is.

ghost use Rattle.std.specs.Prelude.{◌≡◌, ℕ, ◌^◌, ◌<◌, List, EachIndex, slice_index};
ghost use Rattle.std.specs.Simd.Lanes.{zip2};
ghost use Rattle.paygo_spec.specs.Chain.{plain_next, stride_next};
ghost use Rattle.token_chain.specs.Mixers.{plain_below, stride_below};

use crate::codes::fold;
use byteorder::{BigEndian, ByteOrder};
use siphash24::hash;

/// A step up a chain: from a key and a code to the next code. Every code is below 1,000,000,000.
/// Whatever stands above the chain is proved for every mixer.
pub trait Mixer {
    /// The next code for a key and a code.
    ghost next: { List ℕ → ℕ → ℕ };

    /// The code that follows this one under the key.
    fn step(key: &[u8; 16], code: u32) -> u32
        requires { code < 10 ^ 9 }
        ensures value { result ≡ next key.now code }
        ensures below { result < 10 ^ 9 };

    /// One step of four chains, each with its key and its code: the same as four calls of `step`.
    fn step4(keys: &[[u8; 16]; 4], codes: &[u32; 4]) -> [u32; 4]
        requires { EachIndex codes.now (λ i. slice_index codes.now i < 10 ^ 9) }
        ensures { result ≡ zip2 next keys.now codes.now }
    {
        [
            Self::step(&keys[0], codes[0]),
            Self::step(&keys[1], codes[1]),
            Self::step(&keys[2], codes[2]),
            Self::step(&keys[3], codes[3]),
        ]
    }

    /// No step leads out of the codes.
    ghost below: { (key : List ℕ) (code : ℕ) → next key code < 10 ^ 9 };
}

/// The chain of OpenPAYGO Token: the next code is the folded SipHash-2-4 of the code's four bytes, the
/// highest first, written twice.
pub struct Plain;

impl Mixer for Plain {
    ghost next = { plain_next };

    ghost below = { plain_below };

    #[tactic(auto, unfolding(paygo_spec::specs::Chain::plain_next))]
    fn step(key: &[u8; 16], code: u32) -> u32 {
        let mut bytes = [0u8; 8];
        BigEndian::write_u32(&mut bytes, code);
        BigEndian::write_u32(&mut bytes[4..], code);
        fold(hash(key, &bytes))
    }
}

/// A chain for tests, which steps by `K` thousands modulo 1,000,000,000 and knows no key. It keeps the
/// last three digits, so its tokens can be reckoned by hand. `K` may be any number.
pub struct Stride<const K: u32>;

impl<const K: u32> Mixer for Stride<K> {
    ghost next = { stride_next K };

    ghost below = { stride_below K };

    fn step(_key: &[u8; 16], code: u32) -> u32 {
        ((u64::from(code) + 1000 * u64::from(K)) % 1_000_000_000) as u32
    }
}
