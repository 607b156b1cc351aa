//! Four chains at once.

ghost use Rattle.std.specs.Prelude.{◌≡◌, map};
ghost use Rattle.paygo_spec.specs.Chain.{folded, plain_next};
ghost use Rattle.token_chain.specs.Mixers.{plain_below};
ghost use Rattle.sip_lanes.specs.Side.{lanes, word_of};

use crate::four::hash_four;
use byteorder::{BigEndian, ByteOrder, LittleEndian};
use token_chain::{Mixer, Plain, fold};

/// The chain of OpenPAYGO Token: each step is that of `Plain`. Four steps at once are reckoned as four hashes side by
/// side, and are four steps of `Plain`.
pub struct Lanes;

/// The message of a code: its four bytes, the highest first, twice, as the number that they read as, the lowest first.
fn word(code: u32) -> u64
    ensures { result ≡ word_of code }
{
    let mut bytes = [0u8; 8];
    BigEndian::write_u32(&mut bytes, code);
    BigEndian::write_u32(&mut bytes[4..], code);
    LittleEndian::read_u64(&bytes)
}

/// The messages of four codes.
fn words(codes: &[u32; 4]) -> [u64; 4]
    ensures { result ≡ map word_of (lanes codes.now) }
{
    [
        word(codes[0]),
        word(codes[1]),
        word(codes[2]),
        word(codes[3]),
    ]
}

/// Four hashes folded to codes.
fn fold_four(hashes: [u64; 4]) -> [u32; 4]
    ensures { result ≡ map folded (lanes hashes) }
{
    [
        fold(hashes[0]),
        fold(hashes[1]),
        fold(hashes[2]),
        fold(hashes[3]),
    ]
}

impl Mixer for Lanes {
    ghost next = { plain_next };

    ghost below = { plain_below };

    fn step(key: &[u8; 16], code: u32) -> u32 {
        Plain::step(key, code)
    }

    fn step4(keys: &[[u8; 16]; 4], codes: &[u32; 4]) -> [u32; 4] {
        fold_four(hash_four(keys, words(codes)))
    }
}
