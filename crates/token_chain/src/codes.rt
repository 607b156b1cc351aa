//! Codes, which are numbers below 1,000,000,000, and what their last three digits say.

ghost use Rattle.std.specs.Prelude.{◌≡◌, ◌^◌, ◌<◌};
ghost use Rattle.paygo_spec.specs.Chain.{folded, base_of, with_base, token_base_of, value_in};

/// A hash folded to a code: its two halves under exclusive or, the upper 30 bits of that, and less
/// 73,741,825 where this is above 999,999,999.
#[tactic(auto, unfolding(paygo_spec::specs::Chain::folded))]
pub fn fold(hash: u64) -> u32
    ensures value { result ≡ folded hash }
    ensures below { result < 10 ^ 9 }
{
    let mixed = (hash >> 32) as u32 ^ (hash & 0xffff_ffff) as u32;
    let bits = mixed >> 2;
    if bits > 999_999_999 {
        bits - 73_741_825
    } else {
        bits
    }
}

/// The last three digits of a code, a number from 0 to 999.
pub fn base(code: u32) -> u32
    ensures value { result ≡ base_of code }
    ensures below { result < 1000 }
{
    code % 1000
}

/// The code with these last three digits in place of its own.
pub fn put(code: u32, base: u32) -> u32
    requires code { code < 10 ^ 9 }
    requires base { base < 1000 }
    ensures value { result ≡ with_base code base }
    ensures below { result < 10 ^ 9 }
{
    code - code % 1000 + base
}

/// The last three digits of each token with this value, for a device with this starting code. The
/// value is from 0 to 999.
pub fn token_base(start: u32, value: u16) -> u32
    requires { value < 1000 }
    ensures value { result ≡ token_base_of start value }
    ensures below { result < 1000 }
{
    (base(start) + u32::from(value)) % 1000
}

/// The value, from 0 to 999, that the last three digits of this token say to a device with this
/// starting code. Every token has one. It undoes `token_base`, as a law of history_laws says:
/// `tokens_say_their_value`.
pub fn value_of(start: u32, token: u32) -> u16
    ensures value { result ≡ value_in start token }
    ensures below { result < 1000 }
{
    ((base(token) + 1000 - base(start)) % 1000) as u16
}
