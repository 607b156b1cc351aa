// Railed words: how a number of 32 bits stands in a word of the flash, so that a torn word shows.
#![tactic(auto)]

ghost use Rattle.std.specs.Prelude.{◌≡◌, ◌≢◌, ◌<◌, ◌^◌, ℕ, ◌↔◌, IsTrue, IsSome, true, MatchOption, if◌then◌else◌};
ghost use Rattle.paygo_spec.specs.Flash.{HasOnesOf};
ghost use Rattle.paygo_spec.specs.Rail.{railed, IsRailed, IsPaired, HasEachOneOf, is_railed, is_paired, number_in};

/// The word in which a number stands: the number in the high half, its complement in the low half.
///
/// The number 1 stands as 0x00000001FFFFFFFE. [`unrail`] gives the number back.
pub fn rail(x: u32) -> u64
    ensures word { result ≡ railed x }
    ensures railed { is_railed result ≡ true }
    ensures number { number_in result ≡ x }
{
    ((x as u64) << 32) | (!x as u64)
}

/// The number that stands in a word of the flash, whose low half must be the complement of its high half.
///
/// None exactly where the word is no [`rail`] of any number: it was torn, is erased, or was never written.
pub fn unrail(w: u64) -> Option<u32>
    ensures rule { MatchOption result ((x : ℕ) → x < 2 ^ 32 → w ≢ railed x) (λ x. w ≡ railed x) }
    ensures railed { IsSome result ↔ IsRailed w }
    ensures test { result ≡ (if is_railed w then Some (number_in w) else None) }
{
    let high = (w >> 32) as u32;
    let low = (w & 0xFFFF_FFFF) as u32;
    if low == !high { Some(high) } else { None }
}

/// Whether, for each i from 0 to 31, bit i or bit i + 32 of the word is 1.
///
/// It holds of each railed word and of an erased one, and still holds after a cut set more bits in them.
pub fn paired(w: u64) -> bool
    ensures rule { IsTrue result ↔ IsPaired w }
    ensures test { result ≡ is_paired w }
{
    let high = (w >> 32) as u32;
    let low = (w & 0xFFFF_FFFF) as u32;
    (high | low) == u32::MAX
}

/// What a cut can make of a word, a law on words of 64 bits: a torn word has every 1 bit of the word, and maybe more.
///
/// A torn railed word is paired, and so is a torn paired word. A torn paired word, and so a torn railed word, is
/// railed only where nothing changed. So a cut makes no number that wasn't there or wasn't being written.
pub fn torn()
    ensures railed { (w t : ℕ) → w < 2 ^ 64 → t < 2 ^ 64 → IsRailed w → HasOnesOf w t → IsPaired t }
    ensures railed_only { (w t : ℕ) → w < 2 ^ 64 → t < 2 ^ 64 → IsRailed w → HasOnesOf w t → IsRailed t → t ≡ w }
    ensures paired { (w t : ℕ) → w < 2 ^ 64 → t < 2 ^ 64 → IsPaired w → HasOnesOf w t → IsPaired t }
    ensures paired_only { (w t : ℕ) → w < 2 ^ 64 → t < 2 ^ 64 → IsPaired w → HasOnesOf w t → IsRailed t → t ≡ w }
{}

/// What it means, bit by bit, that a torn word has every 1 bit of a word: a law on words of 64 bits.
pub fn torn_bits()
    ensures { (w t : ℕ) → w < 2 ^ 64 → (HasOnesOf w t ↔ HasEachOneOf w t) }
{}

/// The tests and the facts agree: a law on words of 64 bits.
///
/// A word is railed exactly where it passes the test, and then it is the word of its number.
pub fn tests_agree()
    ensures railed { (w : ℕ) → (is_railed w ≡ true) ↔ IsRailed w }
    ensures number { (w : ℕ) → w < 2 ^ 64 → is_railed w ≡ true → w ≡ railed (number_in w) }
    ensures paired { (w : ℕ) → w < 2 ^ 64 → ((is_paired w ≡ true) ↔ IsPaired w) }
{}

#[cfg(test)]
mod tests;
