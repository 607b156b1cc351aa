// Digits: tokens as customers type them, in nine digits from 0 to 9 or in fifteen from 1 to 4.
#![tactic(auto)]

ghost use Rattle.std.specs.Prelude.{◌≡◌, ◌≢◌, ◌<◌, ◌+◌, ◌-◌, ◌/◌, ◌%◌, ◌^◌, ℕ, List, ◌↔◌, take, drop, length, slice_index, MatchResult};
ghost use Rattle.paygo_spec.specs.declared.Form.{Form};
ghost use Rattle.paygo_spec.specs.Digits.{digit_count, radix_of, zero_key, token_limit, digits_of, is_digit, first_fault, value_of, IsFirstFault};

pub use paygo_spec::Form;
use thiserror::Error;

/// Why a list of digits says no token.
#[derive(Clone, Copy, Debug, PartialEq, Eq, Error)]
pub enum DigitFault {
    /// The form has another number of digits than these, of which there are so many.
    #[error("{0} digits are not as many as a token has")]
    Length(usize),
    /// The number of digits is right, and at this place, counted from 1, stands the first that isn't of the form.
    #[error("digit {0} is none that a token has")]
    Digit(usize),
}

/// Writes the digits of a token to the front of `out`, and gives their number: 9 or 15.
///
/// Of a number with more digits than the form has, the last ones are written. The rest of `out` stays as it was. Each token is below
/// 1,000,000,000, and [`read`] reads it back, as it does each number below the form's limit.
pub fn write(form: Form, token: u32, out: &mut [u8; 15]) -> usize
    ensures length { result ≡ digit_count form }
    ensures digits { take result out.new ≡ digits_of form token }
    ensures back { token < token_limit form → value_of form (take result out.new) ≡ Some token }
    ensures rest { drop result out.new ≡ drop result out.old }
{
    let count = form.length();
    let mut rest = token;
    for place in (0..count).rev() {
        out[place] = first_key(form) + (rest % keys(form)) as u8;
        rest /= keys(form);
    }
    count
}

/// Reads the token whose digits these are: at most 999,999,999 in nine digits, at most 1,073,741,823 in fifteen.
///
/// `Length` comes exactly where the number of digits isn't the form's, and holds their number. `Digit` comes exactly
/// where that number is right and a byte isn't a digit of the form: it holds the first such place, counted from 1.
pub fn read(form: Form, digits: &[u8]) -> Result<u32, DigitFault>
    ensures rule { MatchResult result
        (λ token. (token < token_limit form) × (digits.now ≡ digits_of form token))
        (λ _. (token : ℕ) → token < token_limit form → digits.now ≢ digits_of form token) }
    ensures value { (token : ℕ) → (result ≡ Ok token) ↔ (value_of form digits.now ≡ Some token) }
    ensures length { (n : ℕ) →
        (result ≡ Err (DigitFault.Length n)) ↔ ((n ≡ length digits.now) × (n ≢ digit_count form)) }
    ensures digit { (place : ℕ) → (result ≡ Err (DigitFault.Digit place)) ↔
        ((length digits.now ≡ digit_count form) × (first_fault form digits.now ≡ Some place)) }
{
    if digits.len() != form.length() {
        return Err(DigitFault::Length(digits.len()));
    }
    let mut token = 0;
    for (place, digit) in digits.iter().enumerate() {
        if !is_key(form, *digit) {
            return Err(DigitFault::Digit(place + 1));
        }
        token = token * keys(form) + (*digit - first_key(form)) as u32;
    }
    Ok(token)
}

/// How many keys there are for a digit.
fn keys(form: Form) -> u32
    ensures { result ≡ radix_of form }
{
    match form {
        Form::Nine => 10,
        Form::Fifteen => 4,
    }
}

/// The key that stands for 0, which the other keys follow.
fn first_key(form: Form) -> u8
    ensures { result ≡ zero_key form }
{
    match form {
        Form::Nine => b'0',
        Form::Fifteen => b'1',
    }
}

/// Whether this byte is a digit of the form.
fn is_key(form: Form, byte: u8) -> bool
    ensures { result ≡ is_digit form byte }
{
    match form {
        Form::Nine => matches!(byte, b'0'..=b'9'),
        Form::Fifteen => matches!(byte, b'1'..=b'4'),
    }
}

/// What digits say: a law for both forms.
///
/// Reading what was written gives it back, and no other digits give it. Digits that say no token are those of none.
/// Each digit stands for its part of the token: a decimal digit of it, or two of its 30 bits, the most significant
/// first.
pub fn digits_and_tokens()
    ensures back { (form : Form) (token : ℕ) → token < token_limit form →
        value_of form (digits_of form token) ≡ Some token }
    ensures only { (form : Form) (digits : List ℕ) (token : ℕ) → value_of form digits ≡ Some token →
        (token < token_limit form) × (digits ≡ digits_of form token) }
    ensures none { (form : Form) (digits : List ℕ) → value_of form digits ≡ None →
        (token : ℕ) → token < token_limit form → digits ≢ digits_of form token }
    ensures count { (form : Form) (token : ℕ) → length (digits_of form token) ≡ digit_count form }
    ensures place { (form : Form) (token i : ℕ) → i < digit_count form →
        slice_index (digits_of form token) i ≡
        zero_key form + token / radix_of form ^ (digit_count form - 1 - i) % radix_of form }
    ensures fault { (form : Form) (digits : List ℕ) (place : ℕ) →
        (first_fault form digits ≡ Some place) ↔ IsFirstFault form digits place }
{}

#[cfg(test)]
mod tests;
