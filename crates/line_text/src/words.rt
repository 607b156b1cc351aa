// Words and numbers read out of a line.
ghost use Rattle.std.specs.Prelude.{◌≡◌, ◌≤◌, ◌<◌, ◌^◌, IfSome, length, option_copied, position};
ghost use Rattle.std.specs.Option.{option_map};
ghost use Rattle.paygo_spec.specs.Words.{is_decimal, is_space, digits_from, decimal_in, key_in};
ghost use Rattle.paygo_spec.specs.Words.{after_prefix as text_behind, first_word as word_parts};

use hex::FromHex;

// Whether a byte is a decimal digit.
fn digit(c: u8) -> bool
    ensures { result ≡ is_decimal c }
{
    b'0' <= c && c <= b'9'
}

// The place of the first space.
fn space(text: &[u8]) -> Option<usize>
    ensures { result ≡ position is_space text.now }
{
    text.iter().position(|c| *c == b' ')
}

/// What stands behind the beginning `prefix`, where the text begins so.
pub fn after_prefix<'a>(text: &'a [u8], prefix: &[u8]) -> Option<&'a [u8]>
    ensures { option_copied result ≡ text_behind prefix.now text.now }
{
    text.strip_prefix(prefix)
}

/// The first word, which ends at a space, and what stands behind that space; None where there is no space.
pub fn first_word(text: &[u8]) -> Option<(&[u8], &[u8])>
    ensures { option_map (λ parts. (parts.0.now, parts.1.now)) result ≡ word_parts text.now }
{
    match space(text) {
        Some(at) => Some((&text[..at], &text[at + 1..])),
        None => None,
    }
}

// The number that these digits say, at most 18 of them.
fn digits(word: &[u8]) -> Option<u64>
    requires { length word.now ≤ 18 }
    ensures value { result ≡ digits_from 0 word.now }
    ensures below { IfSome result (λ n. n < 10 ^ length word.now) }
{
    let mut n = 0u64;
    for c in word {
        if !digit(*c) {
            return None;
        }
        n = n * 10 + u64::from(*c - b'0');
    }
    Some(n)
}

/// The number that a word of one to `most` decimal digits says, with leading zeros allowed; None for every other word.
/// `most` is at most 18.
pub fn number(word: &[u8], most: usize) -> Option<u64>
    requires { most ≤ 18 }
    ensures value { result ≡ decimal_in most word.now }
    ensures below { IfSome result (λ n. n < 10 ^ most) }
{
    if word.is_empty() || word.len() > most {
        return None;
    }
    digits(word)
}

/// The key that 32 hexadecimal digits of either case say; None for every other word.
pub fn key(word: &[u8]) -> Option<[u8; 16]>
    ensures { result ≡ key_in word.now }
{
    <[u8; 16] as FromHex>::from_hex(word).ok()
}
