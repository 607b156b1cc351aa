// The head of a bank, its first twelve words, and of these the headers of the two banks.
ghost use Rattle.std.specs.Prelude.{◌≡◌, ◌<◌, ◌+◌, ◌*◌, ◌^◌, if◌then◌else◌, ◌==◌};
ghost use Rattle.paygo_spec.specs.Digits.{digit_count};
ghost use Rattle.paygo_spec.specs.Layout.{format_of, head_number, key_number};
ghost use Rattle.paygo_spec.specs.Rail.{number_in};
ghost use Rattle.paygo_spec.specs.Recovery.{is_header, newest_bank};
ghost use Rattle.bank_journal.specs.Summary.{summary_of};

use crate::journal::LAST_BANK;
use crate::summary::Summary;
use paygo_ports::BANK;
use paygo_spec::{Config, Form, GREAT};
use word_rail::{paired, unrail};

/// How many words a head has.
pub(crate) const HEAD: u16 = 12;

/// The number at a place of the head, by the bank's number, what the device was made with, and the summary with which the
/// bank begins.
pub(crate) fn head_number(number: u32, config: &Config, summary: &Summary, place: u16) -> u32
    requires within { place < 12 }
    ensures { result ≡ head_number number config.now (summary_of summary.now) place }
{
    match place {
        0 => number,
        1 => key_part(&config.key, 0),
        2 => key_part(&config.key, 1),
        3 => key_part(&config.key, 2),
        4 => key_part(&config.key, 3),
        5 => config.start,
        6 => format_number(config, summary),
        7 => window_number(summary),
        8 => (summary.clock.left() >> 32) as u32,
        9 => (summary.clock.left() & 0xFFFF_FFFF) as u32,
        10 => state_number(summary),
        _ => summary.clock.block(),
    }
}

/// Four bytes of the key, the first the most significant.
fn key_part(key: &[u8; 16], part: usize) -> u32
    requires { part < 4 }
    ensures { result ≡ key_number key.now part }
{
    let at = 4 * part;
    u32::from_be_bytes([key[at], key[at + 1], key[at + 2], key[at + 3]])
}

/// The format, 1, or 2 on a device that was raised, with the form and the divider.
fn format_number(config: &Config, summary: &Summary) -> u32
    ensures { result ≡ format_of summary.now.window.limit * 2 ^ 24
        + digit_count config.now.form * 2 ^ 8 + config.now.divider }
{
    let divider = u32::from(config.divider);
    let format = if summary.window.limit() == GREAT {
        0x0200_0000
    } else {
        0x0100_0000
    };
    match config.form {
        Form::Nine => format + 0x0900 + divider,
        Form::Fifteen => format + 0x0F00 + divider,
    }
}

/// The last count and the used bits.
fn window_number(summary: &Summary) -> u32
    ensures { result ≡ summary.now.window.last * 2 ^ 16 + summary.now.window.bits }
{
    let (last, bits) = summary.window.parts();
    (u32::from(last) << 16) + u32::from(bits)
}

/// Whether the device is free, and the failures.
fn state_number(summary: &Summary) -> u32
    ensures { result ≡ (if summary.now.clock.free then 2 ^ 8 else 0) + summary.now.clock.fails }
{
    let free = if summary.clock.free() { 1 << 8 } else { 0 };
    free + u32::from(summary.clock.fails())
}

/// Whether a header has no damage: it is paired, and where it is railed its number is one of a bank.
fn is_sound(word: u64) -> bool
    ensures { result ≡ is_header word }
{
    paired(word)
        && match unrail(word) {
            Some(number) => 1 <= number && number <= LAST_BANK,
            None => true,
        }
}

/// The bank in use, by the two headers: 0 or 1, or none where no device was made.
///
/// # Errors
///
/// The place of a damaged header, or that of the second one where both banks have one number.
pub(crate) fn newest(first: u64, second: u64) -> Result<Option<u8>, u16>
    ensures { result ≡ newest_bank first second }
{
    if !is_sound(first) {
        return Err(0);
    }
    if !is_sound(second) {
        return Err(BANK);
    }
    match (unrail(first), unrail(second)) {
        (Some(one), Some(other)) if one == other => Err(BANK),
        (Some(one), Some(other)) => Ok(Some(if other < one { 0 } else { 1 })),
        (Some(_), None) => Ok(Some(0)),
        (None, Some(_)) => Ok(Some(1)),
        (None, None) => Ok(None),
    }
}

/// The header of the bank in use, 0 or 1.
pub(crate) fn header_of(bank: u8, first: u64, second: u64) -> u64
    ensures { result ≡ (if bank == 0 then first else second) }
{
    if bank == 0 { first } else { second }
}

/// The number that a railed word holds.
pub(crate) fn number(word: u64) -> u32
    ensures { result ≡ number_in word }
{
    (word >> 32) as u32
}
