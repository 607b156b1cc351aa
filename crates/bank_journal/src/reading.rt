// A journal is read from its flash: the headers of the two banks, and of the bank in use the head and the entries.
ghost use Rattle.std.specs.Prelude.{◌≡◌, ◌<◌, ◌/◌, ◌%◌, ◌^◌, ◌++◌, ◌≤◌, ◌==◌, if◌then◌else◌, nat_le, true, slice_index, IfOk, IfSome, is_some, Ok, Err};
ghost use Rattle.std.specs.Int.{w32, to_be_bytes};
ghost use Rattle.paygo_spec.specs.History.{IsLimit};
ghost use Rattle.paygo_spec.specs.Clock.{longest_block};
ghost use Rattle.paygo_spec.specs.Window.{is_window};
ghost use Rattle.paygo_spec.specs.Recovery.{is_format, limit_in, is_state, left_in, keeps_rule, config_in_head, summary_in_head, after_word, Unmade, number_at, by_bank, recover};
ghost use Rattle.paygo_spec.specs.Flash.{erased_word, Failed};
ghost use Rattle.paygo_spec.specs.Lawful.{IsSummary};
ghost use Rattle.paygo_spec.specs.Layout.{last_bank};
ghost use Rattle.journal_laws.specs.Banks.{KeepsRules};
ghost use Rattle.bank_journal.specs.Reading.{ReadCalls, NumberAs, HeadAs, TakenAs, EntriesAs};
ghost use Rattle.bank_journal.specs.Summary.{summary_of};
ghost use Rattle.bank_journal.specs.Outcomes.{LoadsAs, LoadCalls};

use crate::head::{HEAD, header_of, newest, number};
use crate::journal::{Journal, JournalFault};
use crate::summary::{Summary, unit_of};
use crate::words::read_word;
use count_window::Window;
use paid_clock::Clock;
use paygo_ports::{BANK, Flash};
use paygo_spec::{Config, Form, GREAT, LAST, MOST_LEFT, is_divider};
use word_rail::unrail;

/// An erased word.
const ERASED: u64 = u64::MAX;

/// How many entries a bank has room for.
pub(crate) const ENTRIES: u16 = 500;

/// The number that stands at a place of the flash, from 0 to 1,023. A word that isn't railed is a damage there.
fn read_number<F: Flash>(flash: &mut F, at: u16) -> Result<u32, JournalFault>
    requires within { at < 1024 }
    requires up { (F.view flash.old).up ≡ true }
    ensures words { (F.view flash.new).words ≡ (F.view flash.old).words }
    ensures found { IfSome (F.view flash.old).words (λ words. NumberAs (slice_index words at) at result) }
    ensures calls { ReadCalls 1 result (F.view flash.old) (F.view flash.new) }
{
    match read_word(flash, at) {
        Ok(word) => match unrail(word) {
            Some(number) => Ok(number),
            None => Err(JournalFault::Damaged { place: at }),
        },
        Err(fault) => Err(fault),
    }
}

/// The time left that the numbers of a head say: its upper half is at place 8, its lower half at place 9.
fn time_left(numbers: &[u32; 12]) -> u64
    ensures { result ≡ left_in (slice_index numbers.now) }
{
    (u64::from(numbers[8]) << 32) + u64::from(numbers[9])
}

/// Whether the number at place 6 is format 1 or 2, a form of 9 or 15 digits, and a divider of a day's seconds.
fn keeps_format(number: u32) -> bool
    ensures { result ≡ is_format number }
{
    let digits = (number >> 8) & 0xFF;
    let divider = number & 0xFF;
    let format = number >> 16;
    (format == 0x0100 || format == 0x0200)
        && (digits == 9 || digits == 15)
        && is_divider(u64::from(divider))
}

/// The greatest count that the number at place 6 says by its format.
fn limit_in(number: u32) -> u16
    ensures value { result ≡ limit_in number }
    ensures rule { IsLimit result }
{
    if number >> 24 == 2 { GREAT } else { LAST }
}

/// The window that the numbers at the places 6 and 7 say, or none where it breaks the rule on windows.
fn window_in(format: u32, number: u32) -> Option<Window>
    ensures test { is_some result ≡ is_window (limit_in format) (number / 2 ^ 16) (number % 2 ^ 16) }
    ensures parts { IfSome result
        (λ w. w ≡ record { limit = limit_in format; last = number / 2 ^ 16; bits = number % 2 ^ 16 }) }
{
    Window::of_parts(
        limit_in(format),
        (number >> 16) as u16,
        (number & 0xFFFF) as u16,
    )
}

/// Whether the number at place 10 has nothing above bit 8, at most ten failures in its lower byte, and, where bit 8 says
/// that the device is free, no time left.
fn keeps_state(left: u64, number: u32) -> bool
    ensures { result ≡ is_state left number }
{
    number < 0x200 && number & 0xFF <= 10 && (number < 0x100 || left == 0)
}

/// Whether a block of so many seconds may stand after so many failures: none without a failure, else one of at most
/// `60 * 2^failures`, which after 27 of them is more than 32 bits can say. A head that is read has at most ten failures by
/// here, as place 10 was tested before: the arms above ten are there as the rule of place 11 is for all numbers.
fn keeps_block(fails: u32, block: u32) -> bool
    ensures { result ≡ nat_le block (longest_block fails) }
{
    match fails {
        0 => block == 0,
        1..=26 => block <= 60 << fails,
        _ => true,
    }
}

/// Whether the number at a place of a head keeps the rule of that place, by the numbers up to it. A rule on several places
/// is tested at the last of them.
fn keeps_rule(numbers: &[u32; 12], place: u16) -> bool
    requires { place < 12 }
    ensures { result ≡ keeps_rule (slice_index numbers.now) place }
{
    match place {
        5 => numbers[5] < 1_000_000_000,
        6 => keeps_format(numbers[6]),
        7 => window_in(numbers[6], numbers[7]).is_some(),
        9 => time_left(numbers) <= MOST_LEFT,
        10 => keeps_state(time_left(numbers), numbers[10]),
        11 => keeps_block(numbers[10] & 0xFF, numbers[11]),
        _ => true,
    }
}

/// The numbers at the places 1 to 11 of a bank, 0 or 1, each of which keeps its rule. What stands at place 0 isn't said.
///
/// # Errors
///
/// `Damaged` with the first place whose word isn't railed or whose number breaks its rule, and `Flash`.
fn read_numbers<F: Flash>(flash: &mut F, bank: u8) -> Result<[u32; 12], JournalFault>
    requires bank { bank < 2 }
    requires up { (F.view flash.old).up ≡ true }
    ensures words { (F.view flash.new).words ≡ (F.view flash.old).words }
    ensures rules { IfOk result (λ numbers. KeepsRules (slice_index numbers)) }
    ensures found { IfSome (F.view flash.old).words (λ words. HeadAs words bank result) }
    ensures calls { ReadCalls 11 result (F.view flash.old) (F.view flash.new) }
{
    let mut numbers = [0; 12];
    for place in 1..HEAD {
        let at = BANK * u16::from(bank) + place;
        match read_number(flash, at) {
            Ok(number) => numbers[usize::from(place)] = number,
            Err(fault) => return Err(fault),
        }
        if !keeps_rule(&numbers, place) {
            return Err(JournalFault::Damaged { place: at });
        }
    }
    Ok(numbers)
}

/// The sixteen bytes of four numbers, of each the most significant first.
fn key_of(first: u32, second: u32, third: u32, fourth: u32) -> [u8; 16]
    ensures { result ≡ to_be_bytes w32 first ++ (to_be_bytes w32 second ++
        (to_be_bytes w32 third ++ to_be_bytes w32 fourth)) }
{
    let a = first.to_be_bytes();
    let b = second.to_be_bytes();
    let c = third.to_be_bytes();
    let d = fourth.to_be_bytes();
    [
        a[0], a[1], a[2], a[3], b[0], b[1], b[2], b[3], c[0], c[1], c[2], c[3], d[0], d[1], d[2],
        d[3],
    ]
}

/// What the numbers of a head say that the device was made with.
fn config_in(numbers: &[u32; 12]) -> Config
    ensures { result ≡ config_in_head (slice_index numbers.now) }
{
    let fifteen = (numbers[6] >> 8) & 0xFF == 15;
    Config {
        key: key_of(numbers[1], numbers[2], numbers[3], numbers[4]),
        start: numbers[5],
        divider: (numbers[6] & 0xFF) as u8,
        form: if fifteen { Form::Fifteen } else { Form::Nine },
    }
}

/// The summary with which they say that the bank begins. The caller sees to it that each number keeps its rule.
fn summary_in(numbers: &[u32; 12]) -> Summary
    requires { KeepsRules (slice_index numbers.now) }
    ensures { summary_of result ≡ summary_in_head (slice_index numbers.now) }
{
    let window = window_in(numbers[6], numbers[7]);
    let fails = (numbers[10] & 0xFF) as u8;
    let clock = Clock::of_parts(time_left(numbers), numbers[10] >= 0x100, fails, numbers[11]);
    Summary {
        window: window.unwrap(),
        clock: clock.unwrap(),
    }
}

/// What the word at a place makes of the summary so far, with a unit of at most 86,400 seconds. A word that isn't railed,
/// erased or torn, is passed over.
///
/// # Errors
///
/// `Damaged` with the place where the word is railed and its number is that of no entry, or of one that may not come next.
fn take_word(summary: Summary, word: u64, at: u16, unit: u32) -> Result<Summary, JournalFault>
    requires { unit ≤ 86400 }
    ensures { TakenAs (after_word unit at word (Ok (summary_of summary))) result }
{
    match unrail(word) {
        Some(number) => match summary.after_number(number, unit) {
            Some(after) => Ok(after),
            None => Err(JournalFault::Damaged { place: at }),
        },
        None => Ok(summary),
    }
}

/// How many words are used so far, of which the n-th is this one: an erased word doesn't count, and any other counts with
/// all before it.
fn used_to(used: u16, n: u16, word: u64) -> u16
    ensures { result ≡ (if word == erased_word then used else n) }
{
    if word == ERASED { used } else { n }
}

/// The summary after the entries of a bank, 0 or 1, that begins with a summary, and the place of the next one, from 12 to
/// 512: behind the last word that isn't erased. A unit has at most 86,400 seconds.
///
/// # Errors
///
/// `Damaged` with the first word that is railed and no entry that may come next, and `Flash`.
fn read_entries<F: Flash>(
    flash: &mut F,
    bank: u8,
    unit: u32,
    start: Summary,
) -> Result<(Summary, u16), JournalFault>
    requires bank { bank < 2 }
    requires unit { unit ≤ 86400 }
    requires start { IsSummary (summary_of start) }
    requires up { (F.view flash.old).up ≡ true }
    ensures words { (F.view flash.new).words ≡ (F.view flash.old).words }
    ensures place { IfOk result (λ read. (12 ≤ read.1) × (read.1 ≤ 512)) }
    ensures rule { IfOk result (λ read. IsSummary (summary_of read.0)) }
    ensures found { IfSome (F.view flash.old).words (λ words. EntriesAs words bank unit (summary_of start) result) }
    ensures calls { ReadCalls 500 result (F.view flash.old) (F.view flash.new) }
{
    let mut summary = start;
    let mut used = 0;
    for n in 0..ENTRIES {
        let at = BANK * u16::from(bank) + (HEAD + n);
        let word = match read_word(flash, at) {
            Ok(word) => word,
            Err(fault) => return Err(fault),
        };
        summary = match take_word(summary, word, at, unit) {
            Ok(after) => after,
            Err(fault) => return Err(fault),
        };
        used = used_to(used, n + 1, word);
    }
    Ok((summary, HEAD + used))
}

/// The journal in the bank that is in use, 0 or 1, with this number, from 1 to 100,000.
///
/// # Errors
///
/// `Damaged` with the first damaged word of the bank, and `Flash`.
fn read_bank<F: Flash>(flash: &mut F, bank: u8, number: u32) -> Result<Journal, JournalFault>
    requires bank { bank < 2 }
    requires number { (1 ≤ number) × (number ≤ last_bank) }
    requires up { (F.view flash.old).up ≡ true }
    ensures words { (F.view flash.new).words ≡ (F.view flash.old).words }
    ensures found { IfSome (F.view flash.old).words
        (λ words. number_at words bank 0 ≡ number → LoadsAs (by_bank words bank) result) }
    ensures calls { ReadCalls 511 result (F.view flash.old) (F.view flash.new) }
{
    let numbers = match read_numbers(flash, bank) {
        Ok(numbers) => numbers,
        Err(fault) => return Err(fault),
    };
    let config = config_in(&numbers);
    let unit = unit_of(config.divider);
    match read_entries(flash, bank, unit, summary_in(&numbers)) {
        Ok((summary, place)) => Ok(Journal {
            bank,
            number,
            place,
            config,
            summary,
        }),
        Err(fault) => Err(fault),
    }
}

/// Reads the journal of the device that was made on a flash. No word changes.
///
/// The caller sees to it that the flash is up. It is up afterwards too, unless the answer is `Flash`. It takes 2 calls of
/// the flash where no device was made, 513 where one was, and at most 513 on a damaged flash.
///
/// # Errors
///
/// - `Unmade` exactly where no device was made: neither header is railed.
/// - `Damaged` exactly where recovery finds damage: it holds the first damaged word.
/// - `Flash` where a call of the flash failed, and its fault is counted, once. With any other answer the flash's count of
///   faults stays.
pub fn load<F: Flash>(flash: &mut F) -> Result<Journal, JournalFault>
    requires { (F.view flash.old).up ≡ true }
    ensures words { (F.view flash.new).words ≡ (F.view flash.old).words }
    ensures found { IfSome (F.view flash.old).words (λ words. LoadsAs (recover words) result) }
    ensures calls { LoadCalls result (F.view flash.old) (F.view flash.new) }
    ensures unmade_calls { result ≡ Err JournalFault.Flash →
        IfSome (F.view flash.old).words
        (λ words. recover words ≡ Unmade → Failed 2 (F.view flash.old) (F.view flash.new)) }
{
    let first = match read_word(flash, 0) {
        Ok(word) => word,
        Err(fault) => return Err(fault),
    };
    let second = match read_word(flash, BANK) {
        Ok(word) => word,
        Err(fault) => return Err(fault),
    };
    match newest(first, second) {
        Err(place) => Err(JournalFault::Damaged { place }),
        Ok(None) => Err(JournalFault::Unmade),
        Ok(Some(bank)) => read_bank(flash, bank, number(header_of(bank, first, second))),
    }
}
