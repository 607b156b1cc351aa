// The words of the command line, and what is said of a status.
ghost use Rattle.std.specs.Prelude.{◌≡◌, ◌<◌, ◌≤◌, ◌^◌, IfSome, length, map, option_copied};
ghost use Rattle.paygo_spec.specs.Words.{is_decimal, digits_from, decimal_in};
ghost use Rattle.command_words.specs.Forms.{banks_of, banks_with, work_alone, work_with_banks, work_with_file, work_with_files, work_with_key, work_with_numbers, work_with_serial, work_with_three, floor_in, number_between, work_of, WorkIsInRange, message_of};

use ledger_spec::Name;
use run_spec::{Mode, Status};

/// What the words of the command line ask for.
#[derive(Clone, Copy, Debug)]
pub enum Work {
    /// Lines are taken: `serve DB`, `device FLASH` or `bench DB FLASH`; and `ring FLASH BANKS`, which takes those of a
    /// device.
    Lines(Mode),
    /// Each token that the shop keeps is checked again: `audit DB`.
    Audit,
    /// A fleet of 1 to 200 devices over 1 to 400 days is drawn from a number, and run: `fleet SEED DEVICES DAYS`.
    Fleet { seed: u64, devices: u32, days: u32 },
    /// The lines are those of agents, who buy sheets of tokens and report their sales: `sheets DB`.
    Sheets,
    /// The way back is told for a device that fell behind: `advise DB SERIAL FLOOR`.
    Advise(Behind),
    /// The lines are a log of a `bench` run, and it is said whether a run has it: `check`.
    Check,
    /// The tables of the shop are checked, and each thing that is wrong is said: `sound DB`.
    Sound,
    /// The values are listed that can't be sold in a device's reach: `values KEY START LIMIT`.
    Values(Candidate),
}

/// A device whose values are looked at, before it is made or later.
#[derive(Clone, Copy, Debug)]
pub struct Candidate {
    /// Its secret key.
    pub key: [u8; 16],
    /// Its starting code, below 10^9.
    pub start: u32,
    /// The greatest last count of it that is looked at: from 0, that of a new device, to 4,095.
    pub limit: u16,
}

/// A device that fell behind, as the words tell of it.
#[derive(Clone, Copy, Debug)]
pub struct Behind {
    /// Its serial, of at most 16 bytes.
    pub serial: Name,
    /// What its last count is at least: from 0 to 16,383.
    pub floor: u16,
}

/// What the words ask for; None exactly where they are of no form that the program knows.
pub fn work_in(words: &[&str]) -> Option<Work>
    ensures work { result ≡ work_of (map (λ word. word.now) words.now) }
    ensures range { IfSome result WorkIsInRange }
{
    match words {
        [] => None,
        [word] => alone(word),
        [word, file] => with_file(word, file),
        [word, first, second] => with_files(word, first, second),
        [word, first, second, third] => with_three(word, first, second, third),
        _ => None,
    }
}

// `check`
fn alone(word: &str) -> Option<Work>
    ensures work { result ≡ work_alone word.now }
    ensures range { IfSome result WorkIsInRange }
{
    if word == "check" {
        Some(Work::Check)
    } else {
        None
    }
}

// `serve DB`, `device FLASH`, `audit DB`, `sheets DB` or `sound DB`
fn with_file(word: &str, file: &str) -> Option<Work>
    ensures work { result ≡ work_with_file word.now file.now }
    ensures range { IfSome result WorkIsInRange }
{
    if file.is_empty() {
        return None;
    }
    match word {
        "serve" => Some(Work::Lines(Mode::Serve)),
        "device" => Some(Work::Lines(Mode::Device)),
        "audit" => Some(Work::Audit),
        "sheets" => Some(Work::Sheets),
        "sound" => Some(Work::Sound),
        _ => None,
    }
}

// `bench DB FLASH` or `ring FLASH BANKS`
fn with_files(word: &str, first: &str, second: &str) -> Option<Work>
    ensures work { result ≡ work_with_files word.now first.now second.now }
    ensures range { IfSome result WorkIsInRange }
{
    if first.is_empty() || second.is_empty() {
        return None;
    }
    match word {
        "bench" => Some(Work::Lines(Mode::Both)),
        _ => match with_banks(word, second) {
            Some(_) => Some(Work::Lines(Mode::Device)),
            None => None,
        },
    }
}

/// How many banks the words `ring FLASH BANKS` name, from 2 to 16, for the flash that `run` is handed; None for other
/// words.
pub fn banks_in(words: &[&str]) -> Option<u16>
    ensures value { result ≡ banks_of (map (λ word. word.now) words.now) }
    ensures range { IfSome result (λ banks. (2 ≤ banks) × (banks ≤ 16)) }
{
    match words {
        [word, _, banks] => with_banks(word, banks),
        _ => None,
    }
}

// The number of banks behind `ring`.
fn with_banks(word: &str, banks: &str) -> Option<u16>
    ensures value { result ≡ banks_with word.now banks.now }
    ensures range { IfSome result (λ banks. (2 ≤ banks) × (banks ≤ 16)) }
{
    if word != "ring" {
        return None;
    }
    let banks = number(banks, 2, 16)?;
    Some(banks as u16)
}

// `advise DB SERIAL FLOOR`, `values KEY START LIMIT` or `fleet SEED DEVICES DAYS`
fn with_three(word: &str, first: &str, second: &str, third: &str) -> Option<Work>
    ensures work { result ≡ work_with_three word.now first.now second.now third.now }
    ensures range { IfSome result WorkIsInRange }
{
    match word {
        "advise" => with_serial(first, second, third),
        "values" => with_key(first, second, third),
        _ => with_numbers(word, first, second, third),
    }
}

// `advise DB SERIAL FLOOR`, by the words behind the first.
fn with_serial(file: &str, serial: &str, floor: &str) -> Option<Work>
    ensures work { result ≡ work_with_serial file.now serial.now floor.now }
    ensures range { IfSome result WorkIsInRange }
{
    if file.is_empty() {
        return None;
    }
    let serial = Name::of(serial.as_bytes(), 16)?;
    let floor = floor_of(floor)?;
    Some(Work::Advise(Behind { serial, floor }))
}

// `values KEY START LIMIT`, by the words behind the first.
fn with_key(key: &str, start: &str, limit: &str) -> Option<Work>
    ensures work { result ≡ work_with_key key.now start.now limit.now }
    ensures range { IfSome result WorkIsInRange }
{
    let key = line_text::key(key.as_bytes())?;
    let start = number(start, 0, 999_999_999)?;
    let limit = number(limit, 0, 4095)?;
    Some(Work::Values(Candidate {
        key,
        start: start as u32,
        limit: limit as u16,
    }))
}

// The number that a word of 1 to 5 decimal digits says, where it is at most 16,383.
pub(crate) fn floor_of(word: &str) -> Option<u16>
    ensures { result ≡ floor_in word.now }
{
    if word.len() > 5 {
        return None;
    }
    let floor = number(word, 0, 16383)?;
    Some(floor as u16)
}

// `fleet SEED DEVICES DAYS`
fn with_numbers(word: &str, seed: &str, devices: &str, days: &str) -> Option<Work>
    ensures work { result ≡ work_with_numbers word.now seed.now devices.now days.now }
    ensures range { IfSome result WorkIsInRange }
{
    if word != "fleet" {
        return None;
    }
    let seed = number(seed, 0, u64::MAX)?;
    let devices = number(devices, 1, 200)?;
    let days = number(days, 1, 400)?;
    Some(Work::Fleet {
        seed,
        devices: devices as u32,
        days: days as u32,
    })
}

// The number that a word of 1 to 20 decimal digits says, where it lies between these two.
pub(crate) fn number(word: &str, least: u64, most: u64) -> Option<u64>
    ensures value { result ≡ number_between least most word.now }
    ensures range { IfSome result (λ n. (least ≤ n) × (n ≤ most)) }
{
    let n = decimal(word.as_bytes())?;
    if u128::from(least) <= n && n <= u128::from(most) {
        Some(n as u64)
    } else {
        None
    }
}

// The number that 1 to 20 decimal digits say.
fn decimal(word: &[u8]) -> Option<u128>
    ensures { result ≡ decimal_in 20 word.now }
{
    if word.is_empty() || word.len() > 20 {
        return None;
    }
    let mut n = 0u128;
    for c in word {
        if !is_digit(*c) {
            return None;
        }
        n = n * 10 + u128::from(*c - b'0');
    }
    Some(n)
}

// Whether a byte is a decimal digit.
fn is_digit(c: u8) -> bool
    ensures { result ≡ is_decimal c }
{
    b'0' <= c && c <= b'9'
}

/// The line that the program writes to standard error for a status, without its end; None for `Ok`.
pub fn message(status: Status) -> Option<&'static str>
    ensures { option_copied result ≡ message_of status }
{
    match status {
        Status::Ok => None,
        Status::Usage => Some(
            "usage: paygo serve DB | device FLASH | bench DB FLASH | audit DB | fleet SEED DEVICES DAYS | sheets DB | advise DB SERIAL FLOOR | check | ring FLASH BANKS | sound DB | values KEY START LIMIT",
        ),
        Status::Read => Some("paygo: read fault"),
        Status::Write => Some("paygo: write fault"),
        Status::Keep => Some("paygo: keeper fault"),
        Status::Memory => Some("paygo: out of memory"),
        Status::Long => Some("paygo: input too long"),
    }
}
