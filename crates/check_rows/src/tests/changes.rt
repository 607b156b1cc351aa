// A log with one answer changed, dropped or doubled.
use super::Tally;
use super::logs::{is_answer, put};
use paygo_spec::Memory;
use rand_core::utils::NextWord;
use rand_pcg::Lcg64Xsh32;
use std::alloc::Global;
use std::process::Abort;

/// Whether the byte at this place is the last digit of a number.
fn ends_a_number(text: &[u8], at: usize) -> bool {
    let here = text.get(at).is_some_and(|c| c.is_ascii_digit());
    let behind = text
        .get(at.saturating_add(1))
        .is_some_and(|c| c.is_ascii_digit());
    here && !behind
}

/// How many numbers stand in the text.
fn number_count(text: &str) -> usize {
    let bytes = text.as_bytes();
    (0..bytes.len())
        .filter(|at| ends_a_number(bytes, *at))
        .count()
}

/// The digit that is five further on, round behind 9.
fn five_on(digit: char) -> char {
    match digit {
        '0' => '5',
        '1' => '6',
        '2' => '7',
        '3' => '8',
        '4' => '9',
        '5' => '0',
        '6' => '1',
        '7' => '2',
        '8' => '3',
        '9' => '4',
        other => other,
    }
}

/// The text with the last digit of this number of it, counted from 0, five further on: no cut makes a difference of
/// five in the stories.
fn with_number_changed(alloc: Global, text: &str, number: usize) -> Result<String, Memory> {
    let mut all = String::new(alloc);
    let mut seen = 0usize;
    for (at, c) in text.chars().enumerate() {
        let ends = ends_a_number(text.as_bytes(), at);
        let new = if ends && seen == number {
            five_on(c)
        } else {
            c
        };
        all.push(new).map_err(|_| Memory)?;
        if ends {
            seen = seen.saturating_add(1);
        }
    }
    Ok(all)
}

/// The first word of an answer, with its mark.
fn first_word(line: &str) -> &str {
    let answer = line.get(2..).unwrap_or("");
    match answer.split_once(' ') {
        Some((word, _)) => word,
        None => answer,
    }
}

/// Whether the other answer of the log can't stand in the place of this one, which was given to a `power` or to another
/// line. A `power` has answers that a cut leaves open, and a `down` stands for each answer of an event.
fn is_out_of_place(of_power: bool, answer: &str, other: &str) -> bool {
    !of_power && answer != "< down" && other != "< down" && first_word(answer) != first_word(other)
}

/// A line of the log in the place of this answer to a `power` or to another line, which no run can have there: another
/// answer of the log, one with another number, or another word.
fn wrong_answer(
    alloc: Global,
    of_power: bool,
    answer: &str,
    other: &str,
    word: u32,
) -> Result<String, Memory> {
    let numbers = number_count(answer);
    if word % 4 == 0 && is_out_of_place(of_power, answer, other) {
        return format!(in alloc; "{other}").map_err(|_| Memory);
    }
    if numbers > 0 {
        return with_number_changed(alloc, answer, word as usize / 4 % numbers);
    }
    let wrong = if answer == "< old" {
        "< unmade"
    } else {
        "< old"
    };
    format!(in alloc; "{wrong}").map_err(|_| Memory)
}

/// What is done with an answer.
#[derive(Clone, Copy, PartialEq, Eq)]
enum Change {
    Changed,
    Dropped,
    Doubled,
}

/// The log with this done to an answer of it, counted from 0. The other answer and the word say by what it is changed.
fn rewritten(
    alloc: Global,
    log: &str,
    change: Change,
    at: usize,
    other: &str,
    word: u32,
) -> Result<String, Memory> {
    let mut all = String::new(alloc);
    let mut of_power = false;
    let mut seen = 0usize;
    for line in log.lines() {
        let is_here = is_answer(line) && seen == at;
        if is_answer(line) {
            seen = seen.saturating_add(1);
        } else {
            of_power = line == "> power";
        }
        if is_here && change == Change::Changed {
            let wrong = wrong_answer(alloc, of_power, line, other, word)?;
            put(alloc, &mut all, "", wrong.as_str())?;
        }
        if !is_here || change == Change::Doubled {
            put(alloc, &mut all, "", line)?;
        }
        if is_here && change == Change::Doubled {
            put(alloc, &mut all, "", line)?;
        }
    }
    Ok(all)
}

/// The number of the first line, counted from 1, at which the second log isn't as the first one: the line behind its
/// last one, where it is a first part of it.
pub(super) fn first_difference(log: &str, told: &str) -> u64 {
    let mut line = 1u64;
    let mut lines = log.lines();
    for new in told.lines() {
        if lines.next() != Some(new) {
            return line;
        }
        line = line.saturating_add(1);
    }
    line
}

/// The line of the second log at which it first isn't as the first one; nothing where it is a first part of it.
fn different_line<'a>(log: &str, told: &'a str) -> &'a str {
    let mut lines = log.lines();
    for new in told.lines() {
        if lines.next() != Some(new) {
            return new;
        }
    }
    ""
}

/// Counts one answer more that was so changed.
fn count(tally: &mut Tally, change: Change) {
    let of_change = match change {
        Change::Changed => &mut tally.changed,
        Change::Dropped => &mut tally.dropped,
        Change::Doubled => &mut tally.doubled,
    };
    *of_change = of_change.saturating_add(1);
}

/// The log with one answer changed, dropped or doubled, so that no run can have its line where it first isn't as the
/// log. Which answer it is, and what is done with it, is drawn. Where an answer is dropped in front of a `down`, which
/// the same line may have, the answer is doubled.
pub(super) fn changed(
    rt: &impl Abort,
    alloc: Global,
    log: &str,
    draw: &mut Lcg64Xsh32,
    tally: &mut Tally,
) -> Result<String, Memory> {
    let answers = log.lines().filter(|line| is_answer(line)).count();
    assert!(rt; answers > 0);
    let at = draw.next_word() as usize % answers.max(1);
    let from = draw.next_word() as usize % answers.max(1);
    let other = log.lines().filter(|line| is_answer(line)).nth(from);
    let other = other.expect(rt, "an answer");
    let mut change = match draw.next_word() % 3 {
        0 => Change::Changed,
        1 => Change::Dropped,
        _ => Change::Doubled,
    };
    let word = draw.next_word();
    let first = rewritten(alloc, log, change, at, other, word)?;
    if change == Change::Dropped && different_line(log, first.as_str()) == "< down" {
        change = Change::Doubled;
    }
    count(tally, change);
    rewritten(alloc, log, change, at, other, word)
}
