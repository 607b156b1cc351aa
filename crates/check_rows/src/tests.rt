// Logs of runs of `bench` over objects in memory, and what is said of them. Each device is made, and enrolled, with a
// key of 16 zeros, the starting code 123456789, whole days and nine digits, and the counts of its chain are 7,000
// apart.
mod changes;
mod logs;
mod stories;

use changes::{changed, first_difference};
use ledger_keeper::MemKeeper;
use log_check::{Check, Verdict};
use logs::{is_answer, log_of};
use memory_ports::{MemFlash, MemSink, MemSource};
use paygo_cli::{Status, run};
use paygo_spec::{Cut, Memory};
use rand_pcg::Lcg64Xsh32;
use std::alloc::Global;
use std::process::Abort;
use token_chain::Stride;

/// The words of a run of both, and of a check.
const BENCH: [&str; 3] = ["bench", "D", "F"];

const CHECK: [&str; 1] = ["check"];

/// Four kinds of what a cut keeps: nothing more than was there, all ones, and some.
const KEEPS: [u64; 4] = [0, u64::MAX, 0xffff_ffff, 0x5555_5555_5555_5555];

/// The stream of the numbers that are drawn.
const STREAM: u64 = 54;

/// How many calls apart the reads of one `power` are cut: nine times as many and one are the calls of a `power`.
const READS: u32 = 57;

/// More calls than any story makes of the flash.
const MOST_CALLS: u32 = 4096;

/// How many logs were judged, how many of them have a power cut, and how many were judged again with one answer
/// changed, dropped or doubled.
#[derive(Clone, Copy, Debug)]
struct Tally {
    logs: u32,
    cuts: u32,
    changed: u32,
    dropped: u32,
    doubled: u32,
}

/// What a run by these words over the flash and empty tables writes, which ends well.
fn said(
    rt: &impl Abort,
    alloc: Global,
    flash: &mut MemFlash,
    words: &[&str],
    input: &str,
) -> Result<String, Memory> {
    let mut source = MemSource::new(alloc, input.as_bytes())?;
    let mut sink = MemSink::new(alloc, 4096)?;
    let mut keeper = MemKeeper::new(alloc);
    let status = run::<Stride<7>, MemSource, MemSink, MemKeeper, MemFlash>(
        alloc,
        words,
        &mut source,
        &mut sink,
        &mut keeper,
        flash,
    );
    assert_eq!(rt; status, Status::Ok);
    let text = str::from_utf8(sink.bytes()).unwrap_or("no text");
    format!(in alloc; "{text}").map_err(|_| Memory)
}

/// Hands one line more to the check.
fn hand(rt: &impl Abort, check: &mut Check<Stride<7>>, line: &str) {
    let line = line.as_bytes();
    assert!(rt; line.len() <= 4096);
    if line.len() <= 4096 {
        check.line(line).ok().expect(rt, "memory for a line");
    }
}

/// What is said of the first lines of a log, so many, where this line comes next, or none: a yes where all of them have
/// their answers.
fn verdict_before(lines: u64, next: Option<&str>) -> Verdict {
    match next {
        Some(line) if is_answer(line) => Verdict::No {
            line: lines.saturating_add(1),
        },
        _ => Verdict::Yes { lines },
    }
}

/// Hands `told` to one check, judges each first part of it, and tells how many lines it has. It is the log of a run up to
/// the line before `wrong`, and from there on it isn't.
fn judge_parts(
    rt: &impl Abort,
    alloc: Global,
    log: &str,
    told: &str,
    wrong: Option<u64>,
) -> Result<u64, Memory> {
    let mut check: Check<Stride<7>> = Check::new(alloc)?;
    let mut following = log.lines();
    let mut lines = 0u64;
    following.next();
    for line in told.lines() {
        hand(rt, &mut check, line);
        lines = lines.saturating_add(1);
        let next = following.next();
        let want = match wrong {
            Some(wrong) if wrong <= lines => Verdict::No { line: wrong },
            _ => verdict_before(lines, next),
        };
        assert_eq!(rt; check.verdict(), want, "{lines}\n{told}");
    }
    Ok(lines)
}

/// The line of a verdict: `no` and the line that decides, or `yes` and how many lines there are.
fn verdict_line(alloc: Global, wrong: Option<u64>, lines: u64) -> Result<String, Memory> {
    let line = match wrong {
        Some(wrong) => format!(in alloc; "no {wrong}\n"),
        None => format!(in alloc; "yes {lines}\n"),
    };
    line.map_err(|_| Memory)
}

/// Judges each first part of `told`, and the whole of it also by the program.
fn judge(
    rt: &impl Abort,
    alloc: Global,
    log: &str,
    told: &str,
    wrong: Option<u64>,
) -> Result<(), Memory> {
    let lines = judge_parts(rt, alloc, log, told, wrong)?;
    let text = said(rt, alloc, &mut MemFlash::erased(), &CHECK, told)?;
    let want = verdict_line(alloc, wrong, lines)?;
    assert_eq!(rt; text.as_str(), want.as_str(), "{told}");
    Ok(())
}

/// What came of a run: it had no cut; the power was cut at a `power`, which changes nothing on the flash; or at an
/// event.
#[derive(Clone, Copy, PartialEq, Eq)]
enum Place {
    Nowhere,
    Power,
    Event,
}

/// Where the power was cut in the run that has this log.
fn place_of(log: &str) -> Place {
    if log.find("> power\n< down\n").is_some() {
        return Place::Power;
    }
    if log.find("< down\n").is_some() {
        Place::Event
    } else {
        Place::Nowhere
    }
}

/// Judges the log of a run, and then with one answer of it changed, dropped or doubled, as is drawn.
fn judge_both(
    rt: &impl Abort,
    alloc: Global,
    log: &str,
    draw: &mut Lcg64Xsh32,
    tally: &mut Tally,
) -> Result<(), Memory> {
    judge(rt, alloc, log, log, None)?;
    let told = changed(rt, alloc, log, draw, tally)?;
    let wrong = first_difference(log, told.as_str());
    judge(rt, alloc, log, told.as_str(), Some(wrong))?;
    tally.logs = tally.logs.saturating_add(1);
    if place_of(log) != Place::Nowhere {
        tally.cuts = tally.cuts.saturating_add(1);
    }
    Ok(())
}

/// Judges the log of a run without its last answer, which is missing then: it stands on the last line.
fn judge_short(rt: &impl Abort, alloc: Global, log: &str) -> Result<(), Memory> {
    let (told, last) = log.trim_end().rsplit_once('\n').expect(rt, "two lines");
    assert!(rt; is_answer(last));
    let missing = first_difference(log, told);
    judge(rt, alloc, log, told, Some(missing))
}

/// The log of these lines over an erased flash that fails at the call behind so many, where the cut keeps these bits.
fn cut_log(rt: &impl Abort, alloc: Global, input: &str, cut: Cut) -> Result<String, Memory> {
    let mut flash = MemFlash::erased();
    flash.plan(Some(cut));
    let answers = said(rt, alloc, &mut flash, &BENCH, input)?;
    log_of(rt, alloc, input, answers.as_str())
}

/// Judges the logs of these lines where the flash fails at the call behind so many, for each kind of what the cut
/// keeps; of a `power`, whose cut changes nothing on the flash, for one. Tells how many calls the next cut comes
/// behind, or none where the run had no cut: it is the next one, but for two cuts of one `power` that are 57 calls
/// apart, between which none is judged.
fn judge_cuts(
    rt: &impl Abort,
    alloc: Global,
    input: &str,
    after: u32,
    draw: &mut Lcg64Xsh32,
    tally: &mut Tally,
) -> Result<Option<u32>, Memory> {
    for keep in KEEPS {
        let log = cut_log(rt, alloc, input, Cut { after, keep })?;
        judge_both(rt, alloc, log.as_str(), draw, tally)?;
        match place_of(log.as_str()) {
            Place::Nowhere => {
                judge_short(rt, alloc, log.as_str())?;
                return Ok(None);
            }
            Place::Power => {
                let further = after.saturating_add(READS);
                let cut = Cut {
                    after: further,
                    keep,
                };
                let later = cut_log(rt, alloc, input, cut)?;
                if later.as_str() == log.as_str() {
                    return Ok(Some(further));
                }
                break;
            }
            Place::Event => {}
        }
    }
    Ok(Some(after.saturating_add(1)))
}

/// Judges the logs of these lines where the flash fails at its first call, at the next one, and so on, up to the first
/// run without a cut, and judges that one too, also without its last answer. What else is changed is drawn from the
/// number.
fn judge_story(rt: &impl Abort, alloc: Global, input: &str, seed: u64) -> Result<Tally, Memory> {
    let mut draw = Lcg64Xsh32::new(seed, STREAM);
    let mut tally = Tally {
        logs: 0,
        cuts: 0,
        changed: 0,
        dropped: 0,
        doubled: 0,
    };
    let mut next = 0;
    for after in 0..MOST_CALLS {
        if after < next {
            continue;
        }
        match judge_cuts(rt, alloc, input, after, &mut draw, &mut tally)? {
            Some(behind) => next = behind,
            None => return Ok(tally),
        }
    }
    Ok(tally)
}

/// Whether at least so many logs were judged, all but one of them with a power cut, and each change was made in a fifth
/// of them.
fn has_tried(tally: &Tally, logs: u32) -> bool {
    let fifth = logs / 5;
    tally.logs >= logs
        && tally.logs == tally.cuts.saturating_add(1)
        && tally.changed >= fifth
        && tally.dropped >= fifth
        && tally.doubled >= fifth
}
