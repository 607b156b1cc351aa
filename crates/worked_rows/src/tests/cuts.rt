// Power cuts: at each call of the flash, an event counts wholly or not at all, and what was answered counts wholly.
use super::bench::a_month;
use super::{BENCH, DEVICE, KEEPS, MADE, MAKE, joined, repeated, said_by};
use memory_ports::MemFlash;
use paygo_spec::{Cut, Memory};
use std::alloc::Global;
use std::process::Abort;

/// What these lines are answered over an erased flash and empty tables where the flash fails after so many calls.
fn cut_short(
    alloc: Global,
    words: &[&str],
    input: &str,
    after: u32,
    keep: u64,
) -> Result<String, Memory> {
    let mut flash = MemFlash::erased();
    flash.plan(Some(Cut { after, keep }));
    said_by(alloc, &mut flash, words, input)
}

#[test]
fn a_token_that_is_cut_off(rt: HostRuntime) -> Result<(), Memory> {
    let lines = "keys 123463819#\npower\nkeys 123463819#\nshow\n";
    let input = joined(rt.alloc(), MAKE, lines)?;
    for (keep, want) in [
        // nothing of the word came: it is typed again
        (
            u64::MAX,
            "down\nup 0 0 0\nset 1 30 2592000\nshown 1 2592000 0 0 0 49999999\n",
        ),
        // a torn word: its place is used up
        (
            0xffff_ffff,
            "down\nup 0 0 0\nset 1 30 2592000\nshown 1 2592000 0 0 0 49999998\n",
        ),
        // the word is whole: it counts, and was never answered
        (
            0,
            "down\nup 1 2592000 0\nold\nshown 1 2592000 0 0 0 49999999\n",
        ),
    ] {
        let text = cut_short(rt.alloc(), &DEVICE, &input, 18, keep)?;
        let want = joined(rt.alloc(), MADE, want)?;
        assert_eq!(rt; text.as_str(), want.as_str());
    }
    Ok(())
}

#[test]
fn a_raise_that_is_cut_off(rt: HostRuntime) -> Result<(), Memory> {
    let input = joined(rt.alloc(), MAKE, "raise\npower\nshow\n")?;
    let text = cut_short(rt.alloc(), &DEVICE, &input, 30, u64::MAX)?;
    let want = joined(
        rt.alloc(),
        MADE,
        "down\nup 0 0 0\nshown 0 0 0 0 0 50000000\n",
    )?;
    assert_eq!(rt; text.as_str(), want.as_str());
    Ok(())
}

/// The last n lines of a text.
fn last_lines(text: &str, n: usize) -> &str {
    let mut left = n.saturating_add(1);
    let end = text.as_bytes().iter().rposition(|c| {
        if *c == b'\n' {
            left = left.saturating_sub(1);
        }
        left == 0
    });
    match end {
        Some(end) => text.get(end.saturating_add(1)..).unwrap_or(""),
        None => text,
    }
}

/// A life of a thousand minutes on one token, in which the journal changes its bank twice.
fn thousand_minutes(alloc: Global) -> Result<String, Memory> {
    let ticks = repeated(alloc, "tick 60\n", 1000, "power\ntick 60\nshow\n")?;
    let lines = joined(alloc, "keys 123463819#\n", &ticks)?;
    joined(alloc, MAKE, &lines)
}

#[test]
fn a_bank_that_is_cut_off(rt: HostRuntime) -> Result<(), Memory> {
    let input = thousand_minutes(rt.alloc())?;
    let want = "down\nup 1 2532060 0\nticked 2532000 0\nshown 1 2532000 0 0 0 49998999\n";
    // the erase of the old bank, and the header of the new one
    for (after, keep) in [(1031, 0x5555_5555_5555_5555), (1043, u64::MAX), (1043, 0)] {
        let text = cut_short(rt.alloc(), &DEVICE, &input, after, keep)?;
        assert_eq!(rt; last_lines(&text, 4), want, "{after} {keep}");
    }
    Ok(())
}

/// How many lines end in a text.
fn line_count(text: &str) -> usize {
    text.as_bytes().iter().filter(|c| **c == b'\n').count()
}

/// A text in front of its line n, counted from 0, and from there on.
fn split_at_line(text: &str, n: usize) -> (&str, &str) {
    let mut seen = 0usize;
    let end = text.as_bytes().iter().position(|c| {
        let found = seen == n;
        if *c == b'\n' {
            seen = seen.saturating_add(1);
        }
        found
    });
    match end {
        Some(end) => (text.get(..end).unwrap_or(""), text.get(end..).unwrap_or("")),
        None => (text, ""),
    }
}

/// What `show` says last in these answers, but for the room: a place that was torn is used up.
fn last_summary(text: &str) -> &str {
    let line = last_lines(text, 1);
    match line.rfind(' ') {
        Some(end) => line.get(..end).unwrap_or(""),
        None => line,
    }
}

/// What `show` says after lines of which the line n was cut off, where that counted or didn't: from there on nothing is
/// answered up to the next `power`.
fn summary_without(
    alloc: Global,
    words: &[&str],
    lines: &str,
    n: usize,
    counted: bool,
) -> Result<String, Memory> {
    let (before, from) = split_at_line(lines, n);
    let (line, rest) = split_at_line(from, 1);
    let again = match rest.find("power\n") {
        Some(start) => rest.get(start..).unwrap_or(""),
        None => "",
    };
    let input = joined(alloc, before, if counted { line } else { "" })?;
    let input = joined(alloc, &input, again)?;
    let input = joined(alloc, &input, "power\nshow\n")?;
    let text = said_by(alloc, &mut MemFlash::erased(), words, &input)?;
    joined(alloc, last_summary(&text), "")
}

/// Cuts the power at each of the calls of the flash that these lines make, of which each has one answer, and looks at what is
/// answered and what stands after the power came back. Each cut has its `down`.
fn cut_everywhere(
    rt: &impl Abort,
    alloc: Global,
    words: &[&str],
    lines: &str,
    calls: u32,
    keep: u64,
) -> Result<(), Memory> {
    let input = joined(alloc, lines, "power\nshow\n")?;
    let calm = said_by(alloc, &mut MemFlash::erased(), words, &input)?;
    let mut cut_line = usize::MAX;
    let mut without = joined(alloc, "", "")?;
    let mut with = joined(alloc, "", "")?;
    for after in 0..calls {
        let text = cut_short(alloc, words, &input, after, keep)?;
        let start = text.find("down\n").unwrap_or(text.len());
        assert!(rt; start < text.len(), "{after} {keep}");
        let before = text.get(..start).unwrap_or("");
        let n = line_count(before);
        assert!(rt; n < line_count(lines), "{after} {keep}");
        assert!(rt; calm.starts_with(before), "{after} {keep}");
        let rest = text.get(start.saturating_add(5)..).unwrap_or("down\n");
        assert!(rt; rest.find("down\n").is_none(), "{after} {keep}");
        if n != cut_line {
            cut_line = n;
            without = summary_without(alloc, words, lines, n, false)?;
            with = summary_without(alloc, words, lines, n, true)?;
        }
        let summary = last_summary(&text);
        assert!(rt;
            summary == without.as_str() || summary == with.as_str(),
            "{after} {keep}"
        );
    }
    Ok(())
}

#[test]
fn every_cut_of_a_token(rt: HostRuntime) -> Result<(), Memory> {
    let lines = joined(
        rt.alloc(),
        MAKE,
        "keys 123463819#\npower\nkeys 123463819#\n",
    )?;
    // 3 and 15 calls, the token, and what is read of the flash
    for keep in KEEPS {
        cut_everywhere(&rt, rt.alloc(), &DEVICE, &lines, 18 + 1 + 514, keep)?;
    }
    Ok(())
}

#[test]
fn every_cut_of_a_raise(rt: HostRuntime) -> Result<(), Memory> {
    let lines = joined(
        rt.alloc(),
        MAKE,
        "keys 123470794#\nraise\npower\nraise\nkeys 123470794#\ntick 60\n",
    )?;
    // the token, the raise, the power, and a minute
    for keep in KEEPS {
        cut_everywhere(
            &rt,
            rt.alloc(),
            &DEVICE,
            &lines,
            18 + 1 + 13 + 514 + 1,
            keep,
        )?;
    }
    Ok(())
}

#[test]
fn every_cut_of_a_lock_out(rt: HostRuntime) -> Result<(), Memory> {
    let lines =
        "keys 000000000#\ntick 120\nkeys 000000000#\ntick 240\nkeys 000000000#\npower\nkeys 123463819#\ntick 480\nkeys 123463819#\n";
    let lines = joined(rt.alloc(), MAKE, lines)?;
    // five entries, the power, and two entries
    for keep in KEEPS {
        cut_everywhere(&rt, rt.alloc(), &DEVICE, &lines, 18 + 5 + 514 + 2, keep)?;
    }
    Ok(())
}

#[test]
fn every_cut_of_a_thousand_minutes(rt: HostRuntime) -> Result<(), Memory> {
    let lines = thousand_minutes(rt.alloc())?;
    // a token and a thousand minutes, of which two begin a bank, the power, and a minute
    for keep in KEEPS {
        cut_everywhere(
            &rt,
            rt.alloc(),
            &DEVICE,
            &lines,
            18 + 999 + 2 * 14 + 514 + 1,
            keep,
        )?;
    }
    Ok(())
}

#[test]
fn every_cut_of_a_month_of_payments(rt: HostRuntime) -> Result<(), Memory> {
    let lines = a_month(rt.alloc())?;
    // four tokens and 505 hours, of which one begins a bank, the power, and hours in which no time is left
    for keep in KEEPS {
        cut_everywhere(&rt, rt.alloc(), &BENCH, &lines, 18 + 508 + 14 + 514, keep)?;
    }
    Ok(())
}
