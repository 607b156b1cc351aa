// A year of a shop and a device whose customer missed half of the tokens, and the advice that brings the device up to date.
// The chain is that of the product. What is sold, and what is typed, is drawn from a number.
use ledger_keeper::MemKeeper;
use memory_ports::{MemFlash, MemSink, MemSource};
use paygo_cli::{Status, run};
use paygo_spec::Memory;
use rand_core::utils::NextWord;
use rand_pcg::Lcg64Xsh32;
use std::alloc::Global;
use std::process::Abort;
use token_chain::Plain;

/// The stream of the numbers that are drawn.
const STREAM: u64 = 54;

/// How many orders a year has: a payment a week, and some tokens that set the time or only move the last count.
const ORDERS: u32 = 60;

/// The line by which a device is sold, and those by which it is made.
const ENROLL: &str =
    r#"{"do":"enroll","serial":"A1","key":"000102030405060708090a0b0c0d0e0f","start":123456789,"divider":1,"form":9,"price":50,"total":1000000}
"#;

const MAKE: &str = "power\nmake 000102030405060708090a0b0c0d0e0f 123456789 1 9\n";

/// What a run by these words over keeper and flash writes, which ends well.
fn said(
    rt: &impl Abort,
    alloc: Global,
    keeper: &mut MemKeeper,
    flash: &mut MemFlash,
    words: &[&str],
    input: &str,
) -> Result<String, Memory> {
    let mut source = MemSource::new(alloc, input.as_bytes())?;
    let mut sink = MemSink::new(alloc, 65_536)?;
    let status = run::<Plain, MemSource, MemSink, MemKeeper, MemFlash>(
        alloc,
        words,
        &mut source,
        &mut sink,
        keeper,
        flash,
    );
    assert_eq!(rt; status, Status::Ok);
    let text = str::from_utf8(sink.bytes()).unwrap_or("no text");
    format!(in alloc; "{text}").map_err(|_| Memory)
}

/// What the shop answers to these lines.
fn served(
    rt: &impl Abort,
    alloc: Global,
    keeper: &mut MemKeeper,
    lines: &str,
) -> Result<String, Memory> {
    said(
        rt,
        alloc,
        keeper,
        &mut MemFlash::erased(),
        &["serve", "D"],
        lines,
    )
}

/// What the device answers to these lines.
fn shown(
    rt: &impl Abort,
    alloc: Global,
    flash: &mut MemFlash,
    lines: &str,
) -> Result<String, Memory> {
    said(
        rt,
        alloc,
        &mut MemKeeper::new(alloc),
        flash,
        &["device", "F"],
        lines,
    )
}

/// The text behind the first of these marks; nothing where there is none.
fn behind<'a>(text: &'a str, mark: &str) -> &'a str {
    match text.find(mark) {
        Some(at) => text.get(at.saturating_add(mark.len())..).unwrap_or(""),
        None => "",
    }
}

/// The number behind the first of these marks.
fn number_behind(rt: &impl Abort, text: &str, mark: &str) -> u16 {
    let rest = behind(text, mark);
    let end = rest.as_bytes().iter().position(|c| !c.is_ascii_digit());
    let digits = rest.get(..end.unwrap_or(rest.len())).unwrap_or("");
    digits.parse::<u16>().ok().expect(rt, "a number")
}

/// The line that asks for the order of a week.
fn order_line(alloc: Global, week: u32, word: u32) -> Result<String, Memory> {
    let ask = match word % 14 {
        0 => "sync\"",
        1 => "set\",\"units\":10",
        _ => "pay\",\"amount\":350",
    };
    let line = "{\"do\":\"";
    format!(in alloc; "{line}{ask},\"id\":\"week-{week}\",\"serial\":\"A1\"}}\n").map_err(
        |_| Memory,
    )
}

/// What a shop answers that sells to a device over a year: a line for each order.
fn sold(
    rt: &impl Abort,
    alloc: Global,
    keeper: &mut MemKeeper,
    seed: u64,
) -> Result<String, Memory> {
    let mut draw = Lcg64Xsh32::new(seed, STREAM);
    let mut lines = format!(in alloc; "{ENROLL}").map_err(|_| Memory)?;
    for week in 0..ORDERS {
        let line = order_line(alloc, week, draw.next_word())?;
        lines.push_str(line.as_str()).map_err(|_| Memory)?;
    }
    let answers = served(rt, alloc, keeper, lines.as_str())?;
    let orders = behind(answers.as_str(), "\n");
    format!(in alloc; "{orders}").map_err(|_| Memory)
}

/// Whether the token of each week is typed: in the first weeks it is drawn, and in the others none is.
fn choices(alloc: Global, seed: u64, weeks: u32) -> Result<Vec<bool>, Memory> {
    let mut draw = Lcg64Xsh32::new(seed, STREAM + 1);
    let mut typed = Vec::new(alloc);
    for week in 0..ORDERS {
        typed
            .push(week < weeks && draw.next_word() % 2 == 0)
            .map_err(|_| Memory)?;
    }
    Ok(typed)
}

/// The lines that begin so, and type the tokens of these orders, each of which is typed or not.
fn keys(
    rt: &impl Abort,
    alloc: Global,
    begin: &str,
    orders: &str,
    typed: &[bool],
) -> Result<String, Memory> {
    let mut lines = format!(in alloc; "{begin}").map_err(|_| Memory)?;
    let mut rest = orders;
    for is_typed in typed {
        rest = behind(rest, "\"token\":\"");
        let token = rest.get(..9).expect(rt, "a token");
        if *is_typed {
            let line = format!(in alloc; "keys {token}#\n").map_err(|_| Memory)?;
            lines.push_str(line.as_str()).map_err(|_| Memory)?;
        }
    }
    Ok(lines)
}

/// Whether this begins with the answer to an entry that took a token, or is one that was taken before.
fn is_taken(answer: &str) -> bool {
    answer.starts_with("added ")
        || answer.starts_with("set ")
        || answer.starts_with("synced ")
        || answer.starts_with("old\n")
}

/// The answers behind that to an entry, which was typed or not.
fn passed<'a>(answers: &'a str, is_typed: &bool) -> &'a str {
    if *is_typed {
        behind(answers, "\n")
    } else {
        answers
    }
}

/// Whether these are the answers to the entries that were typed, and to no more, each of which took a token or is old.
fn are_taken(answers: &str, typed: &[bool]) -> bool {
    let mut rest = answers;
    for is_typed in typed {
        if *is_typed && !is_taken(rest) {
            return false;
        }
        rest = passed(rest, is_typed);
    }
    rest.is_empty()
}

/// The device after a year of these orders, of which each token is typed or not.
fn lived(rt: &impl Abort, alloc: Global, orders: &str, typed: &[bool]) -> Result<MemFlash, Memory> {
    let mut flash = MemFlash::erased();
    let lines = keys(rt, alloc, MAKE, orders, typed)?;
    let text = shown(rt, alloc, &mut flash, lines.as_str())?;
    assert!(rt;
        are_taken(behind(text.as_str(), "up 0 0 0\n"), typed),
        "{text}"
    );
    Ok(flash)
}

/// The device's last count.
fn device_count(rt: &impl Abort, alloc: Global, flash: &mut MemFlash) -> Result<u16, Memory> {
    let text = shown(rt, alloc, flash, "power\nshow\n")?;
    Ok(number_behind(rt, text.as_str(), "\nshown "))
}

/// Types the tokens that are advised for this floor, each of which is taken, and tells how many they were.
fn follow(
    rt: &impl Abort,
    alloc: Global,
    keeper: &mut MemKeeper,
    flash: &mut MemFlash,
    floor: u16,
) -> Result<u16, Memory> {
    let floor = format!(in alloc; "{floor}").map_err(|_| Memory)?;
    let words = ["advise", "D", "A1", floor.as_str()];
    let advice = said(rt, alloc, keeper, &mut MemFlash::erased(), &words, "")?;
    let orders = number_behind(rt, advice.as_str(), "advise ");
    let typed = vec![in alloc; true; usize::from(orders)].map_err(|_| Memory)?;
    let lines = keys(rt, alloc, "power\n", advice.as_str(), &typed)?;
    let text = shown(rt, alloc, flash, lines.as_str())?;
    assert!(rt; are_taken(behind(text.as_str(), "\n"), &typed), "{text}");
    Ok(orders)
}

/// The device of such a year comes up to date by the advice for floor 0, and also by that for its own last count, which is no
/// longer. Tells how far it was behind.
fn brought_up(rt: &impl Abort, alloc: Global, seed: u64, weeks: u32) -> Result<u16, Memory> {
    let mut keeper = MemKeeper::new(alloc);
    let orders = sold(rt, alloc, &mut keeper, seed)?;
    let typed = choices(alloc, seed, weeks)?;
    let mut first = lived(rt, alloc, orders.as_str(), &typed)?;
    let mut second = lived(rt, alloc, orders.as_str(), &typed)?;
    let row = served(
        rt,
        alloc,
        &mut keeper,
        "{\"do\":\"show\",\"serial\":\"A1\"}\n",
    )?;
    let last = number_behind(rt, row.as_str(), "\"last\":");
    let count = device_count(rt, alloc, &mut first)?;
    assert!(rt; count <= last);
    let long = follow(rt, alloc, &mut keeper, &mut first, 0)?;
    assert_eq!(rt; device_count(rt, alloc, &mut first)?, last);
    let short = follow(rt, alloc, &mut keeper, &mut second, count)?;
    assert_eq!(rt; device_count(rt, alloc, &mut second)?, last);
    assert!(rt; short <= long);
    Ok(last.saturating_sub(count))
}

#[test]
fn a_device_that_missed_half_of_a_year_comes_up_to_date(rt: HostRuntime) -> Result<(), Memory> {
    let mut devices = 0u32;
    for seed in 1..5 {
        if brought_up(&rt, rt.alloc(), seed, ORDERS)? > 0 {
            devices = devices.saturating_add(1);
        }
    }
    // a device that was up to date shows nothing
    assert!(rt; devices > 0);
    Ok(())
}

#[test]
fn a_device_out_of_reach_of_the_newest_comes_up_to_date(rt: HostRuntime) -> Result<(), Memory> {
    // no token was typed in the last three quarters of the year, so that no add token of the last weeks is in reach
    assert!(rt; brought_up(&rt, rt.alloc(), 5, 15)? > 64);
    Ok(())
}
