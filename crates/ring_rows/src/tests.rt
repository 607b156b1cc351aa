// Runs of the program on a device whose flash is a ring of banks in memory. Each device is made with a key of 16 zeros,
// the starting code 123456789, whole days and nine digits, and the counts of its chain are 7,000 apart.
mod cuts;
mod lives;
mod rows;

use bank_ring::Ring;
use ledger_keeper::MemKeeper;
use media_ports::MemMedia;
use memory_ports::{MemSink, MemSource};
use paygo_cli::{Status, run};
use paygo_spec::Memory;
use std::alloc::Global;
use token_chain::Stride;

/// The words of a run on a device over a ring of four banks. How many banks the ring has is said by the one that is
/// handed in.
const RING: [&str; 3] = ["ring", "F", "4"];

/// The lines that make a fresh device over an erased flash.
const MAKE: &str = "power\nmake 00000000000000000000000000000000 123456789 1 9\n";

/// What they are answered.
const MADE: &str = "unmade\nup 0 0 0\n";

/// The status and the answers of a run by these words over this ring.
fn ran(
    alloc: Global,
    words: &[&str],
    ring: &mut Ring<MemMedia>,
    input: &str,
) -> Result<(Status, String), Memory> {
    let mut source = MemSource::new(alloc, input.as_bytes())?;
    let mut sink = MemSink::new(alloc, input.len().saturating_mul(4).saturating_add(4096))?;
    let mut keeper = MemKeeper::new(alloc);
    let status = run::<Stride<7>, MemSource, MemSink, MemKeeper, Ring<MemMedia>>(
        alloc,
        words,
        &mut source,
        &mut sink,
        &mut keeper,
        ring,
    );
    let text = str::from_utf8(sink.bytes()).unwrap_or("no text");
    Ok((status, joined(alloc, text, "")?))
}

/// The answers of a run of a device over this ring, which ends well.
fn said(alloc: Global, ring: &mut Ring<MemMedia>, input: &str) -> Result<String, Memory> {
    let (status, text) = ran(alloc, &RING, ring, input)?;
    if status == Status::Ok {
        Ok(text)
    } else {
        joined(alloc, "another status", "")
    }
}

/// These texts one behind the other.
fn joined(alloc: Global, front: &str, rest: &str) -> Result<String, Memory> {
    format!(in alloc; "{front}{rest}").map_err(|_| Memory)
}

/// A text so many times.
fn repeated(alloc: Global, text: &str, times: usize) -> Result<String, Memory> {
    let mut all = String::new(alloc);
    for _ in 0..times {
        all.push_str(text).map_err(|_| Memory)?;
    }
    Ok(all)
}

/// The lines of a device that is made, gets a token of 30 days, and lives so many ticks of this line.
fn life(alloc: Global, tick: &str, times: usize) -> Result<String, Memory> {
    let ticks = repeated(alloc, tick, times)?;
    let lines = joined(alloc, "keys 123463819#\n", &ticks)?;
    joined(alloc, MAKE, &lines)
}

/// The last n lines of a text.
fn last_lines(text: &str, n: usize) -> &str {
    let mut left = n.saturating_add(1);
    let end = text.as_bytes().iter().rposition(|c| {
        if *c == b'\n' {
            left = left.saturating_sub(1);
        }
        left == 0
    });
    match end {
        Some(end) => text.get(end.saturating_add(1)..).unwrap_or(""),
        None => text,
    }
}
