// Runs of the program over objects in memory. Each device here is made, or enrolled, with a key of 16 zeros, the starting code
// 123456789, whole days and nine digits unless a row says otherwise, and the counts of its chain are 7,000 apart.
mod audits;
mod bench;
mod check;
mod cuts;
mod fleets;
mod images;
mod ledger;
mod raise;
mod retries;
mod rows;
mod sound;
mod streams;
mod values;

use ledger_keeper::MemKeeper;
use memory_ports::{MemFlash, MemSink, MemSource};
use paygo_cli::{Status, run};
use paygo_spec::Memory;
use std::alloc::Global;
use token_chain::{Mixer, Plain, Stride};

/// The words of a run on a device, of one of the shop, and of one of both.
const DEVICE: [&str; 2] = ["device", "F"];

const SERVE: [&str; 2] = ["serve", "D"];

const BENCH: [&str; 3] = ["bench", "D", "F"];

/// The words of an audit.
const AUDIT: [&str; 2] = ["audit", "D"];

/// The lines that make a fresh device over an erased flash: 3 calls of the flash, and then 15.
const MAKE: &str = "power\nmake 00000000000000000000000000000000 123456789 1 9\n";

/// What they are answered.
const MADE: &str = "unmade\nup 0 0 0\n";

/// Four kinds of what a cut keeps: nothing more than was there, all ones, and some.
const KEEPS: [u64; 4] = [0, u64::MAX, 0xffff_ffff, 0x5555_5555_5555_5555];

/// What is planned to go wrong in a run: the read and the write that fail (0: none), the most bytes of a read, and the
/// room for answers.
#[derive(Clone, Copy)]
struct Plan {
    read: u64,
    most: usize,
    write: u64,
    room: usize,
}

/// Nothing goes wrong.
const CALM: Plan = Plan {
    read: 0,
    most: 8192,
    write: 0,
    room: 65_536,
};

/// Runs these words over keeper and flash, on the chain of the mixer, and gives the status and the answers.
fn ran<M: Mixer>(
    alloc: Global,
    keeper: &mut MemKeeper,
    flash: &mut MemFlash,
    words: &[&str],
    input: &[u8],
    plan: Plan,
) -> Result<(Status, String), Memory> {
    let mut source = MemSource::new(alloc, input)?;
    source.fail_at(plan.read);
    source.most(plan.most.max(1));
    let mut sink = MemSink::new(alloc, plan.room)?;
    sink.fail_at(plan.write);
    let status = run::<M, MemSource, MemSink, MemKeeper, MemFlash>(
        alloc,
        words,
        &mut source,
        &mut sink,
        keeper,
        flash,
    );
    let text = str::from_utf8(sink.bytes()).unwrap_or("no text");
    Ok((status, joined(alloc, text, "")?))
}

/// Runs these words over the flash and empty tables, on a chain whose codes are 7,000 apart.
fn answered(
    alloc: Global,
    flash: &mut MemFlash,
    words: &[&str],
    input: &str,
    plan: Plan,
) -> Result<(Status, String), Memory> {
    let mut keeper = MemKeeper::new(alloc);
    ran::<Stride<7>>(alloc, &mut keeper, flash, words, input.as_bytes(), plan)
}

/// The answers of a run that ends well.
fn well(alloc: Global, run: (Status, String)) -> Result<String, Memory> {
    let (status, text) = run;
    if status == Status::Ok {
        Ok(text)
    } else {
        joined(alloc, "another status", "")
    }
}

/// The answers of a calm run of these words over the flash and empty tables, which ends well.
fn said_by(
    alloc: Global,
    flash: &mut MemFlash,
    words: &[&str],
    input: &str,
) -> Result<String, Memory> {
    well(alloc, answered(alloc, flash, words, input, CALM)?)
}

/// The answers of a calm run of a device over the flash, which ends well.
fn said(alloc: Global, flash: &mut MemFlash, input: &str) -> Result<String, Memory> {
    said_by(alloc, flash, &DEVICE, input)
}

/// The same on the chain of the mixer.
fn said_under<M: Mixer>(
    alloc: Global,
    flash: &mut MemFlash,
    input: &str,
) -> Result<String, Memory> {
    let mut keeper = MemKeeper::new(alloc);
    let run = ran::<M>(alloc, &mut keeper, flash, &DEVICE, input.as_bytes(), CALM)?;
    well(alloc, run)
}

/// The answers of a calm run of the shop over the keeper, which ends well.
fn served<M: Mixer>(alloc: Global, keeper: &mut MemKeeper, input: &[u8]) -> Result<String, Memory> {
    let run = ran::<M>(alloc, keeper, &mut MemFlash::erased(), &SERVE, input, CALM)?;
    well(alloc, run)
}

/// These texts one behind the other.
fn joined(alloc: Global, front: &str, rest: &str) -> Result<String, Memory> {
    format!(in alloc; "{front}{rest}").map_err(|_| Memory)
}

/// A text so many times, and then another.
fn repeated(alloc: Global, text: &str, times: usize, last: &str) -> Result<String, Memory> {
    let mut all = String::new(alloc);
    for _ in 0..times {
        all.push_str(text).map_err(|_| Memory)?;
    }
    all.push_str(last).map_err(|_| Memory)?;
    Ok(all)
}

#[test]
fn a_token_of_two_counts(rt: HostRuntime) -> Result<(), Memory> {
    // on a device alone these digits take effect at each of their counts; a shop never issues them
    let lines =
        "power\nmake 000102030405060708090a0b0c0d0e0f 123456789 1 9\nkeys 636196510#\nkeys 636196510#\nkeys 636196510#\n";
    let want = "unmade\nup 0 0 0\nadded 24 721 62294400\nadded 42 721 124588800\nold\n";
    let text = said_under::<Plain>(rt.alloc(), &mut MemFlash::erased(), lines)?;
    assert_eq!(rt; text.as_str(), want);
    Ok(())
}
