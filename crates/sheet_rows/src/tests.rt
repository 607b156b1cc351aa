// What `sheets` writes over tables in memory. The counts of the chain are 7,000 apart, and its starting code is
// 123456789.
mod answers;
mod faults;
mod reports;
mod rules;

use ledger_keeper::MemKeeper;
use memory_ports::{MemFlash, MemSink, MemSource};
use paygo_cli::{Status, run};
use paygo_ports::Flash;
use paygo_spec::{Cut, Memory};
use std::alloc::Global;
use std::process::Abort;
use token_chain::Stride;

/// The words of a run on the lines of agents, and of one of the shop.
const SHEETS: [&str; 2] = ["sheets", "D"];

const SERVE: [&str; 2] = ["serve", "D"];

/// The device A1, whose total is far, and B2, whose total is reached by the third payment of 350.
const ENROLL: &str =
    r#"{"do":"enroll","serial":"A1","key":"00000000000000000000000000000000","start":123456789,"divider":1,"form":9,"price":50,"total":18000}
{"do":"enroll","serial":"B2","key":"00000000000000000000000000000000","start":123456789,"divider":1,"form":9,"price":50,"total":1000}
"#;

/// Asks for the rows of both, and for each order that a sheet of these tests can have of them.
const ASKED: &str = r#"{"do":"show","serial":"A1"}
{"do":"show","serial":"B2"}
{"do":"order","id":"S1-1"}
{"do":"order","id":"S1-2"}
{"do":"order","id":"S1-3"}
{"do":"order","id":"S2-1"}
{"do":"order","id":"S2-2"}
{"do":"order","id":"S2-3"}
{"do":"order","id":"S2-4"}
{"do":"order","id":"S2-5"}
"#;

/// What is planned to go wrong in a run: the read and the write that fail (0: none), the most bytes of a read, and the
/// room for answers.
#[derive(Clone, Copy)]
struct Plan {
    read: u64,
    most: usize,
    write: u64,
    room: usize,
}

/// Nothing goes wrong.
const CALM: Plan = Plan {
    read: 0,
    most: 8192,
    write: 0,
    room: 65_536,
};

/// Whether the flash has its plan and its erased words still: it would have failed at its first call.
fn is_unused(flash: &mut MemFlash) -> bool {
    for at in 0..1024u16 {
        if flash.word(at) != u64::MAX {
            return false;
        }
    }
    flash.power_up().is_err()
}

/// Runs these words over the keeper, and gives the status and the answers. The flash isn't called.
fn ran(
    rt: &impl Abort,
    alloc: Global,
    keeper: &mut MemKeeper,
    words: &[&str],
    input: &[u8],
    plan: Plan,
) -> Result<(Status, String), Memory> {
    let mut source = MemSource::new(alloc, input)?;
    source.fail_at(plan.read);
    source.most(plan.most.max(1));
    let mut sink = MemSink::new(alloc, plan.room)?;
    sink.fail_at(plan.write);
    let mut flash = MemFlash::erased();
    flash.plan(Some(Cut { after: 0, keep: 0 }));
    let status = run::<Stride<7>, MemSource, MemSink, MemKeeper, MemFlash>(
        alloc,
        words,
        &mut source,
        &mut sink,
        keeper,
        &mut flash,
    );
    assert!(rt; is_unused(&mut flash));
    let text = str::from_utf8(sink.bytes()).unwrap_or("no text");
    Ok((status, joined(alloc, text, "")?))
}

/// The answers of a calm run of these words over the keeper, which ends well.
fn said(
    rt: &impl Abort,
    alloc: Global,
    keeper: &mut MemKeeper,
    words: &[&str],
    input: &str,
) -> Result<String, Memory> {
    let (status, text) = ran(rt, alloc, keeper, words, input.as_bytes(), CALM)?;
    assert_eq!(rt; status, Status::Ok);
    Ok(text)
}

/// These texts one behind the other.
fn joined(alloc: Global, front: &str, rest: &str) -> Result<String, Memory> {
    format!(in alloc; "{front}{rest}").map_err(|_| Memory)
}

/// A text so many times, and then another.
fn repeated(alloc: Global, text: &str, times: usize, last: &str) -> Result<String, Memory> {
    let mut all = String::new(alloc);
    for _ in 0..times {
        all.push_str(text).map_err(|_| Memory)?;
    }
    all.push_str(last).map_err(|_| Memory)?;
    Ok(all)
}

/// A keeper with the rows of both devices, in four calls.
fn enrolled(rt: &impl Abort, alloc: Global) -> Result<MemKeeper, Memory> {
    let mut keeper = MemKeeper::new(alloc);
    said(rt, alloc, &mut keeper, &SERVE, ENROLL)?;
    Ok(keeper)
}

/// The tables as the shop tells them: both rows, each order, and how many orders there are.
fn tables(rt: &impl Abort, alloc: Global, keeper: &mut MemKeeper) -> Result<String, Memory> {
    let text = said(rt, alloc, keeper, &SERVE, ASKED)?;
    let orders = keeper.orders();
    format!(in alloc; "{text}{orders} orders\n").map_err(|_| Memory)
}

/// The whole lines of a text.
fn whole_lines(text: &str) -> &str {
    match text.rfind('\n') {
        Some(end) => text.get(..end.saturating_add(1)).unwrap_or(""),
        None => "",
    }
}

/// A text of whole lines without the last one of them.
fn without_last(text: &str) -> &str {
    whole_lines(text.get(..text.len().saturating_sub(1)).unwrap_or(""))
}
