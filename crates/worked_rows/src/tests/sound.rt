// The tables of a shop, checked whole.
use super::audits::hold;
use super::{CALM, Plan, ran};
use ledger_keeper::MemKeeper;
use memory_ports::MemFlash;
use paygo_cli::Status;
use paygo_spec::Memory;
use std::alloc::Global;
use std::process::Abort;
use token_chain::Stride;

/// A check over the keeper ends with this status, and writes this. No line is read.
fn finds(
    rt: &impl Abort,
    alloc: Global,
    keeper: &mut MemKeeper,
    plan: Plan,
    want: (Status, &str),
) -> Result<(), Memory> {
    let (status, text) = ran::<Stride<7>>(
        alloc,
        keeper,
        &mut MemFlash::erased(),
        &["sound", "D"],
        b"power\n",
        Plan { read: 1, ..plan },
    )?;
    assert_eq!(rt; (status, text.as_str()), want);
    Ok(())
}

#[test]
fn shops_are_checked_whole(rt: HostRuntime) -> Result<(), Memory> {
    let alloc = rt.alloc();
    let mut keeper = MemKeeper::new(alloc);
    let empty = (Status::Ok, "sound 0 0 0 0\n");
    finds(&rt, alloc, &mut keeper, CALM, empty)?;
    hold(&rt, alloc, &mut keeper, b"A1", b"p1", 123_470_796);
    let one = (Status::Ok, "sound 1 1 0 0\n");
    finds(&rt, alloc, &mut keeper, CALM, one)?;
    // a second device with the same key and starting code, and a wrong token
    hold(&rt, alloc, &mut keeper, b"B2", b"q1", 123_470_797);
    let two = "flaw token q1\ntwins A1 B2\nsound 2 2 1 1\n";
    finds(&rt, alloc, &mut keeper, CALM, (Status::Ok, two))?;
    // an output that fails at the second line, and one that has no more room
    let fails = Plan { write: 2, ..CALM };
    let first = (Status::Write, "flaw token q1\n");
    finds(&rt, alloc, &mut keeper, fails, first)?;
    let short = Plan { room: 28, ..CALM };
    let cut = (Status::Write, "flaw token q1\ntwins A1 B2\nso");
    finds(&rt, alloc, &mut keeper, short, cut)
}

#[test]
fn a_check_whose_keeper_fails(rt: HostRuntime) -> Result<(), Memory> {
    let alloc = rt.alloc();
    // the rows, and the orders and the prices of each of two devices
    for call in 1..6u64 {
        let mut keeper = MemKeeper::new(alloc);
        hold(&rt, alloc, &mut keeper, b"A1", b"p1", 1);
        hold(&rt, alloc, &mut keeper, b"B2", b"q1", 1);
        keeper.fail_at(10 + call, false);
        finds(&rt, alloc, &mut keeper, CALM, (Status::Keep, ""))?;
        let found = "flaw token p1\nflaw token q1\ntwins A1 B2\nsound 2 2 2 1\n";
        finds(&rt, alloc, &mut keeper, CALM, (Status::Ok, found))?;
    }
    Ok(())
}
