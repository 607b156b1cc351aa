// Values that can't be sold in a device's reach.
use super::{CALM, Plan, ran};
use ledger_keeper::MemKeeper;
use memory_ports::MemFlash;
use paygo_cli::Status;
use paygo_spec::Memory;
use std::alloc::Global;
use token_chain::{Mixer, Plain, Stride};

/// A key, and a starting code, of which the codes of value 7 run into a short circle.
const KEY: &str = "7d3201574c5006106efcc9c3e8a3d7a0";

const START: &str = "759054195";

/// What is said of a device with this key and starting code, up to this last count. No line is read.
fn listed<M: Mixer>(
    alloc: Global,
    words: [&str; 3],
    plan: Plan,
) -> Result<(Status, String), Memory> {
    ran::<M>(
        alloc,
        &mut MemKeeper::new(alloc),
        &mut MemFlash::erased(),
        &["values", words[0], words[1], words[2]],
        b"power\n",
        Plan { read: 1, ..plan },
    )
}

#[test]
fn values_of_a_new_device(rt: HostRuntime) -> Result<(), Memory> {
    let alloc = rt.alloc();
    let whole = "stuck add 7 0\nstuck set 7 0\nvalues 2\n";
    let (status, text) = listed::<Plain>(alloc, [KEY, START, "0"], CALM)?;
    assert_eq!(rt; (status, text.as_str()), (Status::Ok, whole));
    // an output that has no more room
    let short = Plan { room: 20, ..CALM };
    let (status, text) = listed::<Plain>(alloc, [KEY, START, "0"], short)?;
    assert_eq!(rt;
        (status, text.as_str()),
        (Status::Write, "stuck add 7 0\nstuck ")
    );
    // a chain with no circle
    let (status, text) = listed::<Stride<7>>(alloc, [KEY, START, "0"], CALM)?;
    assert_eq!(rt; (status, text.as_str()), (Status::Ok, "values 0\n"));
    Ok(())
}

#[test]
fn words_that_name_no_device(rt: HostRuntime) -> Result<(), Memory> {
    let alloc = rt.alloc();
    for words in [
        ["7d3201574c5006106efcc9c3e8a3d7", START, "0"],
        [KEY, "1000000000", "0"],
        [KEY, "-1", "0"],
        [KEY, START, "4096"],
        [KEY, START, ""],
    ] {
        let (status, text) = listed::<Stride<7>>(alloc, words, CALM)?;
        assert_eq!(rt; (status, text.as_str()), (Status::Usage, ""));
    }
    Ok(())
}
