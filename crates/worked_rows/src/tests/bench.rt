// Shop and device in one run: what is sold is typed, and what is typed counts once.
use super::ledger::{ENROLL, ORDER, PAY, ROW};
use super::{BENCH, CALM, MADE, MAKE, joined, ran, repeated, well};
use ledger_keeper::MemKeeper;
use memory_ports::MemFlash;
use paygo_cli::Status;
use paygo_spec::{Cut, Memory};
use std::alloc::Global;
use token_chain::Stride;

/// The payments of four weeks.
const PAYS: &str = r#"{"do":"pay","id":"p1","serial":"A1","amount":350}
{"do":"pay","id":"p2","serial":"A1","amount":350}
{"do":"pay","id":"p3","serial":"A1","amount":350}
{"do":"pay","id":"p4","serial":"A1","amount":350}
"#;

/// A device is made and enrolled, and four weeks are paid. The first token is typed, and two weeks pass; the third one is
/// typed twice, the second one once, and a week passes; the power comes back, and an hour passes; the last token is typed, and
/// a week passes.
pub(super) fn a_month(alloc: Global) -> Result<String, Memory> {
    let enrolled = joined(alloc, MAKE, ENROLL)?;
    let paid = joined(alloc, &enrolled, PAYS)?;
    let two_weeks = repeated(alloc, "tick 3600\n", 336, "")?;
    let week = repeated(alloc, "tick 3600\n", 168, "")?;
    let first = joined(alloc, &paid, "keys 123470796#\n")?;
    let first = joined(alloc, &first, &two_weeks)?;
    let third = joined(
        alloc,
        &first,
        "keys 123498796#\nkeys 123498796#\nkeys 123484796#\n",
    )?;
    let third = joined(alloc, &third, &week)?;
    let last = joined(alloc, &third, "power\ntick 3600\nkeys 123512796#\n")?;
    joined(alloc, &last, &week)
}

/// The answers of a run of both over an erased flash that fails after so many calls, and empty tables.
fn month_cut(alloc: Global, after: u32, keep: u64) -> Result<String, Memory> {
    let mut flash = MemFlash::erased();
    flash.plan(Some(Cut { after, keep }));
    let mut keeper = MemKeeper::new(alloc);
    let input = joined(alloc, &a_month(alloc)?, "show\n")?;
    let run = ran::<Stride<7>>(
        alloc,
        &mut keeper,
        &mut flash,
        &BENCH,
        input.as_bytes(),
        CALM,
    )?;
    well(alloc, run)
}

#[test]
fn a_month_of_payments(rt: HostRuntime) -> Result<(), Memory> {
    // the last hour of the third week is cut off, and doesn't count
    let text = month_cut(rt.alloc(), 356, u64::MAX)?;
    let start = joined(rt.alloc(), MADE, ROW)?;
    let start = joined(rt.alloc(), &start, ORDER)?;
    assert!(rt; text.starts_with(start.as_str()));
    for line in [
        r#""count":8,"value":7,"token":"123512796"}
added 2 7 604800
ticked 601200 0
"#,
        "\nticked 0 0\nadded 6 7 604800\nold\nadded 4 7 1209600\nticked 1206000 0\n",
        "\nticked 608400 0\ndown\nup 6 608400 0\nticked 604800 0\nadded 8 7 1209600\n",
        "\nticked 604800 0\nshown 8 604800 0 0 0 49999492\n",
    ] {
        assert!(rt; text.find(line).is_some(), "{line}");
    }
    Ok(())
}

#[test]
fn shop_and_device_start_again(rt: HostRuntime) -> Result<(), Memory> {
    // a payment is told again after both were started anew: its order is the same, and its token counts once
    let mut keeper = MemKeeper::new(rt.alloc());
    let mut flash = MemFlash::erased();
    for (input, want) in [
        (
            joined(rt.alloc(), MAKE, ENROLL)?,
            joined(rt.alloc(), MADE, ROW)?,
        ),
        (
            joined(rt.alloc(), PAY, "power\nkeys 123470796#\n")?,
            joined(rt.alloc(), ORDER, "up 0 0 0\nadded 2 7 604800\n")?,
        ),
        (
            joined(rt.alloc(), PAY, "power\nkeys 123470796#\n")?,
            joined(rt.alloc(), ORDER, "up 2 604800 0\nold\n")?,
        ),
    ] {
        let (status, text) = ran::<Stride<7>>(
            rt.alloc(),
            &mut keeper,
            &mut flash,
            &BENCH,
            input.as_bytes(),
            CALM,
        )?;
        assert_eq!(rt; (status, text.as_str()), (Status::Ok, want.as_str()));
    }
    Ok(())
}
