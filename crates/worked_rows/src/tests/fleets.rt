// Fleets that are drawn from a number.
use super::{CALM, Plan, answered, ran};
use ledger_keeper::MemKeeper;
use memory_ports::MemFlash;
use paygo_cli::Status;
use paygo_spec::Memory;
use token_chain::Plain;

/// One device over five days, on a chain whose codes are 7,000 apart. On day 0 a week is paid; wrong digits block the pad, behind
/// which the token comes twice; a cut is planned, and comes when the power does. On days 3 and 4 a cut comes in a tick.
const LINE: &str = "fleet 1 5 orders 1 accepted 1 old 2 invalid 1 blocked 2 down 3 left 529200\n";

#[test]
fn a_fleet_of_one_device(rt: HostRuntime) -> Result<(), Memory> {
    // a source whose first read fails shows that none is made; numbers may have zeros in front
    let fails = Plan { read: 1, ..CALM };
    for words in [
        ["fleet", "42", "1", "5"],
        ["fleet", "00000000000000000042", "001", "05"],
    ] {
        let (status, text) = answered(
            rt.alloc(),
            &mut MemFlash::erased(),
            &words,
            "power\n",
            fails,
        )?;
        assert_eq!(rt; (status, text.as_str()), (Status::Ok, LINE));
    }
    Ok(())
}

#[test]
fn a_fleet_whose_line_is_cut(rt: HostRuntime) -> Result<(), Memory> {
    let words = ["fleet", "42", "1", "5"];
    let short = Plan { room: 20, ..CALM };
    let (status, text) = answered(rt.alloc(), &mut MemFlash::erased(), &words, "", short)?;
    assert_eq!(rt;
        (status, text.as_str()),
        (Status::Write, "fleet 1 5 orders 1 a")
    );
    let fails = Plan { write: 1, ..CALM };
    let (status, text) = answered(rt.alloc(), &mut MemFlash::erased(), &words, "", fails)?;
    assert_eq!(rt; (status, text.as_str()), (Status::Write, ""));
    Ok(())
}

#[test]
fn a_fleet_on_the_real_chain(rt: HostRuntime) -> Result<(), Memory> {
    let words = ["fleet", "7", "50", "60"];
    let mut keeper = MemKeeper::new(rt.alloc());
    let mut flash = MemFlash::erased();
    let (status, first) = ran::<Plain>(rt.alloc(), &mut keeper, &mut flash, &words, b"", CALM)?;
    let (again, second) = ran::<Plain>(rt.alloc(), &mut keeper, &mut flash, &words, b"", CALM)?;
    assert_eq!(rt; (status, again), (Status::Ok, Status::Ok));
    // nine payments of each device, told again or not
    assert!(rt;
        first
            .as_str()
            .starts_with("fleet 50 60 orders 450 accepted "),
        "{first}"
    );
    assert_eq!(rt; first, second);
    Ok(())
}
