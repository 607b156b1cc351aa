// Logs that are handed to the program, and what it says of them.
use super::{CALM, Plan, answered, joined, said_by};
use memory_ports::MemFlash;
use paygo_cli::Status;
use paygo_spec::Memory;

const CHECK: [&str; 1] = ["check"];

/// A device that is made, a token whose power is cut, and the token once more.
const FRONT: &str =
    "> power\n< unmade\n> make 00000000000000000000000000000000 123456789 1 9\n< up 0 0 0\n\
> keys 123463819#\n< down\n> power\n< up 1 2592000 0\n> keys 123463819#\n";

#[test]
fn a_log_with_a_power_cut(rt: HostRuntime) -> Result<(), Memory> {
    let alloc = rt.alloc();
    for (last, want) in [
        ("< old\n", "yes 10\n"),
        ("< old", "yes 10\n"),
        ("< set 1 30 2592000\n", "no 10\n"),
        ("", "no 10\n"),
        ("< old\r\n", "no 10\n"),
        ("< old\n\n> power\n", "unread 11\n"),
        ("< old\n< old\n", "no 11\n"),
    ] {
        let log = joined(alloc, FRONT, last)?;
        let said = said_by(alloc, &mut MemFlash::erased(), &CHECK, log.as_str())?;
        assert_eq!(rt; said.as_str(), want);
    }
    for (log, want) in [("", "yes 0\n"), ("power\n< unmade\n", "unread 1\n")] {
        let said = said_by(alloc, &mut MemFlash::erased(), &CHECK, log)?;
        assert_eq!(rt; said.as_str(), want);
    }
    Ok(())
}

#[test]
fn faults_end_a_check(rt: HostRuntime) -> Result<(), Memory> {
    // the first or the second read fails, the only write does, or there is room for a part of the verdict
    for (plan, want) in [
        (Plan { read: 1, ..CALM }, (Status::Read, "")),
        (Plan { read: 2, ..CALM }, (Status::Read, "")),
        (Plan { write: 1, ..CALM }, (Status::Write, "")),
        (Plan { room: 3, ..CALM }, (Status::Write, "yes")),
        (CALM, (Status::Ok, "yes 2\n")),
    ] {
        let (status, text) = answered(
            rt.alloc(),
            &mut MemFlash::erased(),
            &CHECK,
            "> power\n< unmade\n",
            plan,
        )?;
        assert_eq!(rt; (status, text.as_str()), want);
    }
    Ok(())
}
