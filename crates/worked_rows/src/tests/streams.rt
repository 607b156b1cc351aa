// Words of the command line, and sources and sinks that fail.
use super::{CALM, DEVICE, Plan, answered};
use ledger_keeper::MemKeeper;
use line_loop::{Lines, LinesFault, Next};
use memory_ports::{MemFlash, MemSink, MemSource, WatchedSink, WatchedSource};
use paygo_cli::{Status, run};
use paygo_spec::Memory;
use std::cell::Cell;
use token_chain::Stride;

#[test]
fn faults_of_the_streams_end_a_run(rt: HostRuntime) -> Result<(), Memory> {
    // the second read fails, or the first write, or no room is left
    for (plan, want) in [
        (Plan { read: 2, ..CALM }, (Status::Read, "unmade\n")),
        (Plan { write: 1, ..CALM }, (Status::Write, "")),
        (Plan { room: 3, ..CALM }, (Status::Write, "unm")),
    ] {
        let (status, text) = answered(
            rt.alloc(),
            &mut MemFlash::erased(),
            &DEVICE,
            "power\n",
            plan,
        )?;
        assert_eq!(rt; (status, text.as_str()), want);
    }
    // the answers to the keys of one line are written one by one: the second one fails
    let input = "power\nkeys 1#2#3#\nshow\n";
    let plan = Plan { write: 3, ..CALM };
    let (status, text) = answered(rt.alloc(), &mut MemFlash::erased(), &DEVICE, input, plan)?;
    assert_eq!(rt;
        (status, text.as_str()),
        (Status::Write, "unmade\nunmade\n")
    );
    Ok(())
}

#[test]
fn words_of_the_command_line(rt: HostRuntime) -> Result<(), Memory> {
    // a source whose first read fails shows whether it is read
    let fails = Plan { read: 1, ..CALM };
    let rows: [(&[&str], &str, Plan, Status); 26] = [
        (&["serve"], "power\n", fails, Status::Usage),
        (&["serve", ""], "power\n", fails, Status::Usage),
        (&["serve", "D", "F"], "power\n", fails, Status::Usage),
        (&["bench", "D"], "power\n", fails, Status::Usage),
        (&["bench", "D", ""], "power\n", fails, Status::Usage),
        (&["serve", "D"], "power\n", fails, Status::Read),
        (&["bench", "D", "F"], "power\n", fails, Status::Read),
        (&[], "power\n", fails, Status::Usage),
        (&["audit"], "power\n", fails, Status::Usage),
        (&["check"], "power\n", fails, Status::Read),
        (&["check", "D"], "power\n", fails, Status::Usage),
        (&["audit", ""], "power\n", fails, Status::Usage),
        (&["audit", "D", "F"], "power\n", fails, Status::Usage),
        (&["fleet", "1", "0", "5"], "power\n", fails, Status::Usage),
        (
            &["fleet", "42", "201", "5"],
            "power\n",
            fails,
            Status::Usage,
        ),
        (
            &["fleet", "42", "1", "401"],
            "power\n",
            fails,
            Status::Usage,
        ),
        (&["fleet", "42", "1", "-5"], "power\n", fails, Status::Usage),
        (&["fleet", "", "1", "5"], "power\n", fails, Status::Usage),
        (
            &["fleet", "18446744073709551616", "1", "5"],
            "power\n",
            fails,
            Status::Usage,
        ),
        (
            &["fleet", "000000000000000000042", "1", "5"],
            "power\n",
            fails,
            Status::Usage,
        ),
        (&["fleet", "42", "1"], "power\n", fails, Status::Usage),
        (&["device", ""], "power\n", fails, Status::Usage),
        (&["device"], "power\n", fails, Status::Usage),
        (&["device", "F", "x"], "power\n", fails, Status::Usage),
        (&["device", "F"], "power\n", fails, Status::Read),
        (&["device", "F"], "", CALM, Status::Ok),
    ];
    for (words, input, plan, want) in rows {
        let (status, text) = answered(rt.alloc(), &mut MemFlash::erased(), words, input, plan)?;
        assert_eq!(rt; (status, text.as_str()), (want, ""), "{words:?}");
    }
    Ok(())
}

#[test]
fn lines_within_a_budget(rt: HostRuntime) -> Result<(), Memory> {
    // of nine bytes, the last three of which are a line only once the source has told its end
    for (budget, second) in [
        (8, Err(LinesFault::Budget)),
        (9, Err(LinesFault::Budget)),
        (10, Ok(Next::Line { len: 3 })),
    ] {
        let mut source = MemSource::new(rt.alloc(), b"power\npow")?;
        let mut lines = Lines::new(budget);
        let mut line = [0u8; 4096];
        assert_eq!(rt;
            lines.next(&mut source, &mut line),
            Ok(Next::Line { len: 5 })
        );
        assert_eq!(rt; &line[..5], b"power".as_slice());
        assert_eq!(rt; lines.next(&mut source, &mut line), second);
        if second.is_ok() {
            assert_eq!(rt; &line[..3], b"pow".as_slice());
            assert_eq!(rt; lines.next(&mut source, &mut line), Ok(Next::End));
        }
    }
    Ok(())
}

/// How many lines end in the first bytes of an input.
fn lines_within(input: &[u8], most: usize) -> usize {
    input
        .iter()
        .enumerate()
        .filter(|(at, c)| *at < most && **c == b'\n')
        .count()
}

#[test]
fn each_line_is_answered_before_the_next_read(rt: HostRuntime) -> Result<(), Memory> {
    let input = b"power\nshow\nshow\n";
    // by the byte, by less and more than a line, and all at once
    for (most, reads) in [(1usize, 17usize), (5, 5), (6, 4), (7, 4), (8192, 2)] {
        let written = Cell::new(0u64);
        let mut source = MemSource::new(rt.alloc(), input)?;
        source.most(most);
        let mut source = WatchedSource::new(source, &written);
        let mut sink = WatchedSink::new(MemSink::new(rt.alloc(), 100)?, &written);
        let mut keeper = MemKeeper::new(rt.alloc());
        let status = run::<Stride<7>, WatchedSource<'_>, WatchedSink<'_>, MemKeeper, MemFlash>(
            rt.alloc(),
            &DEVICE,
            &mut source,
            &mut sink,
            &mut keeper,
            &mut MemFlash::erased(),
        );
        assert_eq!(rt; status, Status::Ok);
        assert_eq!(rt; sink.bytes(), b"unmade\nunmade\nunmade\n".as_slice());
        let seen = source.seen();
        assert_eq!(rt; seen.len(), reads);
        for (read, bytes) in seen.iter().enumerate() {
            // three answers of seven bytes, each of a line that had been read whole
            let lines = lines_within(input, read.saturating_mul(most));
            assert_eq!(rt; *bytes, (lines as u64).saturating_mul(7), "{most} {read}");
        }
    }
    Ok(())
}
