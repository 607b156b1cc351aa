use crate::{MemSink, MemSource, WatchedSink, WatchedSource};
use paygo_ports::{ReadFault, Sink, Source, WriteFault};
use paygo_spec::Memory;
use std::cell::Cell;

#[test]
fn a_source_gives_its_bytes(rt: HostRuntime) -> Result<(), Memory> {
    let mut source = MemSource::new(rt.alloc(), b"power\nshow")?;
    let mut buf = [0; 16];
    assert_eq!(rt; source.read(&mut []), Ok(0));
    source.most(4);
    assert_eq!(rt; source.read(&mut buf), Ok(4));
    assert_eq!(rt; buf[..4], b"powe"[..]);
    assert_eq!(rt; source.read(&mut buf[..1]), Ok(1));
    assert_eq!(rt; buf[..2], b"ro"[..]);
    source.most(100);
    assert_eq!(rt; source.read(&mut buf), Ok(5));
    assert_eq!(rt; buf[..5], b"\nshow"[..]);
    assert_eq!(rt; source.read(&mut buf), Ok(0));
    assert_eq!(rt; source.read(&mut buf), Ok(0));
    Ok(())
}

#[test]
fn a_source_fails_where_planned(rt: HostRuntime) -> Result<(), Memory> {
    // Two plans, of which the second one stands, and what four reads give then.
    let fault = Err(ReadFault);
    for (first, second, gives) in [
        (2, 1, [fault, Ok(2), Ok(2), Ok(1)]),
        (1, 2, [Ok(2), fault, Ok(2), Ok(1)]),
        (3, 3, [Ok(2), Ok(2), fault, Ok(1)]),
        (3, 0, [Ok(2), Ok(2), Ok(1), Ok(0)]),
    ] {
        let mut source = MemSource::new(rt.alloc(), b"power")?;
        source.most(2);
        source.fail_at(first);
        source.fail_at(second);
        for want in gives {
            assert_eq!(rt; source.read(&mut [0; 8]), want, "planned at {second}");
        }
    }
    Ok(())
}

#[test]
fn a_sink_takes_what_it_has_room_for(rt: HostRuntime) -> Result<(), Memory> {
    let mut sink = MemSink::new(rt.alloc(), 8)?;
    assert_eq!(rt; sink.bytes(), b"".as_slice());
    assert_eq!(rt; sink.write(b"up 0"), Ok(4));
    assert_eq!(rt; sink.write(b" 0 0\n"), Ok(4));
    assert_eq!(rt; sink.bytes(), b"up 0 0 0".as_slice());
    assert_eq!(rt; sink.write(b"\n"), Err(WriteFault));
    assert_eq!(rt; sink.write(b""), Ok(0));
    assert_eq!(rt; sink.bytes(), b"up 0 0 0".as_slice());
    Ok(())
}

#[test]
fn a_sink_fails_where_planned(rt: HostRuntime) -> Result<(), Memory> {
    for fails in [1, 2, 3] {
        let mut sink = MemSink::new(rt.alloc(), 100)?;
        sink.fail_at(7);
        sink.fail_at(fails);
        for call in 1..=4 {
            let want = if call == fails {
                Err(WriteFault)
            } else {
                Ok(3)
            };
            assert_eq!(rt; sink.write(b"old"), want, "at call {call} of {fails}");
        }
        assert_eq!(rt; sink.bytes(), b"oldoldold".as_slice());
    }
    Ok(())
}

#[test]
fn a_watched_source_notes_what_was_written(rt: HostRuntime) -> Result<(), Memory> {
    let written = Cell::new(0);
    let mut source = WatchedSource::new(MemSource::new(rt.alloc(), b"power\nshow\n")?, &written);
    let mut sink = WatchedSink::new(MemSink::new(rt.alloc(), 20)?, &written);
    assert_eq!(rt; source.read(&mut [0; 6]), Ok(6));
    assert_eq!(rt; sink.write(b"unmade\n"), Ok(7));
    assert_eq!(rt; source.read(&mut [0; 6]), Ok(5));
    assert_eq!(rt; sink.write(b"unmade\n"), Ok(7));
    assert_eq!(rt; sink.write(b"unmade\n"), Ok(6));
    assert_eq!(rt; source.read(&mut [0; 6]), Ok(0));
    assert_eq!(rt; source.seen(), [0, 7, 20].as_slice());
    assert_eq!(rt; sink.bytes(), b"unmade\nunmade\nunmade".as_slice());
    Ok(())
}
