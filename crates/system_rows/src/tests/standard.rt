// The adapters of the standard streams, over a made-up input and a made-up output.
use memory_ports::{MemSink, MemSource};
use paygo_ports::{ReadFault, Sink, Source, WriteFault};
use paygo_spec::Memory;
use std::alloc::Allocator;
use std::cell::Cell;
use std::fmt::Display;
use std::io;
use std::io::{BufRead, ErrorKind, Input, Lines, Print, Read};
use system_ports::{StdinSource, StdoutSink};

const TYPED: &[u8] = b"power\nkeys 294132819#\nshow\n";

// An input that gives at most so many bytes a read, fails at the call of a number, and is interrupted so many times first.
#[derive(Drop)]
struct Typed {
    at: Cell<usize>,
    calls: Cell<u64>,
    fails: u64,
    signals: Cell<u32>,
    most: usize,
}

impl Typed {
    fn new(most: usize, fails: u64, signals: u32) -> Typed {
        Typed {
            at: Cell::new(0),
            calls: Cell::new(0),
            fails,
            signals: Cell::new(signals),
            most,
        }
    }
}

#[derive(Clone, Copy)]
struct Keyboard<'t>(&'t Typed);

impl Read for Keyboard<'_> {
    fn read(&mut self, buf: &mut [u8]) -> io::Result<usize> {
        let input = self.0;
        let signals = input.signals.get();
        if signals > 0 {
            input.signals.set(signals - 1);
            return Err(io::Error::from(ErrorKind::Interrupted));
        }
        input.calls.set(input.calls.get().saturating_add(1));
        if input.calls.get() == input.fails {
            return Err(io::Error::from(ErrorKind::Other));
        }
        let left = TYPED.get(input.at.get()..).unwrap_or(&[]);
        let n = left.len().min(buf.len()).min(input.most);
        buf[..n].copy_from_slice(&left[..n]);
        input.at.set(input.at.get().saturating_add(n));
        Ok(n)
    }
}

impl BufRead for Keyboard<'_> {
    fn fill_buf(&mut self) -> io::Result<&[u8]> {
        Err(io::Error::from(ErrorKind::Unsupported))
    }

    fn consume(&mut self, _amount: usize) {}
}

impl<'t> Input for Keyboard<'t> {
    type Reader = Keyboard<'t>;

    fn read_line<A: Allocator + Clone>(&self, _buf: &mut String<A>) -> io::Result<usize> {
        Err(io::Error::from(ErrorKind::Unsupported))
    }

    fn lines<A: Allocator>(&self, alloc: A) -> Lines<Keyboard<'t>, A> {
        self.reader().lines(alloc)
    }

    fn reader(&self) -> Keyboard<'t> {
        *self
    }
}

// An output that takes at most so many bytes a write, keeps the last ones, and fails at the call of a number.
#[derive(Drop)]
struct Paper {
    last: Cell<[u8; 16]>,
    taken: Cell<usize>,
    calls: Cell<u64>,
    fails: u64,
    most: usize,
}

impl Paper {
    fn new(most: usize, fails: u64) -> Paper {
        Paper {
            last: Cell::new([0; 16]),
            taken: Cell::new(0),
            calls: Cell::new(0),
            fails,
            most,
        }
    }
}

impl Print for Paper {
    fn print<D: Display + Drop>(&self, _value: D) -> io::Result<()> {
        Err(io::Error::from(ErrorKind::Unsupported))
    }

    fn println<D: Display + Drop>(&self, _value: D) -> io::Result<()> {
        Err(io::Error::from(ErrorKind::Unsupported))
    }

    fn write_all(&self, _bytes: &[u8]) -> io::Result<()> {
        Err(io::Error::from(ErrorKind::Unsupported))
    }

    fn write_some(&self, bytes: &[u8]) -> io::Result<usize> {
        self.calls.set(self.calls.get().saturating_add(1));
        if self.calls.get() == self.fails {
            return Err(io::Error::from(ErrorKind::BrokenPipe));
        }
        let n = bytes.len().min(self.most).min(16);
        let mut last = [0; 16];
        last[..n].copy_from_slice(&bytes[..n]);
        self.last.set(last);
        self.taken.set(self.taken.get().saturating_add(n));
        Ok(n)
    }
}

// Standard input and a source in memory give the same to the same calls, a fault at each call in turn among them.
#[test]
fn standard_input_gives_as_memory_does(rt: HostRuntime) -> Result<(), Memory> {
    for most in [1, 5, 100] {
        for fails in 1..=12 {
            let typed = Typed::new(most, fails, 3);
            let keyboard = Keyboard(&typed);
            let mut source = StdinSource::new(&keyboard);
            let mut memory = MemSource::new(rt.alloc(), TYPED)?;
            memory.most(most);
            memory.fail_at(fails);
            let mut faults = 0u32;
            for _ in 0..12 {
                let mut buf = [0; 8];
                let mut want = [0; 8];
                let outcome = source.read(&mut buf);
                assert_eq!(rt; outcome, memory.read(&mut want), "{most} {fails}");
                assert_eq!(rt; buf, want, "{most} {fails}");
                if outcome == Err(ReadFault) {
                    faults = faults.saturating_add(1);
                }
            }
            assert_eq!(rt; faults, 1, "{most} {fails}");
        }
    }
    Ok(())
}

#[test]
fn an_interrupted_read_is_tried_again(rt: HostRuntime) {
    for (signals, want) in [(0, Ok(4)), (3, Ok(4)), (999, Ok(4)), (1000, Err(ReadFault))] {
        let typed = Typed::new(100, 0, signals);
        let keyboard = Keyboard(&typed);
        let mut source = StdinSource::new(&keyboard);
        assert_eq!(rt; source.read(&mut [0; 4]), want, "after {signals} signals");
    }
}

// Standard output and a sink in memory take the same of the same pieces, with a fault at each call in turn.
#[test]
fn standard_output_takes_as_memory_does(rt: HostRuntime) -> Result<(), Memory> {
    for fails in 1..=5 {
        let paper = Paper::new(16, fails);
        let mut sink = StdoutSink::new(&paper);
        let mut memory = MemSink::new(rt.alloc(), 100)?;
        memory.fail_at(fails);
        let mut faults = 0u32;
        for piece in [
            b"up 0 0 0\n".as_slice(),
            b"",
            b"set 1 30\n",
            b"old\n",
            b"down\n",
        ] {
            let outcome = sink.write(piece);
            assert_eq!(rt; outcome, memory.write(piece), "at {fails}");
            if outcome == Err(WriteFault) {
                faults = faults.saturating_add(1);
            } else {
                let last = paper.last.get();
                assert!(rt; last.starts_with(piece), "at {fails}");
            }
        }
        assert_eq!(rt; faults, 1, "at {fails}");
        assert_eq!(rt; paper.taken.get(), memory.bytes().len(), "at {fails}");
    }
    Ok(())
}

#[test]
fn an_output_may_take_a_part_but_not_nothing(rt: HostRuntime) {
    let paper = Paper::new(2, 0);
    let mut sink = StdoutSink::new(&paper);
    assert_eq!(rt; sink.write(b"up"), Ok(2));
    assert_eq!(rt; sink.write(b"up 0"), Ok(2));
    assert_eq!(rt; paper.taken.get(), 4);
    let stuck = Paper::new(0, 0);
    let mut sink = StdoutSink::new(&stuck);
    assert_eq!(rt; sink.write(b"up"), Err(WriteFault));
    assert_eq!(rt; sink.write(b""), Ok(0));
}
