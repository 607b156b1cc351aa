// Standard output as a sink. What the system does is trusted: no clause can say what became of the bytes. So each write notes
// what the system took, and the clauses above speak of what was noted.
ghost use Rattle.std.specs.Prelude.{◌≡◌, []};
ghost use Rattle.paygo_spec.specs.Streams.{SinkView, Takes, TakesNothing};

use crate::bytes::write_some;
use crate::record::Record;
use crate::settling::settle;
use paygo_ports::{Sink, WriteFault};
use std::io;
use std::io::Print;

/// Standard output of the runtime `R`. It tells the bytes that it took.
///
/// A write is one write of the system. Each failure of it is a fault, and so is a write that takes nothing of a piece that
/// isn't empty.
#[derive(Drop)]
pub struct StdoutSink<'a, R: Print> {
    rt: &'a R,
    taken: Record,
    faults: u64,
}

impl<'a, R: Print> StdoutSink<'a, R> {
    /// The standard output that this runtime has. Nothing is written yet.
    pub fn new(rt: &'a R) -> StdoutSink<'a, R>
        ensures { ⟦<StdoutSink<'a, R> as Sink>⟧.view result ≡
            record { written = []; faults = 0 } }
    {
        StdoutSink {
            rt,
            taken: Record::new(),
            faults: 0,
        }
    }
}

impl<'a, R: Print> Sink for StdoutSink<'a, R> {
    ghost view = { λ s. record { written = s.taken.bytes; faults = s.faults } };

    fn write(&mut self, bytes: &[u8]) -> Result<usize, WriteFault> {
        let outcome = write_some(&mut io::writer(self.rt), bytes);
        let n = settle(outcome, WriteFault, &mut self.faults)?;
        self.taken.note(&bytes[..n]);
        Ok(n)
    }
}
