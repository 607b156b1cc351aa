// Standard input as a source. What the system does is trusted: no clause can say which bytes it gives. So each read notes
// what it gave, and the clauses above speak of what was noted.
ghost use Rattle.std.specs.Prelude.{◌≡◌, [], false, None};
ghost use Rattle.paygo_spec.specs.Streams.{SourceView, Gives, GivesNothing};

use crate::bytes::read_some;
use crate::record::Record;
use crate::settling::settle;
use paygo_ports::{ReadFault, Source};
use std::io::Input;

/// Standard input of the runtime `R`. It tells what it handed out, and not what is left.
///
/// A read that a signal interrupts is tried again, up to a thousand times; each other failure of the system is a fault.
#[derive(Drop)]
pub struct StdinSource<'a, R: Input> {
    rt: &'a R,
    given: Record,
    ended: bool,
    faults: u64,
}

impl<'a, R: Input> StdinSource<'a, R> {
    /// The standard input that this runtime has. Nothing is read yet.
    pub fn new(rt: &'a R) -> StdinSource<'a, R>
        ensures { ⟦<StdinSource<'a, R> as Source>⟧.view result ≡
            record { given = []; left = None; ended = false; faults = 0 } }
    {
        StdinSource {
            rt,
            given: Record::new(),
            ended: false,
            faults: 0,
        }
    }
}

impl<'a, R: Input> Source for StdinSource<'a, R> {
    ghost view = { λ s. record { given = s.given.bytes; left = None; ended = s.ended; faults = s.faults } };

    fn read(&mut self, buf: &mut [u8]) -> Result<usize, ReadFault> {
        let outcome = read_some(&mut self.rt.reader(), buf);
        let n = settle(outcome, ReadFault, &mut self.faults)?;
        self.given.note(&buf[..n]);
        if !buf.is_empty() {
            self.ended = n == 0;
        }
        Ok(n)
    }
}
