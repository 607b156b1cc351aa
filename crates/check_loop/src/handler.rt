// A check that is handed the lines of a log, and what is written of its verdict.
ghost use Rattle.std.specs.Prelude.{◌≡◌, ◌++◌, ◌∷◌, [], ◌≤◌, length};
ghost use Rattle.paygo_spec.specs.Text.{with_number};
ghost use Rattle.log_check.specs.Checking.{Checked, verdict_of};
ghost use Rattle.log_check.specs.Holding.{Holds};
ghost use Rattle.line_output.specs.Written.{Wrote};
ghost use Rattle.check_loop.specs.Handed.{HandedOn, of_memory as fault_of_memory};
ghost use Rattle.check_loop.specs.Logs.{line_of_verdict};

use ledger_keeper::Keeper;
use line_loop::{LineFault, LineHandler};
use line_output::write_line;
use line_text::Line;
use log_check::{Check, Verdict};
use paygo_ports::{Flash, Sink, WriteFault};
use paygo_spec::Memory;
use std::alloc::Global;
use token_chain::Mixer;

// A check of a log that handles its lines.
#[derive(Drop)]
pub(crate) struct LogLines<M: Mixer> {
    check: Check<M>,
}

impl<M: Mixer> LogLines<M> {
    ghost use Rattle.std.specs.Prelude.{IfOk};
    ghost use Rattle.log_check.specs.Checking.{first_checked};
    ghost use Rattle.log_check.specs.Holding.{Holds};

    // A check that was handed no line.
    pub(crate) fn new(alloc: Global) -> Result<LogLines<M>, Memory>
        ensures { IfOk result (λ lines. Holds lines.check.progress first_checked) }
    {
        let check = Check::new(alloc)?;
        Ok(LogLines { check })
    }
}

// A word and a number.
fn numbered(word: &[u8], n: u64) -> Line
    requires { length word.now ≤ 10 }
    ensures text { result ≡ with_number word.now n }
    ensures len { length result ≤ 511 }
{
    let mut line = Line::new();
    line.push(word);
    line.push_number(n);
    line
}

// The line of a verdict, without its end.
pub(crate) fn verdict_line(verdict: Verdict) -> Line
    ensures text { result ≡ line_of_verdict verdict }
    ensures len { length result ≤ 511 }
{
    match verdict {
        Verdict::Yes { lines } => numbered(b"yes", lines),
        Verdict::No { line } => numbered(b"no", line),
        Verdict::Wide { line } => numbered(b"wide", line),
        Verdict::Unread { line } => numbered(b"unread", line),
    }
}

// Want of memory as what came of a line.
fn of_memory(outcome: Result<(), Memory>) -> Result<(), LineFault>
    ensures { result ≡ fault_of_memory outcome }
{
    match outcome {
        Ok(()) => Ok(()),
        Err(Memory) => Err(LineFault::Memory),
    }
}

impl<M: Mixer> LineHandler for LogLines<M> {
    ghost handles = { λ line outcome old new. HandedOn M.next line outcome old.handler.check.progress
        new.handler.check.progress old.keeper old.flash old.sink new.keeper new.flash new.sink };

    ghost concludes = { λ lines outcome old new. (checked : Checked) → Holds lines.check.progress checked →
        Wrote (line_of_verdict (verdict_of checked) ++ 10 ∷ []) outcome old new };

    ghost is_ready = { λ lines flash. Unit {0} };

    ghost spares_keeper = { λ lines. Unit {0} };

    ghost spares_flash = { λ lines. Unit {0} };

    fn line<K: Sink, D: Keeper, F: Flash>(
        &mut self,
        _alloc: Global,
        line: &[u8],
        _keeper: &mut D,
        _flash: &mut F,
        _sink: &mut K,
    ) -> Result<(), LineFault> {
        of_memory(self.check.line(line))
    }

    fn long<K: Sink>(&mut self, _size: u64, _sink: &mut K) -> Result<(), WriteFault> {
        self.check.long();
        Ok(())
    }

    fn end<K: Sink>(&self, sink: &mut K) -> Result<(), WriteFault> {
        write_line(sink, verdict_line(self.check.verdict()))
    }
}
