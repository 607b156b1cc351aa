// A check of a log, line by line.
use crate::Verdict;
use crate::progress::Progress;
use bench_run::Bench;
use line_text::after_prefix;
use paygo_spec::Memory;
use std::alloc::Global;
use token_chain::Mixer;

/// A check of a log that is handed to it line by line: it keeps every state of shop and device that fits the lines so
/// far, and says at any time what it found.
#[derive(Drop)]
pub struct Check<M: Mixer> {
    bench: Bench<M>,
    progress: Progress,
}

impl<M: Mixer> Check<M> {
    ghost use Rattle.std.specs.Prelude.{◌≡◌, ◌≤◌, IfOk, IsErr, IsOk, length};
    ghost use Rattle.log_check.specs.Fits.{Unmarked, marked};
    ghost use Rattle.log_check.specs.Checking.{Checked, first_checked, with_line, verdict_of};
    ghost use Rattle.log_check.specs.Holding.{Holds};

    /// A check that was handed no line. It takes memory.
    ///
    /// # Errors
    ///
    /// `Memory` where there is none.
    pub fn new(alloc: Global) -> Result<Check<M>, Memory>
        ensures { IfOk result (λ check. Holds check.progress first_checked) }
    {
        let progress = Progress::first(alloc)?;
        Ok(Check {
            bench: Bench::start(),
            progress,
        })
    }

    /// Takes one line more of the log, of at most 4,096 bytes, without the end of the line. It is passed over where a
    /// verdict stands. It takes memory.
    ///
    /// # Errors
    ///
    /// `Memory` where there is none: the check is as before, and the line may be handed to it again.
    pub fn line(&mut self, line: &[u8]) -> Result<(), Memory>
        requires { length line.now ≤ 4096 }
        ensures line { (old : Checked) → IsOk result → Holds self.old.progress old →
            Holds self.new.progress (with_line M.next old (marked line.now)) }
        ensures memory { (old : Checked) → IsErr result → Holds self.old.progress old →
            Holds self.new.progress old }
    {
        if self.progress.has_ended() {
            return Ok(());
        }
        if let Some(text) = after_prefix(line, b"> ") {
            return self.progress.typed(text);
        }
        if let Some(text) = after_prefix(line, b"< ") {
            return self.progress.told::<M>(&mut self.bench, text);
        }
        self.progress.long();
        Ok(())
    }

    /// Takes one line more of the log, which is longer than 4,096 bytes. It is passed over where a verdict stands.
    pub fn long(&mut self)
        ensures { (old : Checked) → Holds self.old.progress old →
            Holds self.new.progress (with_line M.next old Unmarked) }
    {
        self.progress.long();
    }

    /// What is said of the lines so far, as of a whole log.
    pub fn verdict(&self) -> Verdict
        ensures { (now : Checked) → Holds self.now.progress now → result ≡ verdict_of now }
    {
        self.progress.verdict()
    }
}
