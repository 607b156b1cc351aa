// How far a check has come.
ghost use Rattle.std.specs.Prelude.{◌≡◌, ◌≢◌, ◌≤◌, ◌+◌, ℕ, List, None, IfOk, IsErr, IsOk, length, is_some};
ghost use Rattle.log_check.specs.Fits.{Marked, Typed, Told, Unmarked, Fit};
ghost use Rattle.log_check.specs.Verdicts.{counted};
ghost use Rattle.log_check.specs.FitKept.{IsFit};
ghost use Rattle.log_check.specs.Checking.{Checked, first_checked, at_line, with_line, verdict_of};
ghost use Rattle.log_check.specs.Holding.{Holds, ended_with};

use crate::Verdict;
use crate::fit::Fitting;
use bench_run::Bench;
use paygo_spec::Memory;
use std::alloc::Global;
use token_chain::Mixer;

/// The most states that a check keeps.
const MOST_STATES: usize = 64;

/// What fits the lines so far, how many they are, and the verdict that stands, if one does.
#[derive(Drop)]
pub(crate) struct Progress {
    fitting: Fitting,
    lines: u64,
    ended: Option<Verdict>,
}

// The verdict that so many states end the check with at this line, if they do.
fn ended_by(states: usize, line: u64) -> Option<Verdict>
    ensures { result ≡ ended_with line states }
{
    if states == 0 {
        Some(Verdict::No { line })
    } else if states > MOST_STATES {
        Some(Verdict::Wide { line })
    } else {
        None
    }
}

impl Progress {
    /// Before the first line. It takes memory.
    pub(crate) fn first(alloc: Global) -> Result<Progress, Memory>
        ensures { IfOk result (λ progress. Holds progress first_checked) }
    {
        let fitting = Fitting::first(alloc)?;
        Ok(Progress {
            fitting,
            lines: 0,
            ended: None,
        })
    }

    /// Whether a verdict stands.
    pub(crate) fn has_ended(&self) -> bool
        ensures { result ≡ is_some self.now.ended }
    {
        self.ended.is_some()
    }

    /// One line more was typed. It takes memory.
    ///
    /// # Errors
    ///
    /// `Memory` where there is none: all is as before.
    pub(crate) fn typed(&mut self, line: &[u8]) -> Result<(), Memory>
        requires { length line.now ≤ 4096 }
        ensures line { (next : List ℕ → ℕ → ℕ) (old : Checked) → IsOk result → old.ended ≡ None →
            Holds self.old old → Holds self.new (with_line next old (Typed line.now)) }
        ensures memory { (old : Checked) → IsErr result → Holds self.old old → Holds self.new old }
    {
        self.fitting.typed(line)?;
        self.judge();
        Ok(())
    }

    /// One answer more was told. It takes memory.
    ///
    /// # Errors
    ///
    /// As for `typed`.
    pub(crate) fn told<M: Mixer>(&mut self, bench: &mut Bench<M>, text: &[u8]) -> Result<(), Memory>
        ensures line { (old : Checked) → IsOk result → old.ended ≡ None → Holds self.old old →
            Holds self.new (with_line M.next old (Told text.now)) }
        ensures memory { (old : Checked) → IsErr result → Holds self.old old → Holds self.new old }
    {
        self.fitting.told::<M>(bench, text)?;
        self.judge();
        Ok(())
    }

    // One line more fits as it now does.
    fn judge(&mut self)
        ensures { (n : ℕ) (line : Marked) (now : Fit) → line ≢ Unmarked → self.old.lines ≡ counted n →
            IsFit self.old.fitting now → Holds self.new (at_line (n + 1) line now) }
    {
        self.lines = self.lines.saturating_add(1);
        self.ended = ended_by(self.fitting.count(), self.lines);
    }

    /// One line more has no mark, or is longer than 4,096 bytes.
    pub(crate) fn long(&mut self)
        ensures { (next : List ℕ → ℕ → ℕ) (old : Checked) → Holds self.old old →
            Holds self.new (with_line next old Unmarked) }
    {
        if self.ended.is_some() {
            return;
        }
        self.lines = self.lines.saturating_add(1);
        self.ended = Some(Verdict::Unread { line: self.lines });
    }

    /// What is said of the lines so far.
    pub(crate) fn verdict(&self) -> Verdict
        ensures { (now : Checked) → Holds self.now now → result ≡ verdict_of now }
    {
        if let Some(verdict) = self.ended {
            return verdict;
        }
        if self.fitting.is_waiting() {
            return Verdict::No {
                line: self.lines.saturating_add(1),
            };
        }
        Verdict::Yes { lines: self.lines }
    }
}
