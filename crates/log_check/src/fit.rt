// What fits the lines that a check was handed.
ghost use Rattle.log_check.specs.Waiting.{IsWaiting};
ghost use Rattle.log_check.specs.WaitingOnce.{waiting_prop};

use crate::serving::serve;
use crate::states::States;
use crate::sure_keeper::SureKeeper;
use crate::waiting::{
    First, Waiting, behind_first, first_of, is_waiting, nothing, settle, waiting_of,
};
use bench_run::Bench;
use ledger_spec::Command;
use ledger_text::{answer_line, fault_line};
use paygo_spec::{Event, Memory};
use std::alloc::Global;
use std::mem;
use token_chain::Mixer;

/// What fits the lines so far: the steps that wait, the tables, and the states that the device may be in.
#[derive(Drop)]
pub(crate) struct Fitting {
    alloc: Global,
    keeper: SureKeeper,
    waiting: Waiting,
    states: States,
    ghost in_range: { IsWaiting waiting } by { waiting_prop _ },
}

impl Fitting {
    ghost use Rattle.std.specs.Prelude.{◌≡◌, ◌≤◌, ℕ, IfOk, IsErr, IsOk, length, drop, List, [], ◌∷◌};
    ghost use Rattle.paygo_spec.specs.Machine.{IsEvent};
    ghost use Rattle.ledger_spec.specs.Ledger.{IsCommand};
    ghost use Rattle.run_spec.specs.Run.{Step, Say, Do, Act};
    ghost use Rattle.log_check.specs.Fits.{Fit, first_fit, settled, after_typed, after_told};
    ghost use Rattle.log_check.specs.Waiting.{some_wait};
    ghost use Rattle.log_check.specs.FitKept.{Stands, IsFit};

    /// Before the first line. It takes memory.
    pub(crate) fn first(alloc: Global) -> Result<Fitting, Memory>
        ensures { IfOk result (λ fitting. IsFit fitting first_fit) }
    {
        let states = States::first(alloc)?;
        Ok(Fitting {
            alloc,
            keeper: SureKeeper::new(alloc),
            waiting: nothing(alloc),
            states,
        })
    }

    /// How many states the device may be in.
    pub(crate) fn count(&self) -> usize
        ensures { (now : Fit) → IsFit self.now now → result ≡ length now.states }
    {
        self.states.count()
    }

    /// Whether a step waits for its answer.
    pub(crate) fn is_waiting(&self) -> bool
        ensures { (now : Fit) → IsFit self.now now → result ≡ some_wait now.waiting }
    {
        is_waiting(&self.waiting)
    }

    /// A line was typed. It takes memory.
    ///
    /// # Errors
    ///
    /// `Memory` where there is none: the same fits as before.
    pub(crate) fn typed(&mut self, line: &[u8]) -> Result<(), Memory>
        requires { length line.now ≤ 4096 }
        ensures fits { (next : List ℕ → ℕ → ℕ) (old : Fit) → IsOk result → IsFit self.old old →
            IsFit self.new (after_typed next line.now old.waiting old.tables old.states) }
        ensures memory { (old : Fit) → IsErr result → IsFit self.old old → IsFit self.new old }
    {
        if is_waiting(&self.waiting) {
            self.states.keep_if(false);
            return Ok(());
        }
        let waiting = waiting_of(self.alloc, line)?;
        self.waiting = settle(waiting, &mut self.states);
        Ok(())
    }

    /// An answer was told. It takes memory.
    ///
    /// # Errors
    ///
    /// As for `typed`.
    pub(crate) fn told<M: Mixer>(&mut self, bench: &mut Bench<M>, text: &[u8]) -> Result<(), Memory>
        ensures fits { (old : Fit) → IsOk result → IsFit self.old old →
            IsFit self.new (after_told M.next text.now old.waiting old.tables old.states) }
        ensures memory { (old : Fit) → IsErr result → IsFit self.old old → IsFit self.new old }
    {
        match first_of(&self.waiting) {
            First::Nothing => {
                self.states.keep_if(false);
                Ok(())
            }
            First::Unread => {
                self.said(b"unread", text);
                Ok(())
            }
            First::Fault(fault) => {
                self.said(fault_line(&fault).as_bytes(), text);
                Ok(())
            }
            First::Command(command) => self.did::<M>(bench, &command, text),
            First::Event(event) => self.acted::<M>(event, text),
        }
    }

    // The first step that waits says a text.
    fn said(&mut self, said: &[u8], text: &[u8])
        ensures { (next : List ℕ → ℕ → ℕ) (old : Fit) → Stands self.old old → old.waiting ≡ Say said.now ∷ [] →
            IsFit self.new (after_told next text.now old.waiting old.tables old.states) }
    {
        self.states.keep_if(said == text);
        self.take_first();
    }

    // The first step that waits is a command.
    fn did<M: Mixer>(
        &mut self,
        bench: &mut Bench<M>,
        command: &Command,
        text: &[u8],
    ) -> Result<(), Memory>
        requires { IsCommand command.now }
        ensures fits { (old : Fit) → IsOk result → IsFit self.old old → old.waiting ≡ Do command.now ∷ [] →
            IsFit self.new (after_told M.next text.now old.waiting old.tables old.states) }
        ensures memory { (old : Fit) → IsErr result → IsFit self.old old → IsFit self.new old }
    {
        let answer = serve::<M>(self.alloc, bench, &mut self.keeper, command)?;
        self.states.keep_if(answer_line(&answer).as_bytes() == text);
        self.take_first();
        Ok(())
    }

    // The first step that waits is an event.
    fn acted<M: Mixer>(&mut self, event: Event, text: &[u8]) -> Result<(), Memory>
        requires { IsEvent event }
        ensures fits { (old : Fit) (steps : List Step) → IsOk result → IsFit self.old old →
            old.waiting ≡ Act event ∷ steps →
            IsFit self.new (after_told M.next text.now old.waiting old.tables old.states) }
        ensures memory { (old : Fit) → IsErr result → IsFit self.old old → IsFit self.new old }
    {
        self.states.answer::<M>(self.alloc, event, text)?;
        self.take_first();
        Ok(())
    }

    // The first step that waits was answered.
    fn take_first(&mut self)
        ensures { (next : List ℕ → ℕ → ℕ) (old : Fit) → Stands self.old old →
            IsFit self.new (settled next (drop 1 old.waiting) old.tables old.states) }
    {
        let waiting = mem::replace(&mut self.waiting, nothing(self.alloc));
        let behind = behind_first(self.alloc, waiting);
        self.waiting = settle(behind, &mut self.states);
    }
}
