// What is true of every log. Each function here has no body that does anything: its contract is a law.
ghost use Rattle.std.specs.Prelude.{◌≡◌, ◌≤◌, ◌↔◌, ℕ, List, [], length, Option};
ghost use Rattle.std.specs.List.{Contains};
ghost use Rattle.paygo_spec.specs.declared.Event.{Event};
ghost use Rattle.paygo_spec.specs.declared.Reply.{Reply};
ghost use Rattle.paygo_spec.specs.Machine.{State, Acts};
ghost use Rattle.log_check.specs.After.{choice, after, summed_state};
ghost use Rattle.log_check.specs.Checking.{first_checked, with_lines, verdict_of};
ghost use Rattle.log_check.specs.Fits.{Marked, first_fit, fits};
ghost use Rattle.log_check.specs.Logs.{MayAllCome, IsExact, BeginsLog, IsLog, IsRun};
ghost use Rattle.log_check.specs.declared.Verdict.TheVariants.{Yes};
ghost use Rattle.log_check.specs.Verdicts.{Means, NeverWide, counted, verdict_on};

/// The choices of an event: a pair of a reply, or none, and a state stands in the list exactly where the device may
/// answer so and go on to what is this state with its history forgotten. There are at most five.
pub fn choices_are_allowed()
    ensures five { (next : List ℕ → ℕ → ℕ) (state : State) (event : Event) → length (after next state event) ≤ 5 }
    ensures allowed { (next : List ℕ → ℕ → ℕ) (event : Event) (old state : State) (reply : Option Reply) →
        (Contains (after next (summed_state old) event) (choice reply state) ↔
        ((new : State) × Acts next event reply old new × (state ≡ summed_state new))) }
{}

/// What fits a log: as long as every line may come, a world fits exactly where a run over the steps taken, whose
/// answers have the texts told, leads to it.
pub fn fits_are_exact()
    ensures { (next : List ℕ → ℕ → ℕ) (lines : List Marked) → MayAllCome next first_fit lines → IsExact next lines }
{}

/// Some state fits lines exactly where they are the first ones of the log of a run; and they are a whole log exactly
/// where some state fits and no step waits.
pub fn logs_fit()
    ensures begins { (next : List ℕ → ℕ → ℕ) (lines : List Marked) →
        (((state : State) × Contains (fits next lines).states state) ↔ BeginsLog next lines) }
    ensures whole { (next : List ℕ → ℕ → ℕ) (lines : List Marked) →
        ((((state : State) × Contains (fits next lines).states state) × ((fits next lines).waiting ≡ [])) ↔
        IsLog next lines) }
{}

/// The verdict on a log means what it says, and it is `Yes` exactly where the log is a whole one and never fitted more
/// than 64 states. `Yes`: it is the whole log of a run, and no more than 64 states fitted at any line. `No`: the lines
/// before the one that it names begin the log of some run, and with it they don't, or answers are missing at the end.
/// `Wide`: more than 64 states fit behind that line. `Unread`: that line has no mark, and those before it begin a log.
pub fn verdicts_mean()
    ensures yes { (next : List ℕ → ℕ → ℕ) (lines : List Marked) → IsLog next lines → NeverWide next lines →
        verdict_on next lines ≡ Yes (counted (length lines)) }
    ensures means { (next : List ℕ → ℕ → ℕ) (lines : List Marked) → Means next lines (verdict_on next lines) }
{}

/// A log of a run is one run over all the steps that its lines ask for, and what that writes is what the log tells. So
/// a yes implies that the log is a run.
pub fn logs_are_runs()
    ensures { (next : List ℕ → ℕ → ℕ) (lines : List Marked) → IsLog next lines → IsRun next lines }
{}

/// A check that is handed lines one after another says of them what the verdict on their list is.
pub fn checks_give_verdicts()
    ensures { (next : List ℕ → ℕ → ℕ) (lines : List Marked) →
        verdict_of (with_lines next first_checked lines) ≡ verdict_on next lines }
{}
