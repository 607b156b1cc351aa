// The runs of the program over one shop's tables and one device's flash are a deal. The functions here have no bodies
// that do anything: their contracts are laws, and the check proves them.
#![tactic(auto)]

ghost use Rattle.std.specs.Prelude.{◌≡◌, ℕ, List, Option, Some};
ghost use Rattle.paygo_spec.specs.declared.Config.{Config};
ghost use Rattle.paygo_spec.specs.Machine.{Blank, Stands};
ghost use Rattle.ledger_spec.specs.Sound.{StaysBelow};
ghost use Rattle.ledger_spec.specs.Tables.{Tables, no_tables};
ghost use Rattle.run_spec.specs.declared.Mode.{Mode};
ghost use Rattle.run_spec.specs.declared.Status.{Status};
ghost use Rattle.line_loop.specs.Outside.{Outside};
ghost use Rattle.bench_loop.specs.Runs.{RunsTold};
ghost use Rattle.deal_laws.specs.Parted.{IsMix};
ghost use Rattle.deal_runs.specs.Programs.{Program, Lasting, these, AreRuns, AreOfMode, HoldSame, AreDeal, ArePartedDeal, RunsOn};

/// A run of the program goes on with whatever life led to what it found: its lines and answers, behind a start, are the
/// turns that lead to what it left, and all turns so far are a deal over each device that holds the same as its row.
pub fn a_run_goes_on()
    ensures { (next : List ℕ → ℕ → ℕ) (mode : Mode) (result : Status) (old new : Outside) →
        RunsTold next mode result old new → RunsOn next mode result old new }
{}

/// Runs of the program, the first of which found empty tables and an erased flash, and each later one what those before
/// it left, are a deal over each device that has a row, and was made with what the row holds. The runs are of any
/// modes, in any order: those of the shop alone (`serve`) and of the device alone (`device`) each go on over what is
/// theirs, and may be mixed in any way.
pub fn runs_are_deals()
    ensures { (next : List ℕ → ℕ → ℕ) → StaysBelow next → (serial : List ℕ) (config : Config) (first last : Lasting)
        (programs : List Program) →
        first.tables ≡ Some no_tables → Stands first.words Blank → AreRuns next first programs last →
        HoldSame serial config last → AreDeal serial config programs }
{}

/// Runs of the shop alone over its tables, and runs of the device alone over its flash, mixed in any way, are runs over
/// both: so where shop and device are parted, their runs are a deal in whatever order they were.
pub fn parted_runs_mix()
    ensures { (next : List ℕ → ℕ → ℕ) (tables tables' unseen : Option Tables) (words words' unread : Option (List ℕ))
        (shop device mixed : List Program) →
        AreOfMode Mode.Serve shop → AreRuns next (these tables unread) shop (these tables' unread) →
        AreOfMode Mode.Device device → AreRuns next (these unseen words) device (these unseen words') →
        IsMix shop device mixed → AreRuns next (these tables words) mixed (these tables' words') }
{}

/// Runs of the shop alone, over its tables from empty ones on, and runs of the device alone, over its flash from an
/// erased one on, are a deal, however the turns of the one are mixed with those of the other: also where both run at
/// the same time.
pub fn parted_runs_are_deals()
    ensures { (next : List ℕ → ℕ → ℕ) → StaysBelow next → (serial : List ℕ) (config : Config)
        (tables unseen : Option Tables) (erased words unread : Option (List ℕ)) (shop device : List Program) →
        AreOfMode Mode.Serve shop → AreRuns next (these (Some no_tables) unread) shop (these tables unread) →
        Stands erased Blank →
        AreOfMode Mode.Device device → AreRuns next (these unseen erased) device (these unseen words) →
        HoldSame serial config (these tables words) → ArePartedDeal serial config shop device }
{}
