// What is true of every run of shop and device, whatever choices were taken in it. Each function here has no body that
// does anything: its contract is a law on the definitions of runs, and the check proves it.
#![tactic(auto)]

mod unseen;

ghost use Rattle.std.specs.Prelude.{◌≡◌, ℕ, ◌+◌, ◌-◌, ◌^◌, ◌<◌, ◌≤◌, max, List, [], ◌++◌, length, slice_get, Contains, Option, Some};
ghost use Rattle.paygo_spec.specs.declared.Config.{Config};
ghost use Rattle.paygo_spec.specs.declared.Form.{Form};
ghost use Rattle.paygo_spec.specs.declared.Found.TheVariants.{Valid as FoundValid};
ghost use Rattle.paygo_spec.specs.declared.TheConstants.{LAST};
ghost use Rattle.paygo_spec.specs.Chain.{token_at};
ghost use Rattle.paygo_spec.specs.Faults.{raised};
ghost use Rattle.paygo_spec.specs.Found.{found};
ghost use Rattle.paygo_spec.specs.History.{Valid};
ghost use Rattle.paygo_spec.specs.Machine.{Stored, History};
ghost use Rattle.paygo_spec.specs.Searched.{SearchedOn};
ghost use Rattle.ledger_spec.specs.declared.Answer.TheVariants.{Order as OrderOf};
ghost use Rattle.ledger_spec.specs.declared.Command.{Command};
ghost use Rattle.ledger_spec.specs.declared.Order.{Order};
ghost use Rattle.ledger_spec.specs.declared.Row.{Row};
ghost use Rattle.ledger_spec.specs.Sound.{Sound, StaysBelow};
ghost use Rattle.ledger_spec.specs.Tables.{Tables, order_of, row_of, no_tables, Kept};
ghost use Rattle.run_spec.specs.Run.{Step, Do, Answer, Did, World, Run};
ghost use Rattle.run_spec.specs.Downs.{downs};
ghost use Rattle.run_spec.specs.Headline.{HasOrder, IsMatched, OrdersStand, TokensOnce, Point, IsUp, IsUsable, IsTakenLast, UsablesTaken, typing};

pub use unseen::{counts_are_accepted_once_between_power_ups, orders_stand_over_any_flash};

/// Each `down` of a run is one fault of the flash, which counted it, and nothing else is: behind a run the count is higher by
/// as much as there are answers `down`, or stands still at 2^64 - 1. So it never falls, and where it stays as it was, below
/// 2^64 - 1, no answer is `down`.
pub fn each_down_is_one_fault()
    ensures { (next : List ℕ → ℕ → ℕ) (start now : World) (steps : List Step) (answers : List (Option Answer)) →
        Run next start steps answers now → now.device.faults ≡ raised start.device.faults (downs answers) }
{}

/// Look-ups miss nothing: in tables in order each order is what its id finds, and each row is what its serial finds.
pub fn look_ups_miss_nothing()
    ensures orders { (tables : Tables) (order : Order) → Kept tables → Contains tables.orders order →
        order_of tables order.id ≡ Some order }
    ensures rows { (tables : Tables) (row : Row) → Kept tables → Contains tables.rows row →
        row_of tables row.serial ≡ Some row }
{}

/// In tables in order each id has one order. In sound tables the orders of a device have different counts and different
/// tokens.
pub fn orders_differ()
    ensures ids { (tables : Tables) (a b : Order) → Kept tables → Contains tables.orders a → Contains tables.orders b →
        a.id ≡ b.id → a ≡ b }
    ensures counts { (next : List ℕ → ℕ → ℕ) (tables : Tables) (row : Row) (a b : Order) → Sound next tables →
        HasOrder tables row a → HasOrder tables row b → a.count ≡ b.count → a ≡ b }
    ensures tokens { (next : List ℕ → ℕ → ℕ) (tables : Tables) (row : Row) (a b : Order) → Sound next tables →
        HasOrder tables row a → HasOrder tables row b → a.token ≡ b.token → a ≡ b }
{}

/// Empty tables are sound: so a shop that begins with this program has sound tables from then on.
pub fn empty_tables_are_sound()
    ensures { (next : List ℕ → ℕ → ℕ) → Sound next no_tables }
{}

/// Sound tables stay sound in every run.
pub fn tables_stay_sound()
    ensures { (next : List ℕ → ℕ → ℕ) → StaysBelow next →
        (start now : World) (steps : List Step) (answers : List (Option Answer)) →
        Sound next start.tables → Run next start steps answers now → Sound next now.tables }
{}

/// Each order that was answered to a command stands in the tables from then on, and each later answer to the same command is
/// that order.
pub fn orders_stand()
    ensures { (next : List ℕ → ℕ → ℕ) → StaysBelow next →
        (start now : World) (steps : List Step) (answers : List (Option Answer)) →
        Kept start.tables → Run next start steps answers now → OrdersStand steps answers now.tables }
{}

/// That holds when the program was started anew in the meantime, too: a run that begins with the tables that another one left
/// answers a command of that one as it was answered there.
pub fn orders_stand_anew()
    ensures { (next : List ℕ → ℕ → ℕ) → StaysBelow next → (start now again later : World)
        (steps others : List Step) (answers more : List (Option Answer)) → Kept start.tables →
        Run next start steps answers now → again.tables ≡ now.tables → Run next again others more later →
        (i j : ℕ) (command : Command) (order : Order) (form : Form) → slice_get steps i ≡ Some (Do command) →
        slice_get answers i ≡ Some (Some (Did (OrderOf order form))) → slice_get others j ≡ Some (Do command) →
        slice_get more j ≡ Some (Some (Did (OrderOf order form))) }
{}

/// Where each accepted token of a device was found by its search, that stays so in every run, whatever fails in it.
pub fn found_histories_stay_found()
    ensures { (next : List ℕ → ℕ → ℕ) (start now : World) (steps : List Step) (answers : List (Option Answer)) →
        SearchedOn next start.device.stored → Run next start steps answers now → SearchedOn next now.device.stored }
{}

/// On a device that matches a row of sound tables, and of which each accepted token was found by its search, the token of each
/// of the row's orders took effect at most once, and never where its count was spent when the device's history began. That
/// holds on either side of the raise.
pub fn tokens_take_effect_once()
    ensures { (next : List ℕ → ℕ → ℕ) (tables : Tables) (stored : Stored) → Sound next tables → SearchedOn next stored →
        TokensOnce next tables stored }
{}

/// On the chain of a device that matches a row of sound tables, the token of each of the row's orders is that of no other
/// value, and of no other count up to its own one, nor up to 4,095. So where the device takes the order's count and value, its
/// search finds these.
pub fn orders_are_found()
    ensures only { (next : List ℕ → ℕ → ℕ) (tables : Tables) (row : Row) (order : Order) (config : Config)
        (count value : ℕ) →
        Sound next tables → HasOrder tables row order → IsMatched row config → count ≤ max LAST order.count →
        value < 1000 →
        token_at (next config.key) config.start value count ≡ order.token →
        (count ≡ order.count) × (value ≡ order.value) }
    ensures found { (next : List ℕ → ℕ → ℕ) (tables : Tables) (row : Row) (order : Order) (history : History) →
        Sound next tables → HasOrder tables row order → IsMatched row history.config →
        Valid history.start history.entries order.count order.value →
        found (next history.config.key) history.config.start history.start history.entries order.token ≡
        FoundValid order.count order.value }
{}

/// A token that may be used is accepted where it is typed, with its count and value, and the time left is what the value makes of
/// the time before: the device has no other choice than that its flash fails, or is worn.
pub fn usable_tokens_are_taken()
    ensures { (next : List ℕ → ℕ → ℕ) (start now : World) (answers : List (Option Answer)) (history : History)
        (order : Order) →
        Sound next start.tables → IsUp start.device history → IsUsable start.tables history order →
        Run next start (typing history.config.form order.token) answers now →
        IsTakenLast history order.count order.value answers }
{}

/// And so it is at each point of a run from sound tables.
pub fn usable_tokens_are_taken_in_runs()
    ensures { (next : List ℕ → ℕ → ℕ) → StaysBelow next →
        (start now : World) (steps : List Step) (answers : List (Option Answer)) →
        Sound next start.tables → UsablesTaken next start steps answers now }
{}

/// A run has a point before each of its steps, and one behind the last.
pub fn runs_have_points()
    ensures { (next : List ℕ → ℕ → ℕ) (start now : World) (steps : List Step) (answers : List (Option Answer)) (i : ℕ) →
        Run next start steps answers now → i ≤ length steps →
        (point : Point next start steps answers now) × (length point.done ≡ i) }
{}
