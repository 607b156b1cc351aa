// The way back for a device that fell behind: which of a shop's tokens its customer types, so that it is up to date
// again.
#![tactic(auto)]

ghost use Rattle.std.specs.Prelude.{◌≡◌, ◌≢◌, ◌≤◌, ℕ, List, [], Some, Result, Err};
ghost use Rattle.paygo_spec.specs.History.{IsLimit};
ghost use Rattle.ledger_spec.specs.declared.Order.{Order};
ghost use Rattle.ledger_spec.specs.declared.Row.{Row};
ghost use Rattle.ledger_spec.specs.Sorted.{orders_for};
ghost use Rattle.ledger_spec.specs.Sound.{Sound};
ghost use Rattle.ledger_spec.specs.Tables.{Tables, row_of};
ghost use Rattle.sync_advice.specs.declared.advice.Advice.{Advice};
ghost use Rattle.sync_advice.specs.declared.advice.AdviceFault.{AdviceFault};
ghost use Rattle.sync_advice.specs.declared.advice.AdviceFault.TheVariants as fault;
ghost use Rattle.sync_advice.specs.Advice.{last_count};
ghost use Rattle.sync_advice.specs.Answers.{AnswersAs, SayTheSame};
ghost use Rattle.sync_advice.specs.Typing.{behind, AreSold, IsFitting};

mod advice;

pub use advice::{Advice, AdviceFault, advise};

/// The device that is furthest behind fits: its history is one that a device can have.
pub fn the_device_furthest_behind_fits()
    ensures { (next : ℕ → ℕ) (start unit limit floor last : ℕ) → IsLimit limit → floor ≤ last → last ≤ limit →
        IsFitting next start unit limit floor last (behind limit floor) [] }
{}

/// The orders and the limit of one row of sound tables are as `advise` asks, and no order is above the limit: so all
/// that it promises holds of each row that a shop keeps, and the device that is furthest behind fits.
pub fn orders_of_a_row_are_sold()
    ensures sold { (next : List ℕ → ℕ → ℕ) (tables : Tables) (serial : List ℕ) (row : Row) → Sound next tables →
        row_of tables serial ≡ Some row → AreSold (next row.key) row.start row.limit (orders_for tables serial) }
    ensures limit { (next : List ℕ → ℕ → ℕ) (tables : Tables) (serial : List ℕ) (row : Row) → Sound next tables →
        row_of tables serial ≡ Some row → IsLimit row.limit }
    ensures within { (next : List ℕ → ℕ → ℕ) (tables : Tables) (serial : List ℕ) (row : Row) → Sound next tables →
        row_of tables serial ≡ Some row → last_count (orders_for tables serial) ≤ row.limit }
{}

/// There is one advice: two answers for the same orders, limit and floor say the same, unless there was no memory for
/// one of them. So what is advised is told by these three alone, and by nothing that `advise` chose.
pub fn there_is_one_advice()
    ensures { (orders : List Order) (limit floor : ℕ) (one other : Result Advice AdviceFault) →
        AnswersAs orders limit floor one → AnswersAs orders limit floor other →
        one ≢ Err fault.Memory → other ≢ Err fault.Memory → SayTheSame one other }
{}

#[cfg(test)]
mod tests;
