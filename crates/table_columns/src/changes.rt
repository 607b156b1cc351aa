// Changes of a price.
ghost use Rattle.std.specs.Prelude.{◌≡◌, ◌≤◌, ◌↔◌, Some, None, Err, IsTrue, IfSome, IsSomeAnd, IfOk, All, map};
ghost use Rattle.ledger_spec.specs.declared.KeeperFault.TheVariants.{Failed};
ghost use Rattle.ledger_spec.specs.Tables.{ChangeIsInRange};
ghost use Rattle.table_columns.specs.Said.{change_said};

use crate::columns::{name, number, number16};
use ledger_spec::{KeeperFault, PriceChange};
use paygo_spec::GREAT;
use sqlite::Row as Columns;
use std::alloc::Global;

/// The change of a price that the first three columns say: serial, the count from which it holds, and price. None where one
/// of them holds something else, or the change is out of range.
pub fn change_at(columns: &Columns) -> Option<PriceChange>
    ensures said { IfSome result (λ change. change_said columns.now ≡ Some change) }
    ensures in_range { IfSome result ChangeIsInRange }
    ensures refused { result ≡ None → IfSome (change_said columns.now) (λ change. ¬ ChangeIsInRange change) }
{
    let change = untested_change(columns)?;
    if is_in_range(&change) {
        Some(change)
    } else {
        None
    }
}

// The change that the columns say, in range or not.
#[tactic(auto, unfolding(crate::specs::Said::change_said))]
fn untested_change(columns: &Columns) -> Option<PriceChange>
    ensures { result ≡ change_said columns.now }
{
    Some(PriceChange {
        serial: name(columns, 0, 32)?,
        from: number16(columns, 1)?,
        price: number(columns, 2)?,
    })
}

// Whether the change is in range.
fn is_in_range(change: &PriceChange) -> bool
    ensures { IsTrue result ↔ ChangeIsInRange change.now }
{
    change.from <= GREAT && 1 <= change.price && change.price <= 1_000_000_000
}

/// The changes that these columns say, in their order.
///
/// # Errors
///
/// `Failed` where one of them says no change, or one out of range; `Memory` where there is none.
#[tactic(auto, using(crate::proofs::Lists::said_more, crate::proofs::Lists::not_all))]
pub fn changes_of(alloc: Global, all: &[Columns]) -> Result<Vec<PriceChange>, KeeperFault>
    ensures said { IfOk result (λ list. map Some list.items ≡ map change_said all.now) }
    ensures in_range { IfOk result (λ list. All ChangeIsInRange list.items) }
    ensures failed { result ≡ Err KeeperFault.Failed →
        ¬ (All (λ columns. IsSomeAnd (change_said columns) ChangeIsInRange) all.now) }
{
    let mut changes = Vec::new(alloc);
    for columns in all {
        let Some(change) = change_at(columns) else {
            return Err(KeeperFault::Failed);
        };
        if changes.push(change).is_err() {
            return Err(KeeperFault::Memory);
        }
    }
    Ok(changes)
}
