// A device is enrolled.
ghost use Rattle.std.specs.Prelude.{◌≡◌, None, IfOk, IfSome, if◌then◌else◌};
ghost use Rattle.ledger_spec.specs.Tables.{row_of, RowIsInRange};
ghost use Rattle.ledger_spec.specs.Ledger.{agrees, enrolled, EnrolIsInRange, AnswerIsInRange};
ghost use Rattle.ledger_spec.specs.Applied.{Applies, fault_for};

use crate::deciding::{is_agreed, row_for};
use ledger_keeper::Keeper;
use ledger_spec::{Answer, Enrol, KeeperFault, LedgerFault, Row};
use std::alloc::Global;

// The fault of the ledger for one of its keeper.
pub(crate) fn fault_of(fault: KeeperFault) -> LedgerFault
    ensures { result ≡ fault_for fault }
{
    match fault {
        KeeperFault::Failed => LedgerFault::Keeper,
        KeeperFault::Memory => LedgerFault::Memory,
    }
}

// The answer for a serial that has a row.
fn known(enrol: &Enrol, row: Row) -> Answer
    requires { RowIsInRange row }
    ensures in_range { AnswerIsInRange result }
    ensures answer { result ≡ (if agrees enrol.now row then Answer.Row row else Answer.SerialUsed row) }
{
    if is_agreed(enrol, &row) {
        Answer::Row(row)
    } else {
        Answer::SerialUsed(row)
    }
}

// The row of a new device is added.
fn add<D: Keeper>(alloc: Global, keeper: &mut D, enrol: &Enrol) -> Result<Answer, LedgerFault>
    requires in_range { EnrolIsInRange enrol.now }
    requires new { IfSome (D.view keeper.old).tables (λ t. row_of t enrol.now.serial ≡ None) }
    ensures applied { Applies (λ t. enrolled t enrol.now None) result
        (D.view keeper.old) (D.view keeper.new) }
    ensures in_range { IfOk result AnswerIsInRange }
{
    let row = row_for(enrol);
    match keeper.add_device(alloc, &row) {
        Ok(()) => Ok(Answer::Row(row)),
        Err(fault) => Err(fault_of(fault)),
    }
}

// A device is enrolled.
pub(crate) fn enroll<D: Keeper>(
    alloc: Global,
    keeper: &mut D,
    enrol: &Enrol,
) -> Result<Answer, LedgerFault>
    requires { EnrolIsInRange enrol.now }
    ensures applied { Applies (λ t. enrolled t enrol.now (row_of t enrol.now.serial)) result
        (D.view keeper.old) (D.view keeper.new) }
    ensures in_range { IfOk result AnswerIsInRange }
{
    match keeper.device(alloc, &enrol.serial) {
        Ok(Some(row)) => Ok(known(enrol, row)),
        Ok(None) => add(alloc, keeper, enrol),
        Err(fault) => Err(fault_of(fault)),
    }
}
