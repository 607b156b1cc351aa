// Rows and orders are told.
ghost use Rattle.std.specs.Prelude.{◌≡◌, IfOk};
ghost use Rattle.ledger_spec.specs.Tables.{row_of, order_of};
ghost use Rattle.ledger_spec.specs.Ledger.{stays, told_order, told_row, AnswerIsInRange};
ghost use Rattle.ledger_spec.specs.Applied.{Applies};

use crate::enrolling::fault_of;
use ledger_keeper::Keeper;
use ledger_spec::{Answer, LedgerFault, Name};
use std::alloc::Global;

// The order of an id.
pub(crate) fn tell_order<D: Keeper>(
    alloc: Global,
    keeper: &mut D,
    id: &Name,
) -> Result<Answer, LedgerFault>
    ensures applied { Applies (λ t. stays t (told_order t (order_of t id.now))) result
        (D.view keeper.old) (D.view keeper.new) }
    ensures in_range { IfOk result AnswerIsInRange }
{
    match keeper.order(alloc, id) {
        Ok(Some((order, form))) => Ok(Answer::Order(order, form)),
        Ok(None) => Ok(Answer::NoOrder),
        Err(fault) => Err(fault_of(fault)),
    }
}

// The row of a serial.
pub(crate) fn tell_row<D: Keeper>(
    alloc: Global,
    keeper: &mut D,
    serial: &Name,
) -> Result<Answer, LedgerFault>
    ensures applied { Applies (λ t. stays t (told_row (row_of t serial.now))) result
        (D.view keeper.old) (D.view keeper.new) }
    ensures in_range { IfOk result AnswerIsInRange }
{
    match keeper.device(alloc, serial) {
        Ok(Some(row)) => Ok(Answer::Row(row)),
        Ok(None) => Ok(Answer::NoDevice),
        Err(fault) => Err(fault_of(fault)),
    }
}
