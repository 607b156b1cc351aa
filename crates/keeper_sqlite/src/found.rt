// What a query found, handed on only where it is what was asked for.
ghost use Rattle.std.specs.Prelude.{◌≡◌, ◌↔◌, ◌∷◌, [], None, Some, Ok, IsTrue, IfOk, IfSome, All, map};
ghost use Rattle.ledger_spec.specs.Sorted.{rises, order_before, row_before};
ghost use Rattle.ledger_spec.specs.Tables.{RowIsInRange, OrderIsInRange, ChangeIsInRange, change_before};
ghost use Rattle.table_columns.specs.Said.{row_said, order_said, change_said};
ghost use Rattle.table_columns.specs.Forms.{form_said};

use crate::cause::{Cause, Fault};
use crate::unread::{why_no_changes, why_no_orders, why_no_rows, without_form};
use ledger_keeper::{are_all_of, are_changes_of, are_orders_of, do_rows_rise};
use ledger_spec::{Name, Order, PriceChange, Row};
use paygo_spec::Form;
use sqlite::Row as Columns;
use std::alloc::Global;
use table_columns::{changes_of, form_at, order_at, orders_of, row_at, rows_of};

// The row of the serial, if there are columns. They must be the only ones, and say a row of that serial in range.
#[tactic(auto, using(crate::proofs::One::one_said, ledger_spec::proofs::NameLemmas::same_is))]
pub(crate) fn row_found(found: &[Columns], serial: &Name) -> Result<Option<Row>, Fault>
    ensures none { (result ≡ Ok None) ↔ (found.now ≡ []) }
    ensures said { IfOk result (λ answer. IfSome answer (λ row. map (row_said 0) found.now ≡ Some row ∷ [])) }
    ensures asked { IfOk result (λ answer. IfSome answer (λ row. row.serial ≡ serial.now)) }
    ensures in_range { IfOk result (λ answer. IfSome answer RowIsInRange) }
{
    if found.is_empty() {
        return Ok(None);
    }
    if found.len() != 1 {
        return Err(Fault::Caused(Cause::Astray));
    }
    match row_at(&found[0], 0) {
        Some(row) if row.serial.same(serial) => Ok(Some(row)),
        Some(_) => Err(Fault::Caused(Cause::Astray)),
        None => Err(Fault::Caused(Cause::Row(Some(*serial)))),
    }
}

// The order with the id, if there are columns, and the form of its row. They must be the only ones, and say an order with
// that id and the row of its serial, both in range.
#[tactic(auto, using(crate::proofs::One::one_said, ledger_spec::proofs::NameLemmas::same_is))]
pub(crate) fn order_found(found: &[Columns], id: &Name) -> Result<Option<(Order, Form)>, Fault>
    ensures none { (result ≡ Ok None) ↔ (found.now ≡ []) }
    ensures said { IfOk result (λ answer. IfSome answer (λ f. map order_said found.now ≡ Some f.0 ∷ [])) }
    ensures form { IfOk result (λ answer. IfSome answer (λ f. map (form_said 8 f.0.serial) found.now ≡ Some f.1 ∷ [])) }
    ensures asked { IfOk result (λ answer. IfSome answer (λ f. f.0.id ≡ id.now)) }
    ensures in_range { IfOk result (λ answer. IfSome answer (λ f. OrderIsInRange f.0)) }
{
    if found.is_empty() {
        return Ok(None);
    }
    if found.len() != 1 {
        return Err(Fault::Caused(Cause::Astray));
    }
    let Some(order) = order_at(&found[0]) else {
        return Err(Fault::Caused(Cause::Order(Some(*id))));
    };
    match form_at(&found[0], 8, &order.serial) {
        Some(form) if order.id.same(id) => Ok(Some((order, form))),
        Some(_) => Err(Fault::Caused(Cause::Astray)),
        None => Err(Fault::Caused(without_form(&found[0], id, &order.serial))),
    }
}

// The orders that these columns say, where they are those of the serial, in their order.
pub(crate) fn orders_found(
    alloc: Global,
    found: &[Columns],
    serial: &Name,
) -> Result<Vec<Order>, Fault>
    ensures said { IfOk result (λ list. map Some list.items ≡ map order_said found.now) }
    ensures asked { IfOk result (λ list. All (λ order. order.serial ≡ serial.now) list.items) }
    ensures ordered { IfOk result (λ list. IsTrue (rises order_before list.items)) }
    ensures in_range { IfOk result (λ list. All OrderIsInRange list.items) }
{
    let orders = match orders_of(alloc, found) {
        Ok(orders) => orders,
        Err(error) => return Err(why_no_orders(found, error)),
    };
    if !are_orders_of(&orders, serial) {
        return Err(Fault::Caused(Cause::Astray));
    }
    Ok(orders)
}

// The orders that these columns say, where they are those of the serial.
#[tactic(auto, using(ledger_keeper::proofs::Rising::orders_asked))]
pub(crate) fn orders_back_found(
    alloc: Global,
    found: &[Columns],
    serial: &Name,
) -> Result<Vec<Order>, Fault>
    ensures said { IfOk result (λ list. map Some list.items ≡ map order_said found.now) }
    ensures asked { IfOk result (λ list. All (λ order. order.serial ≡ serial.now) list.items) }
    ensures in_range { IfOk result (λ list. All OrderIsInRange list.items) }
{
    let orders = match orders_of(alloc, found) {
        Ok(orders) => orders,
        Err(error) => return Err(why_no_orders(found, error)),
    };
    if !are_all_of(&orders, serial) {
        return Err(Fault::Caused(Cause::Astray));
    }
    Ok(orders)
}

// The rows that these columns say, where their serials rise.
pub(crate) fn rows_found(alloc: Global, found: &[Columns]) -> Result<Vec<Row>, Fault>
    ensures said { IfOk result (λ list. map Some list.items ≡ map (row_said 0) found.now) }
    ensures ordered { IfOk result (λ list. IsTrue (rises row_before list.items)) }
    ensures in_range { IfOk result (λ list. All RowIsInRange list.items) }
{
    let rows = match rows_of(alloc, found) {
        Ok(rows) => rows,
        Err(error) => return Err(why_no_rows(found, error)),
    };
    if !do_rows_rise(&rows) {
        return Err(Fault::Caused(Cause::Astray));
    }
    Ok(rows)
}

// The changes of a price that these columns say, where they are those of the serial, in their order.
pub(crate) fn prices_found(
    alloc: Global,
    found: &[Columns],
    serial: &Name,
) -> Result<Vec<PriceChange>, Fault>
    ensures said { IfOk result (λ list. map Some list.items ≡ map change_said found.now) }
    ensures asked { IfOk result (λ list. All (λ change. change.serial ≡ serial.now) list.items) }
    ensures ordered { IfOk result (λ list. IsTrue (rises change_before list.items)) }
    ensures in_range { IfOk result (λ list. All ChangeIsInRange list.items) }
{
    let changes = match changes_of(alloc, found) {
        Ok(changes) => changes,
        Err(error) => return Err(why_no_changes(found, error)),
    };
    if !are_changes_of(&changes, serial) {
        return Err(Fault::Caused(Cause::Astray));
    }
    Ok(changes)
}
