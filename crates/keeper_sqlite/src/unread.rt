// Why columns say nothing that can be handed on.
use crate::cause::{Cause, Fault};
use ledger_spec::{KeeperFault, Name};
use sqlite::Row as Columns;
use sqlite::types::ValueRef;
use table_columns::{change_at, order_at, row_at};

// Why these columns say no rows: the first that is out of range, or want of memory.
pub(crate) fn why_no_rows(found: &[Columns], error: KeeperFault) -> Fault {
    match error {
        KeeperFault::Memory => Fault::Memory,
        KeeperFault::Failed => Fault::Caused(Cause::Row(unread_row(found))),
    }
}

// Why these columns say no orders, in the same way.
pub(crate) fn why_no_orders(found: &[Columns], error: KeeperFault) -> Fault {
    match error {
        KeeperFault::Memory => Fault::Memory,
        KeeperFault::Failed => Fault::Caused(Cause::Order(unread_order(found))),
    }
}

// Why these columns say no changes of a price, in the same way.
pub(crate) fn why_no_changes(found: &[Columns], error: KeeperFault) -> Fault {
    match error {
        KeeperFault::Memory => Fault::Memory,
        KeeperFault::Failed => Fault::Caused(Cause::Price(unread_change(found))),
    }
}

// Why an order was found without a form: its device has no row, or one that is out of range.
pub(crate) fn without_form(columns: &Columns, id: &Name, serial: &Name) -> Cause {
    match columns.get_ref(8) {
        Ok(ValueRef::Null) => Cause::NoRow(*id),
        _ => Cause::Row(Some(*serial)),
    }
}

// The serial of the first of these that says no row in range, where it is a name.
fn unread_row(found: &[Columns]) -> Option<Name> {
    for columns in found {
        if row_at(columns, 0).is_none() {
            return first_name(columns);
        }
    }
    None
}

// The id of the first of these that says no order in range, where it is a name.
fn unread_order(found: &[Columns]) -> Option<Name> {
    for columns in found {
        if order_at(columns).is_none() {
            return first_name(columns);
        }
    }
    None
}

// The serial of the first of these that says no change in range, where it is a name.
fn unread_change(found: &[Columns]) -> Option<Name> {
    for columns in found {
        if change_at(columns).is_none() {
            return first_name(columns);
        }
    }
    None
}

// The name in the first column, where it holds one.
fn first_name(columns: &Columns) -> Option<Name> {
    match columns.get_ref(0) {
        Ok(ValueRef::Text(bytes)) => Name::of(bytes, 32),
        _ => None,
    }
}
