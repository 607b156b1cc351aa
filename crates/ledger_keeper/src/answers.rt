// Tests of what a keeper is going to hand out.
ghost use Rattle.std.specs.Prelude.{◌≡◌, ◌↔◌, IsTrue, All};
ghost use Rattle.std.specs.List.{list_all};
ghost use Rattle.ledger_spec.specs.Sorted.{rises, order_before, row_before, is_for};
ghost use Rattle.ledger_spec.specs.Tables.{change_before, is_change_of};

use crate::sorting::{is_change_before, is_order_before, is_row_before};
use ledger_spec::{Name, Order, PriceChange, Row};

/// Whether all of these are orders of the serial, and each stands before the next one, by count, and by id where counts are
/// equal.
pub fn are_orders_of(orders: &[Order], serial: &Name) -> bool
    ensures { IsTrue result ↔ (All (λ order. order.serial ≡ serial.now) orders.now
        × IsTrue (rises order_before orders.now)) }
{
    are_all_of(orders, serial) && do_orders_rise(orders)
}

/// Whether all of these are changes of the price of the serial, and each holds from a count below that of the next one.
pub fn are_changes_of(changes: &[PriceChange], serial: &Name) -> bool
    ensures { IsTrue result ↔ (All (λ change. change.serial ≡ serial.now) changes.now
        × IsTrue (rises change_before changes.now)) }
{
    are_changes_for(changes, serial) && do_changes_rise(changes)
}

/// Whether the serial of each row stands before that of the next one.
#[tactic(auto, using(crate::proofs::Rising::rises_later, crate::proofs::Rising::rises_stops, crate::proofs::Rising::rises_end))]
pub fn do_rows_rise(rows: &[Row]) -> bool
    ensures { result ≡ rises row_before rows.now }
{
    for i in 1..rows.len() {
        if !is_row_before(&rows[i - 1], &rows[i]) {
            return false;
        }
    }
    true
}

#[tactic(auto, using(crate::proofs::Rising::rises_later, crate::proofs::Rising::rises_stops, crate::proofs::Rising::rises_end))]
fn do_orders_rise(orders: &[Order]) -> bool
    ensures { result ≡ rises order_before orders.now }
{
    for i in 1..orders.len() {
        if !is_order_before(&orders[i - 1], &orders[i]) {
            return false;
        }
    }
    true
}

#[tactic(auto, using(crate::proofs::Rising::rises_later, crate::proofs::Rising::rises_stops, crate::proofs::Rising::rises_end))]
fn do_changes_rise(changes: &[PriceChange]) -> bool
    ensures { result ≡ rises change_before changes.now }
{
    for i in 1..changes.len() {
        if !is_change_before(&changes[i - 1], &changes[i]) {
            return false;
        }
    }
    true
}

/// Whether all of these are orders of the serial, in whatever order.
pub fn are_all_of(orders: &[Order], serial: &Name) -> bool
    ensures { result ≡ list_all (is_for serial.now) orders.now }
{
    orders.iter().all(|order| order.serial.same(serial))
}

fn are_changes_for(changes: &[PriceChange], serial: &Name) -> bool
    ensures { result ≡ list_all (is_change_of serial.now) changes.now }
{
    changes.iter().all(|change| change.serial.same(serial))
}
