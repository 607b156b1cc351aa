// What is wrong with a row.
ghost use Rattle.std.specs.Prelude.{◌≡◌, ◌<◌, ◌≤◌, ◌+◌, ◌∷◌, ◌++◌, length, drop, OnOk, IfOk, All};
ghost use Rattle.ledger_spec.specs.Replay.{account_after, price_by};
ghost use Rattle.ledger_spec.specs.Tables.{RowIsInRange, OrderIsInRange, ChangeIsInRange};
ghost use Rattle.table_flaws.specs.Bounds.{bound_at};
ghost use Rattle.table_flaws.specs.Flaws.{unless, due_flaws, orders_flaws, changes_flaws, flaws_by};
ghost use Rattle.table_flaws.specs.Sums.{account_in, due_in};

use crate::booking::{Due, Sums, agrees, book, is_booked_as, parity, price_after};
use crate::checking::{tokens_for, told_of};
use crate::flaw::Flaw;
use ledger_spec::{Order, PriceChange, Row};
use paygo_spec::Memory;
use std::alloc::Global;
use token_chain::Mixer;
use token_issue::DeviceTokens;

// Adds a flaw, unless the test passed.
fn push_unless(flaws: &mut Vec<Flaw>, passed: bool, flaw: Flaw) -> Result<(), Memory>
    ensures { OnOk result (flaws.new.items ≡ flaws.old.items ++ unless passed flaw) }
{
    if !passed && flaws.push(flaw).is_err() {
        return Err(Memory);
    }
    Ok(())
}

// Adds what is wrong with an order of a row, whose count is to be below the bound.
fn push_order<M: Mixer>(
    alloc: Global,
    tokens: &mut DeviceTokens<M>,
    row: &Row,
    bound: u16,
    order: &Order,
    due: &Due,
    flaws: &mut Vec<Flaw>,
) -> Result<(), Memory>
    requires row { RowIsInRange row.now }
    requires order { OrderIsInRange order.now }
    requires key { tokens.old.key ≡ row.now.key }
    requires start { tokens.old.start ≡ row.now.start }
    requires within { order.now.count < tokens.old.counts }
    ensures same { tokens.new ≡ tokens.old }
    ensures flaws { OnOk result (flaws.new.items ≡ flaws.old.items
        ++ due_flaws (M.next row.now.key) row.now bound order.now (due_in due.now)) }
{
    let told = told_of(alloc, tokens, row, order)?;
    push_unless(flaws, order.count < bound, Flaw::Count(order.id))?;
    let fits = order.count % 2 == parity(order.kind);
    push_unless(flaws, fits, Flaw::Parity(order.id))?;
    push_unless(flaws, told.own, Flaw::Token(order.id))?;
    push_unless(flaws, told.clean, Flaw::Shared(order.id))?;
    push_unless(flaws, is_booked_as(due, order), Flaw::Booked(order.id))
}

// The count below which that of the order in this place is to be: that of the order before it, which is the next
// newer one, and the row's last count is the greatest.
fn bound_for(row: &Row, orders: &[Order], place: usize) -> u16
    requires row { RowIsInRange row.now }
    requires place { place < length orders.now }
    ensures { result ≡ bound_at (row.now.last + 1) orders.now place }
{
    if place == 0 {
        row.last + 1
    } else {
        orders[place - 1].count
    }
}

// Adds what is wrong with the orders of a row, from the oldest one on, and says what they come to.
fn push_orders<M: Mixer>(
    alloc: Global,
    tokens: &mut DeviceTokens<M>,
    row: &Row,
    orders: &[Order],
    changes: &[PriceChange],
    flaws: &mut Vec<Flaw>,
) -> Result<Sums, Memory>
    requires row { RowIsInRange row.now }
    requires orders { All OrderIsInRange orders.now }
    requires changes { All ChangeIsInRange changes.now }
    requires key { tokens.old.key ≡ row.now.key }
    requires start { tokens.old.start ≡ row.now.start }
    requires within { All (λ order. order.count < tokens.old.counts) orders.now }
    ensures sums { IfOk result (λ sums. account_in sums
        ≡ account_after (price_by changes.now row.now) row.now.total orders.now) }
    ensures flaws { OnOk result (flaws.new.items ≡ flaws.old.items ++ orders_flaws (M.next row.now.key)
        (price_by changes.now row.now) row.now (row.now.last + 1) orders.now) }
{
    let mut sums = Sums {
        paid: 0,
        rest: 0,
        closed: false,
    };
    'orders: for place in (0..orders.len()).rev() {
        let order = orders[place];
        let price = price_after(row.price, order.count, changes);
        let due = book(price, row.total, order.ask, &sums);
        let bound = bound_for(row, orders, place);
        push_order(alloc, tokens, row, bound, &order, &due, flaws)?;
        sums = due.sums;
    }
    Ok(sums)
}

// Adds what is wrong with the changes of a row's price.
fn push_changes(row: &Row, changes: &[PriceChange], flaws: &mut Vec<Flaw>) -> Result<(), Memory>
    ensures { OnOk result (flaws.new.items ≡ flaws.old.items ++ changes_flaws row.now changes.now) }
{
    'changes: for change in changes {
        push_unless(flaws, change.from <= row.last, Flaw::Price(row.serial))?;
    }
    Ok(())
}

// Adds what is wrong with a row that has these orders, the newest first, and these changes of its price.
pub(crate) fn push_flaws<M: Mixer>(
    alloc: Global,
    row: &Row,
    orders: &[Order],
    changes: &[PriceChange],
    flaws: &mut Vec<Flaw>,
) -> Result<(), Memory>
    requires row { RowIsInRange row.now }
    requires orders { All OrderIsInRange orders.now }
    requires changes { All ChangeIsInRange changes.now }
    ensures { OnOk result (flaws.new.items ≡ flaws.old.items
        ++ flaws_by (M.next row.now.key) row.now orders.now changes.now) }
{
    let mut tokens = tokens_for::<M>(alloc, row, orders)?;
    let sums = push_orders(alloc, &mut tokens, row, orders, changes, flaws)?;
    push_changes(row, changes, flaws)?;
    push_unless(flaws, agrees(&sums, row), Flaw::Account(row.serial))
}

/// What is wrong with a row that has these orders, the newest first in the order in which they were added, and these
/// changes of its price, by rising count. The row, the orders and the changes are in range. Nothing is wrong exactly
/// where the row is what they come to and each token is right: see `sound_tables_have_no_flaw`.
///
/// The flaws stand from the oldest order on, those of one order in the order of `Flaw`; then those of the changes,
/// and then that of the row's sums. The counts of all orders are checked, up to the greater of 4,095 and the order's
/// own, whatever the row's last count is.
///
/// Each value that the orders have takes one walk of 4,096 counts up the row's chain, which serves all orders of that
/// value, or of 16,384 where an order has a count above 4,095. The chains of four values are walked side by side. An
/// order whose token is wrong or shared takes one walk more, up to its count.
///
/// # Errors
///
/// `Memory` where there is none for the tokens of the values or for the flaws.
pub fn flaws_of<M: Mixer>(
    alloc: Global,
    row: &Row,
    orders: &[Order],
    changes: &[PriceChange],
) -> Result<Vec<Flaw>, Memory>
    requires row { RowIsInRange row.now }
    requires orders { All OrderIsInRange orders.now }
    requires changes { All ChangeIsInRange changes.now }
    ensures { IfOk result (λ flaws. flaws.items ≡ flaws_by (M.next row.now.key) row.now orders.now changes.now) }
{
    let mut flaws = Vec::new(alloc);
    push_flaws::<M>(alloc, row, orders, changes, &mut flaws)?;
    Ok(flaws)
}
