// The shop's tables are audited: every kept token is checked again.
ghost use Rattle.std.specs.Prelude.{◌≡◌, ◌<◌, ◌+◌, ◌-◌, ◌^◌, ◌++◌, min, length, All, OnOk, IfOk, IfSome};
ghost use Rattle.ledger_spec.specs.Tables.{Tables, RowIsInRange, OrderIsInRange, Kept};
ghost use Rattle.ledger_spec.specs.Sorted.{orders_for, all_rows};
ghost use Rattle.loan_ledger.specs.Audit.{wrong_among, order_count, findings_of, audited, Audits};

use crate::enrolling::fault_of;
use crate::findings::Audit;
use ledger_keeper::Keeper;
use ledger_spec::{LedgerFault, Name, Order, Row};
use paygo_spec::{GREAT, LAST, Memory};
use std::alloc::Global;
use token_chain::Mixer;
use token_issue::DeviceTokens;

// How many counts are looked at to audit these orders: 4,096, or 16,384 where one of them has a count above 4,095.
fn counts_for(orders: &[Order]) -> u16
    requires { All OrderIsInRange orders.now }
    ensures whole { LAST < result }
    ensures each { All (λ order. order.count < result) orders.now }
{
    if orders.iter().all(|order| order.count <= LAST) {
        LAST + 1
    } else {
        GREAT + 1
    }
}

// The values of these orders, each once, if there is memory.
fn values_of(alloc: Global, orders: &[Order]) -> Result<Vec<u16>, Memory>
    requires { All OrderIsInRange orders.now }
    ensures { IfOk result (λ values. All (λ value. value < 1000) values.items) }
{
    let mut values = Vec::new(alloc);
    'orders: for order in orders {
        if !values.contains(&order.value) && values.push(order.value).is_err() {
            return Err(Memory);
        }
    }
    Ok(values)
}

// Reckons the tokens of these values, four values at a time, if there is memory. Up to three values are left over at the
// end: the tokens of each are reckoned once it is asked for.
fn prepare_all<M: Mixer>(
    alloc: Global,
    tokens: &mut DeviceTokens<M>,
    values: &[u16],
) -> Result<(), Memory>
    requires { All (λ value. value < 1000) values.now }
    ensures { tokens.new ≡ tokens.old }
{
    'fours: for four in 0..values.len() / 4 {
        let i = 4 * four;
        tokens.prepare(
            alloc,
            values[i],
            values[i + 1],
            values[i + 2],
            values[i + 3],
        )?;
    }
    Ok(())
}

// Audits orders of a row: adds the ids of the wrong ones, in the order in which they come.
fn audit_orders<M: Mixer>(
    alloc: Global,
    row: &Row,
    orders: &[Order],
    wrong: &mut Vec<Name>,
) -> Result<(), Memory>
    requires row { RowIsInRange row.now }
    requires orders { All OrderIsInRange orders.now }
    ensures { OnOk result (wrong.new.items ≡ wrong.old.items ++ wrong_among M.next row.now orders.now) }
{
    let mut tokens = DeviceTokens::<M>::new(alloc, &row.key, row.start, counts_for(orders))?;
    let values = values_of(alloc, orders)?;
    prepare_all(alloc, &mut tokens, &values)?;
    'orders: for order in orders {
        let right = tokens.is_right(alloc, order.count, order.value, order.token)?;
        if !right && wrong.push(order.id).is_err() {
            return Err(Memory);
        }
    }
    Ok(())
}

// Audits a row: its orders are counted, and the ids of the wrong ones are added.
fn audit_row<M: Mixer, D: Keeper>(
    alloc: Global,
    keeper: &mut D,
    row: &Row,
    audit: &mut Audit,
) -> Result<(), LedgerFault>
    requires row { RowIsInRange row.now }
    ensures audits { Audits result (D.view keeper.old) (D.view keeper.new) }
    ensures rows { audit.new.rows ≡ audit.old.rows }
    ensures orders { IfOk result (λ _. IfSome (D.view keeper.old).tables (λ t.
        audit.new.orders ≡ min (audit.old.orders + length (orders_for t row.now.serial)) (2 ^ 64 - 1))) }
    ensures wrong { IfOk result (λ _. IfSome (D.view keeper.old).tables (λ t.
        audit.new.wrong.items ≡ audit.old.wrong.items ++ wrong_among M.next row.now (orders_for t row.now.serial))) }
{
    let orders = match keeper.orders_of(alloc, &row.serial) {
        Ok(orders) => orders,
        Err(fault) => return Err(fault_of(fault)),
    };
    audit.orders = audit.orders.saturating_add(orders.len() as u64);
    match audit_orders::<M>(alloc, row, &orders, &mut audit.wrong) {
        Ok(()) => Ok(()),
        Err(Memory) => Err(LedgerFault::Memory),
    }
}

/// Audits the tables of a keeper: each kept token is reckoned again. An order is right where its token is that of its
/// count and value on the chain of its row, and no other count, from 0 to the greater of 4,095 and this one, has that
/// token. What is found is `audited`, whichever keeper holds the tables, and no table changes.
///
/// The keeper is called for its rows, and then for the orders of each row, by serial. Each value that a row's orders
/// have takes one walk of 4,096 counts up its chain, which serves all orders of that value, or of 16,384 where an order
/// of the row has a count above 4,095. The chains of four values are walked side by side. The tokens of one row's values
/// are in memory at a time.
///
/// # Errors
///
/// `Keeper` where the keeper failed, and the fault is counted, once. `Memory` where there is none for the rows, for the
/// orders of a row, for the tokens of their values or for the ids of the wrong ones. The tables are as before in both
/// cases. Where an audit is answered, and where there is no memory, the keeper's count of faults stays: no fault of it
/// is passed over.
pub fn audit<M: Mixer, D: Keeper>(alloc: Global, keeper: &mut D) -> Result<Audit, LedgerFault>
    ensures audits { Audits result (D.view keeper.old) (D.view keeper.new) }
    ensures found { IfOk result (λ audit. IfSome (D.view keeper.old).tables (λ t.
        findings_of audit ≡ audited M.next t)) }
{
    let rows = match keeper.rows(alloc) {
        Ok(rows) => rows,
        Err(fault) => return Err(fault_of(fault)),
    };
    let mut audit = Audit {
        rows: rows.len() as u64,
        orders: 0,
        wrong: Vec::new(alloc),
    };
    for i in 0..rows.len() {
        audit_row::<M, D>(alloc, keeper, &rows[i], &mut audit)?;
    }
    Ok(audit)
}

/// In tables that are in order an audit counts every order, and none twice: each order is one of a device with a row,
/// and no two rows have one serial.
#[tactic(auto, using(crate::proofs::Counting::counts_all))]
pub fn every_order_is_audited()
    ensures { (tables : Tables) → Kept tables → order_count tables (all_rows tables) ≡ length tables.orders }
{}
