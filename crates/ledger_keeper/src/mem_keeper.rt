// A keeper in memory, whose fault is planned.
ghost use Rattle.std.specs.Prelude.{◌≡◌, ◌≢◌, ◌+◌, ◌-◌, ◌^◌, ◌<◌, ◌≤◌, length, min, true, false, Some, None, ◌∷◌, [], Ok, Err, IfOk, IfSome, IfNone, IsSome, IsTrue, All, IsSomeAnd, if◌then◌else◌, find};
ghost use Rattle.paygo_spec.specs.Faults.{raised, Rose};
ghost use Rattle.ledger_spec.specs.declared.KeeperFault.TheVariants.{Failed};
ghost use Rattle.ledger_spec.specs.Tables.{Tables, row_of, order_of, change_of, prices_for, change_before, row_in, order_in, rows_with, has_serial, no_tables, with_row, with_order, with_change, with_raised, raised_row, rows_raised, with_lifted, lifted_row, rows_lifted, RowIsInRange, OrderIsInRange, ChangeIsInRange, Kept};
ghost use Rattle.paygo_spec.specs.declared.TheConstants.{LAST};
ghost use Rattle.ledger_spec.specs.KeptOnce.{kept_prop};
ghost use Rattle.ledger_spec.specs.Sorted.{orders_for, all_rows, rises, order_before, row_before};
ghost use Rattle.ledger_spec.specs.Replay.{orders_back};
ghost use Rattle.ledger_spec.specs.Keeper.{KeeperView, Counts, Reads, Commits, IsOrderOf};
ghost use Rattle.ledger_keeper.specs.Planned.{planned_at, ReadsAsPlanned, WritesAsPlanned};

use crate::Keeper;
use crate::sorting::{orders_among, sorted_changes, sorted_orders, sorted_rows};
use ledger_spec::{KeeperFault, Name, Order, PriceChange, Row};
use paygo_spec::{Form, GREAT};
use std::alloc::Global;

/// A fault that is planned: the number of the call that fails, counted from 1, and whether a write that fails leaves its
/// whole change.
#[derive(Clone, Copy, Debug)]
pub struct Plan {
    /// The number of the call, counted from 1 over all calls.
    pub call: u64,
    /// Whether a write that fails leaves its whole change.
    pub whole: bool,
}

/// A keeper in memory, for tests and for runs whose tables last no longer than the run. It tells its tables, and fails
/// only where a fault is planned. A call that fails counts one fault, and a call that answers, or finds no memory,
/// counts none.
#[derive(Drop)]
pub struct MemKeeper {
    rows: Vec<Row>,
    orders: Vec<Order>,
    changes: Vec<PriceChange>,
    calls: u64,
    plan: Option<Plan>,
    faults: u64,
    ghost kept: { Kept (record { rows = rows.items; orders = orders.items; changes = changes.items }) } by { kept_prop _ },
}

impl MemKeeper {
    ghost use Rattle.ledger_keeper.specs.Plans.{keeper_plan};

    /// A keeper with nothing in its tables. No fault is planned, and none was counted. It takes no memory yet.
    pub fn new(alloc: Global) -> MemKeeper
        ensures seen { ⟦<MemKeeper as Keeper>⟧.view result ≡
            record { tables = Some no_tables; faults = 0 } }
        ensures plan { keeper_plan result ≡ record { calls = 0; fails = None } }
    {
        MemKeeper {
            rows: Vec::new(alloc),
            orders: Vec::new(alloc),
            changes: Vec::new(alloc),
            calls: 0,
            plan: None,
            faults: 0,
        }
    }

    /// How many orders it keeps. It isn't counted as a call.
    pub fn orders(&self) -> usize
        ensures { IfSome (⟦<MemKeeper as Keeper>⟧.view self.now).tables (λ tables. result ≡ length tables.orders) }
    {
        self.orders.len()
    }

    /// Plans the call of this number, counted from 1 over all calls, to fail, in the place of the one planned before; a
    /// number that was passed never comes. A write that fails leaves its whole change where `whole` is true, and else
    /// nothing of it. Where there is no memory for the whole change, want of memory is answered, nothing changes, and
    /// no fault is counted.
    pub fn fail_at(&mut self, call: u64, whole: bool)
        ensures seen { ⟦<MemKeeper as Keeper>⟧.view self.new ≡ ⟦<MemKeeper as Keeper>⟧.view self.old }
        ensures plan { keeper_plan self.new ≡ record (keeper_plan self.old)
            { fails = Some (record { call = call; whole = whole }) } }
    {
        self.plan = Some(Plan { call, whole });
    }
}

// Counts a call, and says what is planned for it.
fn begin(calls: &mut u64, plan: &Option<Plan>) -> Option<bool>
    ensures counted { calls.new ≡ raised calls.old 1 }
    ensures planned { result ≡ planned_at plan.now calls.new }
{
    *calls = calls.saturating_add(1);
    let Some(plan) = plan else {
        return None;
    };
    if plan.call != *calls {
        return None;
    }
    Some(plan.whole)
}

// The answer of a call that fails, which is counted.
fn failed(faults: &mut u64) -> KeeperFault
    ensures answer { result ≡ KeeperFault.Failed }
    ensures counted { Rose faults.old faults.new }
{
    *faults = faults.saturating_add(1);
    KeeperFault::Failed
}

// The answer of a write whose whole change is made: it failed where that is planned.
fn written(planned: Option<bool>, faults: &mut u64) -> Result<(), KeeperFault>
    ensures passes { IfNone planned (result ≡ Ok tt) }
    ensures fails { IfSome planned (λ _. result ≡ Err KeeperFault.Failed) }
    ensures counts { Counts result faults.old faults.new }
{
    if planned.is_some() {
        return Err(failed(faults));
    }
    Ok(())
}

// The row of a serial.
fn row_among(rows: &[Row], serial: &Name) -> Option<Row>
    ensures { result ≡ row_in rows.now serial.now }
{
    for row in rows {
        if row.serial.same(serial) {
            return Some(*row);
        }
    }
    None
}

// The order with an id.
fn order_among(orders: &[Order], id: &Name) -> Option<Order>
    ensures { result ≡ order_in orders.now id.now }
{
    for order in orders {
        if order.id.same(id) {
            return Some(*order);
        }
    }
    None
}

// Puts the row in this place, if its serial is that of the row there.
fn put_here(old: &mut Row, row: &Row)
    ensures { old.new ≡ (if has_serial row.now.serial old.old then row.now else old.old) }
{
    if old.serial.same(&row.serial) {
        *old = *row;
    }
}

// Puts the row in the place of that of its serial.
#[tactic(auto, using(std::proofs::lemmas::List::Edits::map_over_more))]
fn put(rows: &mut Vec<Row>, row: &Row)
    ensures { rows.new.items ≡ rows_with row.now rows.old.items }
{
    for i in 0..rows.len() {
        put_here(&mut rows[i], row);
    }
}

// The row with the raised limit.
fn with_limit(row: &Row) -> Row
    ensures { result ≡ raised_row row.now }
{
    Row {
        limit: GREAT,
        ..*row
    }
}

// Raises the limit of the row of a serial, where there is one.
fn raise_among(rows: &mut Vec<Row>, serial: &Name)
    ensures { rows.new.items ≡ rows_raised (row_in rows.old.items serial.now) rows.old.items }
{
    if let Some(row) = row_among(rows, serial) {
        put(rows, &with_limit(&row));
    }
}

// The row with its last count lifted.
fn with_last(row: &Row, to: u16) -> Row
    ensures { result ≡ lifted_row to row.now }
{
    Row { last: to, ..*row }
}

// Lifts the last count of the row of a serial, where there is one.
fn lift_among(rows: &mut Vec<Row>, serial: &Name, to: u16)
    ensures { rows.new.items ≡ rows_lifted to (row_in rows.old.items serial.now) rows.old.items }
{
    if let Some(row) = row_among(rows, serial) {
        put(rows, &with_last(&row, to));
    }
}

impl Keeper for MemKeeper {
    ghost use Rattle.ledger_keeper.specs.Plans.{keeper_plan};

    ghost view = { λ k. record { tables = Some (record { rows = k.rows.items; orders = k.orders.items; changes = k.changes.items }); faults = k.faults } };

    ghost kept = { λ k. k.kept };

    fn device(&mut self, _alloc: Global, serial: &Name) -> Result<Option<Row>, KeeperFault>
        ensures reads { Reads result (⟦<MemKeeper as Keeper>⟧.view self.old) (⟦<MemKeeper as Keeper>⟧.view self.new) }
        ensures found { IfOk result (λ found. IfSome (⟦<MemKeeper as Keeper>⟧.view self.old).tables
            (λ tables. found ≡ row_of tables serial.now)) }
        ensures asked { IfOk result (λ found. IfSome found (λ row. row.serial ≡ serial.now)) }
        ensures in_range { IfOk result (λ found. IfSome found RowIsInRange) }
        ensures plan { keeper_plan self.new ≡ record (keeper_plan self.old)
            { calls = raised (keeper_plan self.old).calls 1 } }
        ensures planned { ReadsAsPlanned (planned_at (keeper_plan self.new).fails (keeper_plan self.new).calls) result }
    {
        if begin(&mut self.calls, &self.plan).is_some() {
            return Err(failed(&mut self.faults));
        }
        Ok(row_among(&self.rows, serial))
    }

    fn order(&mut self, _alloc: Global, id: &Name) -> Result<Option<(Order, Form)>, KeeperFault>
        ensures reads { Reads result (⟦<MemKeeper as Keeper>⟧.view self.old) (⟦<MemKeeper as Keeper>⟧.view self.new) }
        ensures found { IfOk result (λ found. IfSome (⟦<MemKeeper as Keeper>⟧.view self.old).tables
            (λ tables. IsOrderOf tables id.now found)) }
        ensures asked { IfOk result (λ found. IfSome found (λ f. f.0.id ≡ id.now)) }
        ensures in_range { IfOk result (λ found. IfSome found (λ f. OrderIsInRange f.0)) }
        ensures plan { keeper_plan self.new ≡ record (keeper_plan self.old)
            { calls = raised (keeper_plan self.old).calls 1 } }
        ensures planned { ReadsAsPlanned (planned_at (keeper_plan self.new).fails (keeper_plan self.new).calls) result }
    {
        if begin(&mut self.calls, &self.plan).is_some() {
            return Err(failed(&mut self.faults));
        }
        let Some(order) = order_among(&self.orders, id) else {
            return Ok(None);
        };
        let Some(row) = row_among(&self.rows, &order.serial) else {
            return Ok(None);
        };
        Ok(Some((order, row.form)))
    }

    fn orders_of(&mut self, alloc: Global, serial: &Name) -> Result<Vec<Order>, KeeperFault>
        ensures reads { Reads result (⟦<MemKeeper as Keeper>⟧.view self.old) (⟦<MemKeeper as Keeper>⟧.view self.new) }
        ensures found { IfOk result (λ list. IfSome (⟦<MemKeeper as Keeper>⟧.view self.old).tables
            (λ tables. list.items ≡ orders_for tables serial.now)) }
        ensures asked { IfOk result (λ list. All (λ order. order.serial ≡ serial.now) list.items) }
        ensures ordered { IfOk result (λ list. IsTrue (rises order_before list.items)) }
        ensures in_range { IfOk result (λ list. All OrderIsInRange list.items) }
        ensures plan { keeper_plan self.new ≡ record (keeper_plan self.old)
            { calls = raised (keeper_plan self.old).calls 1 } }
        ensures planned { ReadsAsPlanned (planned_at (keeper_plan self.new).fails (keeper_plan self.new).calls) result }
    {
        if begin(&mut self.calls, &self.plan).is_some() {
            return Err(failed(&mut self.faults));
        }
        match sorted_orders(alloc, &self.orders, serial) {
            Some(list) => Ok(list),
            None => Err(KeeperFault::Memory),
        }
    }

    fn rows(&mut self, alloc: Global) -> Result<Vec<Row>, KeeperFault>
        ensures reads { Reads result (⟦<MemKeeper as Keeper>⟧.view self.old) (⟦<MemKeeper as Keeper>⟧.view self.new) }
        ensures found { IfOk result (λ list. IfSome (⟦<MemKeeper as Keeper>⟧.view self.old).tables
            (λ tables. list.items ≡ all_rows tables)) }
        ensures ordered { IfOk result (λ list. IsTrue (rises row_before list.items)) }
        ensures in_range { IfOk result (λ list. All RowIsInRange list.items) }
        ensures plan { keeper_plan self.new ≡ record (keeper_plan self.old)
            { calls = raised (keeper_plan self.old).calls 1 } }
        ensures planned { ReadsAsPlanned (planned_at (keeper_plan self.new).fails (keeper_plan self.new).calls) result }
    {
        if begin(&mut self.calls, &self.plan).is_some() {
            return Err(failed(&mut self.faults));
        }
        match sorted_rows(alloc, &self.rows) {
            Some(list) => Ok(list),
            None => Err(KeeperFault::Memory),
        }
    }

    fn add_device(&mut self, _alloc: Global, row: &Row) -> Result<(), KeeperFault>
        requires in_range { RowIsInRange row.now }
        requires new { IfSome (⟦<MemKeeper as Keeper>⟧.view self.old).tables
            (λ tables. row_of tables row.now.serial ≡ None) }
        ensures commits { Commits (with_row row.now) result (⟦<MemKeeper as Keeper>⟧.view self.old)
            (⟦<MemKeeper as Keeper>⟧.view self.new) }
        ensures plan { keeper_plan self.new ≡ record (keeper_plan self.old)
            { calls = raised (keeper_plan self.old).calls 1 } }
        ensures planned { WritesAsPlanned (with_row row.now)
            (planned_at (keeper_plan self.new).fails (keeper_plan self.new).calls) result
            (⟦<MemKeeper as Keeper>⟧.view self.old) (⟦<MemKeeper as Keeper>⟧.view self.new) }
    {
        let planned = begin(&mut self.calls, &self.plan);
        if planned == Some(false) {
            return Err(failed(&mut self.faults));
        }
        let added = self.rows.insert(0, *row).is_ok();
        if !added {
            return Err(KeeperFault::Memory);
        }
        written(planned, &mut self.faults)
    }

    fn add_order(&mut self, _alloc: Global, order: &Order, row: &Row) -> Result<(), KeeperFault>
        requires order { OrderIsInRange order.now }
        requires row { RowIsInRange row.now }
        requires same { row.now.serial ≡ order.now.serial }
        requires new { IfSome (⟦<MemKeeper as Keeper>⟧.view self.old).tables
            (λ tables. order_of tables order.now.id ≡ None) }
        requires kept { IfSome (⟦<MemKeeper as Keeper>⟧.view self.old).tables
            (λ tables. IsSome (row_of tables row.now.serial)) }
        ensures commits { Commits (with_order order.now row.now) result (⟦<MemKeeper as Keeper>⟧.view self.old)
            (⟦<MemKeeper as Keeper>⟧.view self.new) }
        ensures plan { keeper_plan self.new ≡ record (keeper_plan self.old)
            { calls = raised (keeper_plan self.old).calls 1 } }
        ensures planned { WritesAsPlanned (with_order order.now row.now)
            (planned_at (keeper_plan self.new).fails (keeper_plan self.new).calls) result
            (⟦<MemKeeper as Keeper>⟧.view self.old) (⟦<MemKeeper as Keeper>⟧.view self.new) }
    {
        let planned = begin(&mut self.calls, &self.plan);
        if planned == Some(false) {
            return Err(failed(&mut self.faults));
        }
        let added = self.orders.insert(0, *order).is_ok();
        if !added {
            return Err(KeeperFault::Memory);
        }
        put(&mut self.rows, row);
        written(planned, &mut self.faults)
    }

    fn prices_of(&mut self, alloc: Global, serial: &Name) -> Result<Vec<PriceChange>, KeeperFault>
        ensures reads { Reads result (⟦<MemKeeper as Keeper>⟧.view self.old) (⟦<MemKeeper as Keeper>⟧.view self.new) }
        ensures found { IfOk result (λ list. IfSome (⟦<MemKeeper as Keeper>⟧.view self.old).tables
            (λ tables. list.items ≡ prices_for tables serial.now)) }
        ensures asked { IfOk result (λ list. All (λ change. change.serial ≡ serial.now) list.items) }
        ensures ordered { IfOk result (λ list. IsTrue (rises change_before list.items)) }
        ensures in_range { IfOk result (λ list. All ChangeIsInRange list.items) }
        ensures plan { keeper_plan self.new ≡ record (keeper_plan self.old)
            { calls = raised (keeper_plan self.old).calls 1 } }
        ensures planned { ReadsAsPlanned (planned_at (keeper_plan self.new).fails (keeper_plan self.new).calls) result }
    {
        if begin(&mut self.calls, &self.plan).is_some() {
            return Err(failed(&mut self.faults));
        }
        match sorted_changes(alloc, &self.changes, serial) {
            Some(list) => Ok(list),
            None => Err(KeeperFault::Memory),
        }
    }

    fn raise(&mut self, _alloc: Global, serial: &Name) -> Result<(), KeeperFault>
        requires { IfSome (⟦<MemKeeper as Keeper>⟧.view self.old).tables
            (λ tables. IsSomeAnd (row_of tables serial.now) (λ row. row.limit ≡ LAST)) }
        ensures commits { Commits (with_raised serial.now) result (⟦<MemKeeper as Keeper>⟧.view self.old)
            (⟦<MemKeeper as Keeper>⟧.view self.new) }
        ensures plan { keeper_plan self.new ≡ record (keeper_plan self.old)
            { calls = raised (keeper_plan self.old).calls 1 } }
        ensures planned { WritesAsPlanned (with_raised serial.now)
            (planned_at (keeper_plan self.new).fails (keeper_plan self.new).calls) result
            (⟦<MemKeeper as Keeper>⟧.view self.old) (⟦<MemKeeper as Keeper>⟧.view self.new) }
    {
        let planned = begin(&mut self.calls, &self.plan);
        if planned == Some(false) {
            return Err(failed(&mut self.faults));
        }
        raise_among(&mut self.rows, serial);
        written(planned, &mut self.faults)
    }

    fn skip(&mut self, _alloc: Global, serial: &Name, to: u16) -> Result<(), KeeperFault>
        requires { IfSome (⟦<MemKeeper as Keeper>⟧.view self.old).tables
            (λ tables. IsSomeAnd (row_of tables serial.now) (λ row. (row.last < to) × (to ≤ row.limit))) }
        ensures commits { Commits (with_lifted to serial.now) result (⟦<MemKeeper as Keeper>⟧.view self.old)
            (⟦<MemKeeper as Keeper>⟧.view self.new) }
        ensures plan { keeper_plan self.new ≡ record (keeper_plan self.old)
            { calls = raised (keeper_plan self.old).calls 1 } }
        ensures planned { WritesAsPlanned (with_lifted to serial.now)
            (planned_at (keeper_plan self.new).fails (keeper_plan self.new).calls) result
            (⟦<MemKeeper as Keeper>⟧.view self.old) (⟦<MemKeeper as Keeper>⟧.view self.new) }
    {
        let planned = begin(&mut self.calls, &self.plan);
        if planned == Some(false) {
            return Err(failed(&mut self.faults));
        }
        lift_among(&mut self.rows, serial, to);
        written(planned, &mut self.faults)
    }

    fn orders_back(&mut self, alloc: Global, serial: &Name) -> Result<Vec<Order>, KeeperFault>
        ensures reads { Reads result (⟦<MemKeeper as Keeper>⟧.view self.old) (⟦<MemKeeper as Keeper>⟧.view self.new) }
        ensures found { IfOk result (λ list. IfSome (⟦<MemKeeper as Keeper>⟧.view self.old).tables
            (λ tables. list.items ≡ orders_back tables serial.now)) }
        ensures asked { IfOk result (λ list. All (λ order. order.serial ≡ serial.now) list.items) }
        ensures in_range { IfOk result (λ list. All OrderIsInRange list.items) }
        ensures plan { keeper_plan self.new ≡ record (keeper_plan self.old)
            { calls = raised (keeper_plan self.old).calls 1 } }
        ensures planned { ReadsAsPlanned (planned_at (keeper_plan self.new).fails (keeper_plan self.new).calls) result }
    {
        if begin(&mut self.calls, &self.plan).is_some() {
            return Err(failed(&mut self.faults));
        }
        match orders_among(alloc, &self.orders, serial) {
            Some(list) => Ok(list),
            None => Err(KeeperFault::Memory),
        }
    }

    fn add_price(&mut self, _alloc: Global, change: &PriceChange) -> Result<(), KeeperFault>
        requires in_range { ChangeIsInRange change.now }
        requires kept { IfSome (⟦<MemKeeper as Keeper>⟧.view self.old).tables
            (λ tables. IsSome (row_of tables change.now.serial)) }
        requires new { IfSome (⟦<MemKeeper as Keeper>⟧.view self.old).tables
            (λ tables. change_of tables change.now.serial change.now.from ≡ None) }
        ensures commits { Commits (with_change change.now) result (⟦<MemKeeper as Keeper>⟧.view self.old)
            (⟦<MemKeeper as Keeper>⟧.view self.new) }
        ensures plan { keeper_plan self.new ≡ record (keeper_plan self.old)
            { calls = raised (keeper_plan self.old).calls 1 } }
        ensures planned { WritesAsPlanned (with_change change.now)
            (planned_at (keeper_plan self.new).fails (keeper_plan self.new).calls) result
            (⟦<MemKeeper as Keeper>⟧.view self.old) (⟦<MemKeeper as Keeper>⟧.view self.new) }
    {
        let planned = begin(&mut self.calls, &self.plan);
        if planned == Some(false) {
            return Err(failed(&mut self.faults));
        }
        let added = self.changes.insert(0, *change).is_ok();
        if !added {
            return Err(KeeperFault::Memory);
        }
        written(planned, &mut self.faults)
    }
}
