// The tables over any store: each call of a keeper as statements.
ghost use Rattle.std.specs.Prelude.{◌≡◌, ◌↔◌, None, IsTrue, IsSome, IfOk, IfSome, OnOk, OnErr, All, Ok, Err};
ghost use Rattle.sqlite.specs.Held.{state};
ghost use Rattle.sqlite.specs.State.{HasCleanDisk};
ghost use Rattle.ledger_spec.specs.Sorted.{rises, order_before, row_before, orders_for, all_rows};
ghost use Rattle.ledger_spec.specs.Keeper.{IsOrderOf};
ghost use Rattle.ledger_spec.specs.Replay.{orders_back};
ghost use Rattle.ledger_spec.specs.Tables.{Tables, Kept, row_of, with_row, with_order, with_raised, with_lifted, with_change, prices_for, RowIsInRange, OrderIsInRange, ChangeIsInRange, change_before};
ghost use Rattle.shop_tables.specs.Telling.{Tells, StillTells, Stays, Wrote, WritesWhole, WritesNothing};
ghost use Rattle.keeper_sqlite.specs.Causes.{fault_of};

use crate::cause::{Cause, Fault, to_fault};
use crate::found::{
    order_found, orders_back_found, orders_found, prices_found, row_found, rows_found,
};
use ledger_spec::{Name, Order, PriceChange, Row};
use paygo_spec::{Form, LAST};
use shop_schema::SchemaError;
use shop_tables::{find_device, find_order, find_orders, find_orders_back, find_prices, find_rows};
use sqlite::{Alter, Connection, Error};
use std::alloc::Global;

/// The shop's tables over an open connection to any store: each call of a keeper as one statement or one transaction, and
/// nothing is counted. What another program, or another form of the tables, may have put there is tested: what is found is
/// what was asked for, in its order and in range.
///
/// Where the connection tells tables, which are the shop's own and in order, what is found is what the ledger's definitions
/// say of them (`told`); a write that answers has made its whole change (`done`), one that fails none (`refused`), and a
/// crash at any time leaves the tables as they were or with the whole change (`whole`).
pub struct TablesOver<S: Alter> {
    conn: Connection<S>,
}

// It is written out, so that a caller doesn't prove again how each part is dropped.
impl<S: Alter + Drop> Drop for TablesOver<S> {
    fn drop(self) {
        let TablesOver { conn: _ } = self;
    }
}

impl<S: Alter> TablesOver<S> {
    /// The tables over this connection, which `make` makes.
    pub fn new(conn: Connection<S>) -> TablesOver<S> {
        TablesOver { conn }
    }

    /// The connection, with nothing in doubt.
    pub fn into_connection(self) -> Connection<S> {
        let TablesOver { conn } = self;
        conn
    }

    /// Makes the tables that are absent, and judges those that are there.
    ///
    /// # Errors
    ///
    /// `Misfit` where a table has another form than the shop's; `Failed` where the database refuses a statement; `Memory`
    /// where there is none.
    pub fn make(&mut self, alloc: Global) -> Result<(), SchemaError> {
        shop_schema::make(alloc, &mut self.conn)
    }

    /// The row of the serial, if there is one.
    ///
    /// # Errors
    ///
    /// `Caused` where the database refuses the statement, and where it finds another row, two of them, or one out of range;
    /// `Memory` where there is none.
    pub fn device(&mut self, serial: &Name) -> Result<Option<Row>, Fault>
        ensures told { HasCleanDisk (state S.Store self.new.conn) → IfOk result (λ found. (tables : Tables) →
            Tells (state S.Store self.old.conn) tables → Kept tables → found ≡ row_of tables serial.now) }
        ensures answered { HasCleanDisk (state S.Store self.new.conn) → OnOk result (
            StillTells (state S.Store self.old.conn) (state S.Store self.new.conn)) }
        ensures refused { HasCleanDisk (state S.Store self.new.conn) → OnErr result (
            Stays (state S.Store self.old.conn) (state S.Store self.new.conn)) }
        ensures nothing { WritesNothing (state S.Store self.old.conn) (state S.Store self.new.conn) }
        ensures asked { IfOk result (λ found. IfSome found (λ row. row.serial ≡ serial.now)) }
        ensures in_range { IfOk result (λ found. IfSome found RowIsInRange) }
    {
        let found = columns(find_device(&mut self.conn, serial))?;
        row_found(found.as_slice(), serial)
    }

    /// The order with the id, if there is one, and the form of its row.
    ///
    /// # Errors
    ///
    /// As for `device`. An order whose device has no row is a fault too.
    pub fn order(&mut self, id: &Name) -> Result<Option<(Order, Form)>, Fault>
        ensures told { HasCleanDisk (state S.Store self.new.conn) → IfOk result (λ found. (tables : Tables) →
            Tells (state S.Store self.old.conn) tables → Kept tables → IsOrderOf tables id.now found) }
        ensures answered { HasCleanDisk (state S.Store self.new.conn) → OnOk result (
            StillTells (state S.Store self.old.conn) (state S.Store self.new.conn)) }
        ensures refused { HasCleanDisk (state S.Store self.new.conn) → OnErr result (
            Stays (state S.Store self.old.conn) (state S.Store self.new.conn)) }
        ensures nothing { WritesNothing (state S.Store self.old.conn) (state S.Store self.new.conn) }
        ensures asked { IfOk result (λ found. IfSome found (λ f. f.0.id ≡ id.now)) }
        ensures in_range { IfOk result (λ found. IfSome found (λ f. OrderIsInRange f.0)) }
    {
        let found = columns(find_order(&mut self.conn, id))?;
        order_found(found.as_slice(), id)
    }

    /// The orders of the serial, by rising count.
    ///
    /// # Errors
    ///
    /// `Caused` where the database refuses the statement, and where it finds an order of another serial or out of range, or
    /// finds them in another order; `Memory` where there is none.
    pub fn orders_of(&mut self, alloc: Global, serial: &Name) -> Result<Vec<Order>, Fault>
        ensures told { HasCleanDisk (state S.Store self.new.conn) → IfOk result (λ found. (tables : Tables) →
            Tells (state S.Store self.old.conn) tables → Kept tables → found.items ≡ orders_for tables serial.now) }
        ensures answered { HasCleanDisk (state S.Store self.new.conn) → OnOk result (
            StillTells (state S.Store self.old.conn) (state S.Store self.new.conn)) }
        ensures refused { HasCleanDisk (state S.Store self.new.conn) → OnErr result (
            Stays (state S.Store self.old.conn) (state S.Store self.new.conn)) }
        ensures nothing { WritesNothing (state S.Store self.old.conn) (state S.Store self.new.conn) }
        ensures asked { IfOk result (λ list. All (λ order. order.serial ≡ serial.now) list.items) }
        ensures ordered { IfOk result (λ list. IsTrue (rises order_before list.items)) }
        ensures in_range { IfOk result (λ list. All OrderIsInRange list.items) }
    {
        let found = columns(find_orders(&mut self.conn, serial))?;
        orders_found(alloc, found.as_slice(), serial)
    }

    /// The orders of the serial as they were added, the newest first.
    ///
    /// # Errors
    ///
    /// `Caused` where the database refuses the statement, and where it finds an order of another serial or out of range;
    /// `Memory` where there is none.
    pub fn orders_back(&mut self, alloc: Global, serial: &Name) -> Result<Vec<Order>, Fault>
        ensures told { HasCleanDisk (state S.Store self.new.conn) → IfOk result (λ found. (tables : Tables) →
            Tells (state S.Store self.old.conn) tables → Kept tables → found.items ≡ orders_back tables serial.now) }
        ensures answered { HasCleanDisk (state S.Store self.new.conn) → OnOk result (
            StillTells (state S.Store self.old.conn) (state S.Store self.new.conn)) }
        ensures refused { HasCleanDisk (state S.Store self.new.conn) → OnErr result (
            Stays (state S.Store self.old.conn) (state S.Store self.new.conn)) }
        ensures nothing { WritesNothing (state S.Store self.old.conn) (state S.Store self.new.conn) }
        ensures asked { IfOk result (λ list. All (λ order. order.serial ≡ serial.now) list.items) }
        ensures in_range { IfOk result (λ list. All OrderIsInRange list.items) }
    {
        let found = columns(find_orders_back(&mut self.conn, serial))?;
        orders_back_found(alloc, found.as_slice(), serial)
    }

    /// All rows, by serial.
    ///
    /// # Errors
    ///
    /// As for `orders_of`.
    pub fn rows(&mut self, alloc: Global) -> Result<Vec<Row>, Fault>
        ensures told { HasCleanDisk (state S.Store self.new.conn) → IfOk result (λ found. (tables : Tables) →
            Tells (state S.Store self.old.conn) tables → Kept tables → found.items ≡ all_rows tables) }
        ensures answered { HasCleanDisk (state S.Store self.new.conn) → OnOk result (
            StillTells (state S.Store self.old.conn) (state S.Store self.new.conn)) }
        ensures refused { HasCleanDisk (state S.Store self.new.conn) → OnErr result (
            Stays (state S.Store self.old.conn) (state S.Store self.new.conn)) }
        ensures nothing { WritesNothing (state S.Store self.old.conn) (state S.Store self.new.conn) }
        ensures ordered { IfOk result (λ list. IsTrue (rises row_before list.items)) }
        ensures in_range { IfOk result (λ list. All RowIsInRange list.items) }
    {
        let found = columns(find_rows(&mut self.conn))?;
        rows_found(alloc, found.as_slice())
    }

    /// The changes of the serial's price, by rising `from`.
    ///
    /// # Errors
    ///
    /// As for `orders_of`.
    pub fn prices_of(&mut self, alloc: Global, serial: &Name) -> Result<Vec<PriceChange>, Fault>
        ensures told { HasCleanDisk (state S.Store self.new.conn) → IfOk result (λ found. (tables : Tables) →
            Tells (state S.Store self.old.conn) tables → Kept tables → found.items ≡ prices_for tables serial.now) }
        ensures answered { HasCleanDisk (state S.Store self.new.conn) → OnOk result (
            StillTells (state S.Store self.old.conn) (state S.Store self.new.conn)) }
        ensures refused { HasCleanDisk (state S.Store self.new.conn) → OnErr result (
            Stays (state S.Store self.old.conn) (state S.Store self.new.conn)) }
        ensures nothing { WritesNothing (state S.Store self.old.conn) (state S.Store self.new.conn) }
        ensures asked { IfOk result (λ list. All (λ change. change.serial ≡ serial.now) list.items) }
        ensures ordered { IfOk result (λ list. IsTrue (rises change_before list.items)) }
        ensures in_range { IfOk result (λ list. All ChangeIsInRange list.items) }
    {
        let found = columns(find_prices(&mut self.conn, serial))?;
        prices_found(alloc, found.as_slice(), serial)
    }

    /// Adds a row, and raises its limit where it isn't the lower one, in one transaction.
    ///
    /// # Errors
    ///
    /// `Caused` where the database refuses it, as where the serial has a row; `Memory` where there is none.
    pub fn add_device(&mut self, row: &Row) -> Result<(), Fault>
        ensures done { HasCleanDisk (state S.Store self.new.conn) → OnOk result (
            Wrote (λ tables. RowIsInRange row.now × (row_of tables row.now.serial ≡ None)) (with_row row.now)
            (state S.Store self.old.conn) (state S.Store self.new.conn)) }
        ensures refused { HasCleanDisk (state S.Store self.new.conn) → OnErr result (
            Stays (state S.Store self.old.conn) (state S.Store self.new.conn)) }
        ensures whole { WritesWhole (λ tables. RowIsInRange row.now × (row_of tables row.now.serial ≡ None)) (with_row row.now)
            (state S.Store self.old.conn) (state S.Store self.new.conn) }
    {
        written(shop_tables::add_device(&mut self.conn, row))
    }

    /// Adds an order, and puts the row in the place of that of its serial, in one transaction.
    ///
    /// # Errors
    ///
    /// `Caused` where the database refuses it, as where the id has an order, and where the serial has no row with the limit of
    /// this one; `Memory` where there is none.
    pub fn add_order(&mut self, order: &Order, row: &Row) -> Result<(), Fault>
        ensures done { HasCleanDisk (state S.Store self.new.conn) → OnOk result (
            Wrote (λ tables. RowIsInRange row.now × IsSome (row_of tables row.now.serial)) (with_order order.now row.now)
            (state S.Store self.old.conn) (state S.Store self.new.conn)) }
        ensures refused { HasCleanDisk (state S.Store self.new.conn) → OnErr result (
            Stays (state S.Store self.old.conn) (state S.Store self.new.conn)) }
        ensures whole { WritesWhole (λ tables. RowIsInRange row.now × IsSome (row_of tables row.now.serial))
            (with_order order.now row.now) (state S.Store self.old.conn) (state S.Store self.new.conn) }
    {
        written(shop_tables::add_order(&mut self.conn, order, row))
    }

    /// Raises the limit of the row of the serial.
    ///
    /// # Errors
    ///
    /// `Caused` where the database refuses it, and where the serial has no row or one that is raised; `Memory` where there is
    /// none.
    pub fn raise(&mut self, serial: &Name) -> Result<(), Fault>
        ensures done { HasCleanDisk (state S.Store self.new.conn) → OnOk result (
            Wrote (λ tables. IsSome (row_of tables serial.now)) (with_raised serial.now)
            (state S.Store self.old.conn) (state S.Store self.new.conn)) }
        ensures refused { HasCleanDisk (state S.Store self.new.conn) → OnErr result (
            Stays (state S.Store self.old.conn) (state S.Store self.new.conn)) }
        ensures whole { WritesWhole (λ tables. IsSome (row_of tables serial.now)) (with_raised serial.now)
            (state S.Store self.old.conn) (state S.Store self.new.conn) }
    {
        match self.device(serial)? {
            Some(row) if row.limit == LAST => self.write_raised(serial),
            _ => Err(Fault::Caused(Cause::Unwritten)),
        }
    }

    // Raises the limit of a serial.
    fn write_raised(&mut self, serial: &Name) -> Result<(), Fault>
        ensures done { HasCleanDisk (state S.Store self.new.conn) → OnOk result (
            Wrote (λ tables. IsSome (row_of tables serial.now)) (with_raised serial.now)
            (state S.Store self.old.conn) (state S.Store self.new.conn)) }
        ensures refused { HasCleanDisk (state S.Store self.new.conn) → OnErr result (
            Stays (state S.Store self.old.conn) (state S.Store self.new.conn)) }
        ensures whole { WritesWhole (λ tables. IsSome (row_of tables serial.now)) (with_raised serial.now)
            (state S.Store self.old.conn) (state S.Store self.new.conn) }
    {
        written(shop_tables::raise(&mut self.conn, serial))
    }

    /// Lifts the last count of the row of the serial.
    ///
    /// # Errors
    ///
    /// `Caused` where the database refuses it, and where the serial has no row with a lower last count; `Memory` where there
    /// is none.
    pub fn skip(&mut self, serial: &Name, to: u16) -> Result<(), Fault>
        ensures done { HasCleanDisk (state S.Store self.new.conn) → OnOk result (
            Wrote (λ tables. IsSome (row_of tables serial.now)) (with_lifted to serial.now)
            (state S.Store self.old.conn) (state S.Store self.new.conn)) }
        ensures refused { HasCleanDisk (state S.Store self.new.conn) → OnErr result (
            Stays (state S.Store self.old.conn) (state S.Store self.new.conn)) }
        ensures whole { WritesWhole (λ tables. IsSome (row_of tables serial.now)) (with_lifted to serial.now)
            (state S.Store self.old.conn) (state S.Store self.new.conn) }
    {
        written(shop_tables::skip(&mut self.conn, serial, to))
    }

    /// Adds a change of a price.
    ///
    /// # Errors
    ///
    /// `Caused` where the database refuses it, as where the serial has no row, or a change from that count on; `Memory` where
    /// there is none.
    pub fn add_price(&mut self, change: &PriceChange) -> Result<(), Fault>
        ensures done { HasCleanDisk (state S.Store self.new.conn) → OnOk result (
            Wrote (λ _. Unit {0}) (with_change change.now) (state S.Store self.old.conn) (state S.Store self.new.conn)) }
        ensures refused { HasCleanDisk (state S.Store self.new.conn) → OnErr result (
            Stays (state S.Store self.old.conn) (state S.Store self.new.conn)) }
        ensures whole { WritesWhole (λ _. Unit {0}) (with_change change.now)
            (state S.Store self.old.conn) (state S.Store self.new.conn) }
    {
        written(shop_tables::add_price(&mut self.conn, change))
    }
}

// What a write came to.
fn written(outcome: Result<(), Error>) -> Result<(), Fault>
    ensures ok { (result ≡ Ok tt) ↔ (outcome ≡ Ok tt) }
    ensures err { (e : _) → outcome ≡ Err e → result ≡ Err (fault_of e) }
{
    match outcome {
        Ok(()) => Ok(()),
        Err(error) => Err(to_fault(error)),
    }
}

// What a statement that asks came to.
fn columns(outcome: Result<Vec<sqlite::Row>, Error>) -> Result<Vec<sqlite::Row>, Fault>
    ensures ok { IfOk result (λ found. outcome ≡ Ok found) }
    ensures err { (e : _) → outcome ≡ Err e → result ≡ Err (fault_of e) }
{
    match outcome {
        Ok(found) => Ok(found),
        Err(error) => Err(to_fault(error)),
    }
}
