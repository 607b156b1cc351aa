// A keeper of the tables in a database.
ghost use Rattle.std.specs.Prelude.{◌≡◌, ◌↔◌, None, false, Ok, IsTrue, IsErr, IsSome, IfOk, IfErr, IfSome, All};
ghost use Rattle.ledger_spec.specs.Sorted.{rises, order_before, row_before};
ghost use Rattle.ledger_spec.specs.Tables.{RowIsInRange, OrderIsInRange, ChangeIsInRange, change_before};
ghost use Rattle.ledger_spec.specs.Keeper.{Counts};

use crate::cause::{Cause, Fault, to_fault, unfit};
use crate::copying::copied;
use crate::opening::connect;
use crate::tables::TablesOver;
use ledger_keeper::Keeper;
use ledger_spec::{KeeperFault, Name, Order, PriceChange, Row};
use paygo_spec::Form;
use sqlite::{Alter, Connection, File, FileStore, MemStore};
use sqlite_disk::Memory;
use std::alloc::Global;
use std::mem;

// Where the database is to be.
#[derive(Drop)]
enum Place {
    // In the file at this path.
    File(String),
    // In the file at this path, which is only read.
    Copy(String),
    // In memory.
    Memory,
}

// The way to the database.
#[derive(Drop)]
enum Link {
    // It isn't open.
    Shut,
    // To a file.
    File(TablesOver<FileStore<File>>),
    // To a copy of a file in memory.
    Copy(TablesOver<FileStore<Memory>>),
    // In memory.
    Memory(TablesOver<MemStore>),
}

/// A keeper of the shop's tables in a SQLite database, in a file or in memory. It tells no tables: no clause can say what
/// a file holds.
///
/// The database is opened at the first call, and its tables are made where they are absent. While it is open, no other
/// program can open the file. A file that another program holds is tried again 50 times, with a tenth of a second between.
/// What is committed stands in the file and in the log beside it, whose name has `-wal` at its end: the two belong
/// together, until `close` has copied the log into the file. A new file and its log may be read and written by their owner
/// alone, since they hold the devices' keys.
///
/// A call fails, and counts it once, where the database can't be opened, where a statement is refused or writes another
/// number of rows than one, and where a row, an order or a change of a price is found that isn't what was asked for, or
/// out of its order or its range, or an order whose device has no row. `trouble` then says why. It says `Memory`, and counts
/// nothing, where there is no memory. A call that answers counts nothing.
#[derive(Drop)]
pub struct SqliteKeeper<'a> {
    rt: &'a HostRuntime,
    place: Place,
    writes: bool,
    link: Link,
    cause: Option<Cause>,
    faults: u64,
}

impl<'a> SqliteKeeper<'a> {
    /// The keeper of the database in the file at this path. Nothing is opened yet. No file is made at a path that is empty,
    /// `:memory:` or a URI, or where there is no folder for it: each call fails.
    pub fn at(rt: &'a HostRuntime, path: String) -> SqliteKeeper<'a>
        ensures { ⟦<SqliteKeeper<'a> as Keeper>⟧.view result ≡ record { tables = None; faults = 0 } }
    {
        SqliteKeeper::new(rt, Place::File(path), true)
    }

    /// The keeper of the database in the file at this path, which only reads it. Nothing is opened yet. At the first call
    /// the file and its log are read into memory, as they stand at one time, and not again: it takes no lock, and neither
    /// makes nor writes a file, so that a file is read that may not be written. Tables that are absent are empty. A call
    /// that is to write fails.
    pub fn reading(rt: &'a HostRuntime, path: String) -> SqliteKeeper<'a>
        ensures view { ⟦<SqliteKeeper<'a> as Keeper>⟧.view result ≡ record { tables = None; faults = 0 } }
        ensures alone { result.writes ≡ false }
    {
        SqliteKeeper::new(rt, Place::Copy(path), false)
    }

    /// The keeper of a new database in memory, which is gone with the keeper. Nothing is opened yet.
    pub fn in_memory(rt: &'a HostRuntime) -> SqliteKeeper<'a>
        ensures { ⟦<SqliteKeeper<'a> as Keeper>⟧.view result ≡ record { tables = None; faults = 0 } }
    {
        SqliteKeeper::new(rt, Place::Memory, true)
    }

    // The keeper of the database at this place, which may be written or not.
    fn new(rt: &'a HostRuntime, place: Place, writes: bool) -> SqliteKeeper<'a>
        ensures view { ⟦<SqliteKeeper<'a> as Keeper>⟧.view result ≡ record { tables = None; faults = 0 } }
        ensures writes { result.writes ≡ writes }
    {
        SqliteKeeper {
            rt,
            place,
            writes,
            link: Link::Shut,
            cause: None,
            faults: 0,
        }
    }

    /// Copies the log of the database into its file, which then stands alone, and closes the file. The next call opens it
    /// again. Nothing is done where no file is open: a database in memory, or what was read of a file, stays as it is.
    ///
    /// # Errors
    ///
    /// `Failed` where the file can't be written, and the fault is counted, once; `Memory` where there is none, and no
    /// fault is counted. What was committed is then still in the file and its log.
    pub fn close(&mut self) -> Result<(), KeeperFault>
        ensures counts { Counts result self.old.faults self.new.faults }
        ensures caused { IfErr result (λ e. e ≡ KeeperFault.Failed → IsSome self.new.cause) }
    {
        let outcome = self.close_file();
        self.counted(outcome)
    }

    // As `close`, and nothing is counted.
    fn close_file(&mut self) -> Result<(), Fault>
        ensures same { self.new.faults ≡ self.old.faults }
    {
        match mem::replace(&mut self.link, Link::Shut) {
            Link::File(tables) => tables.into_connection().close().map_err(to_fault),
            other => {
                self.link = other;
                Ok(())
            }
        }
    }

    /// Why the newest call that failed did; None where none has failed.
    pub fn trouble(&self) -> Option<&Cause> {
        self.cause.as_ref()
    }

    // Opens the database, where it isn't open yet, and makes the tables that are absent.
    fn open(&mut self) -> Result<(), Fault>
        ensures same { self.new.faults ≡ self.old.faults }
        ensures writes { self.new.writes ≡ self.old.writes }
    {
        if !matches!(self.link, Link::Shut) {
            return Ok(());
        }
        let link = opened(self.rt, &self.place)?;
        self.link = link;
        Ok(())
    }

    // Opens the database to write it, where it may be written.
    fn open_to_write(&mut self) -> Result<(), Fault>
        ensures same { self.new.faults ≡ self.old.faults }
        ensures alone { self.old.writes ≡ false → IsErr result }
    {
        if !self.writes {
            return Err(Fault::Caused(Cause::ForReading));
        }
        self.open()
    }

    // Counts a call that failed, and no other, and keeps why it did.
    fn counted<T>(&mut self, outcome: Result<T, Fault>) -> Result<T, KeeperFault>
        ensures answered { IfOk result (λ answer. outcome ≡ Ok answer) }
        ensures counts { Counts result self.old.faults self.new.faults }
        ensures caused { IfErr result (λ e. e ≡ KeeperFault.Failed → IsSome self.new.cause) }
    {
        match outcome {
            Ok(answer) => Ok(answer),
            Err(Fault::Memory) => Err(KeeperFault::Memory),
            Err(Fault::Caused(cause)) => {
                self.cause = Some(cause);
                self.faults = self.faults.saturating_add(1);
                Err(KeeperFault::Failed)
            }
        }
    }
}

// What a call over a database comes to that isn't open.
fn shut<T>() -> Result<T, Fault>
    ensures { IsErr result }
{
    Err(Fault::Caused(Cause::Unopened))
}

// The way to the database at this place, with its tables.
fn opened(rt: &HostRuntime, place: &Place) -> Result<Link, Fault> {
    match place {
        Place::File(path) => {
            let conn = connect(rt, path.as_str())?;
            Ok(Link::File(made(rt.alloc(), conn)?))
        }
        Place::Copy(path) => {
            let conn = copied(rt, path.as_str())?;
            Ok(Link::Copy(made(rt.alloc(), conn)?))
        }
        Place::Memory => {
            let Ok(conn) = Connection::open_in_memory(rt.alloc()) else {
                return Err(Fault::Memory);
            };
            Ok(Link::Memory(made(rt.alloc(), conn)?))
        }
    }
}

// The tables over a connection, where those that were absent are made.
fn made<S: Alter + Drop>(alloc: Global, conn: Connection<S>) -> Result<TablesOver<S>, Fault> {
    let mut tables = TablesOver::new(conn);
    match tables.make(alloc) {
        Ok(()) => Ok(tables),
        Err(error) => Err(unfit(error)),
    }
}

// Each call of a keeper, with nothing counted.
impl<'a> SqliteKeeper<'a> {
    fn find_device(&mut self, serial: &Name) -> Result<Option<Row>, Fault>
        ensures same { self.new.faults ≡ self.old.faults }
        ensures asked { IfOk result (λ found. IfSome found (λ row. row.serial ≡ serial.now)) }
        ensures in_range { IfOk result (λ found. IfSome found RowIsInRange) }
    {
        self.open()?;
        match &mut self.link {
            Link::Shut => shut(),
            Link::File(tables) => tables.device(serial),
            Link::Copy(tables) => tables.device(serial),
            Link::Memory(tables) => tables.device(serial),
        }
    }

    fn find_order(&mut self, id: &Name) -> Result<Option<(Order, Form)>, Fault>
        ensures same { self.new.faults ≡ self.old.faults }
        ensures asked { IfOk result (λ found. IfSome found (λ f. f.0.id ≡ id.now)) }
        ensures in_range { IfOk result (λ found. IfSome found (λ f. OrderIsInRange f.0)) }
    {
        self.open()?;
        match &mut self.link {
            Link::Shut => shut(),
            Link::File(tables) => tables.order(id),
            Link::Copy(tables) => tables.order(id),
            Link::Memory(tables) => tables.order(id),
        }
    }

    fn list_orders(&mut self, alloc: Global, serial: &Name) -> Result<Vec<Order>, Fault>
        ensures same { self.new.faults ≡ self.old.faults }
        ensures asked { IfOk result (λ list. All (λ order. order.serial ≡ serial.now) list.items) }
        ensures ordered { IfOk result (λ list. IsTrue (rises order_before list.items)) }
        ensures in_range { IfOk result (λ list. All OrderIsInRange list.items) }
    {
        self.open()?;
        match &mut self.link {
            Link::Shut => shut(),
            Link::File(tables) => tables.orders_of(alloc, serial),
            Link::Copy(tables) => tables.orders_of(alloc, serial),
            Link::Memory(tables) => tables.orders_of(alloc, serial),
        }
    }

    fn list_rows(&mut self, alloc: Global) -> Result<Vec<Row>, Fault>
        ensures same { self.new.faults ≡ self.old.faults }
        ensures ordered { IfOk result (λ list. IsTrue (rises row_before list.items)) }
        ensures in_range { IfOk result (λ list. All RowIsInRange list.items) }
    {
        self.open()?;
        match &mut self.link {
            Link::Shut => shut(),
            Link::File(tables) => tables.rows(alloc),
            Link::Copy(tables) => tables.rows(alloc),
            Link::Memory(tables) => tables.rows(alloc),
        }
    }

    fn insert_device(&mut self, row: &Row) -> Result<(), Fault>
        ensures same { self.new.faults ≡ self.old.faults }
        ensures alone { self.old.writes ≡ false → IsErr result }
    {
        self.open_to_write()?;
        match &mut self.link {
            Link::Shut => shut(),
            Link::File(tables) => tables.add_device(row),
            Link::Copy(tables) => tables.add_device(row),
            Link::Memory(tables) => tables.add_device(row),
        }
    }

    fn insert_order(&mut self, order: &Order, row: &Row) -> Result<(), Fault>
        ensures same { self.new.faults ≡ self.old.faults }
        ensures alone { self.old.writes ≡ false → IsErr result }
    {
        self.open_to_write()?;
        match &mut self.link {
            Link::Shut => shut(),
            Link::File(tables) => tables.add_order(order, row),
            Link::Copy(tables) => tables.add_order(order, row),
            Link::Memory(tables) => tables.add_order(order, row),
        }
    }

    fn list_prices(&mut self, alloc: Global, serial: &Name) -> Result<Vec<PriceChange>, Fault>
        ensures same { self.new.faults ≡ self.old.faults }
        ensures asked { IfOk result (λ list. All (λ change. change.serial ≡ serial.now) list.items) }
        ensures ordered { IfOk result (λ list. IsTrue (rises change_before list.items)) }
        ensures in_range { IfOk result (λ list. All ChangeIsInRange list.items) }
    {
        self.open()?;
        match &mut self.link {
            Link::Shut => shut(),
            Link::File(tables) => tables.prices_of(alloc, serial),
            Link::Copy(tables) => tables.prices_of(alloc, serial),
            Link::Memory(tables) => tables.prices_of(alloc, serial),
        }
    }

    fn insert_raised(&mut self, serial: &Name) -> Result<(), Fault>
        ensures same { self.new.faults ≡ self.old.faults }
        ensures alone { self.old.writes ≡ false → IsErr result }
    {
        self.open_to_write()?;
        match &mut self.link {
            Link::Shut => shut(),
            Link::File(tables) => tables.raise(serial),
            Link::Copy(tables) => tables.raise(serial),
            Link::Memory(tables) => tables.raise(serial),
        }
    }

    fn lift_last(&mut self, serial: &Name, to: u16) -> Result<(), Fault>
        ensures same { self.new.faults ≡ self.old.faults }
        ensures alone { self.old.writes ≡ false → IsErr result }
    {
        self.open_to_write()?;
        match &mut self.link {
            Link::Shut => shut(),
            Link::File(tables) => tables.skip(serial, to),
            Link::Copy(tables) => tables.skip(serial, to),
            Link::Memory(tables) => tables.skip(serial, to),
        }
    }

    fn list_back(&mut self, alloc: Global, serial: &Name) -> Result<Vec<Order>, Fault>
        ensures same { self.new.faults ≡ self.old.faults }
        ensures asked { IfOk result (λ list. All (λ order. order.serial ≡ serial.now) list.items) }
        ensures in_range { IfOk result (λ list. All OrderIsInRange list.items) }
    {
        self.open()?;
        match &mut self.link {
            Link::Shut => shut(),
            Link::File(tables) => tables.orders_back(alloc, serial),
            Link::Copy(tables) => tables.orders_back(alloc, serial),
            Link::Memory(tables) => tables.orders_back(alloc, serial),
        }
    }

    fn insert_price(&mut self, change: &PriceChange) -> Result<(), Fault>
        ensures same { self.new.faults ≡ self.old.faults }
        ensures alone { self.old.writes ≡ false → IsErr result }
    {
        self.open_to_write()?;
        match &mut self.link {
            Link::Shut => shut(),
            Link::File(tables) => tables.add_price(change),
            Link::Copy(tables) => tables.add_price(change),
            Link::Memory(tables) => tables.add_price(change),
        }
    }
}

impl<'a> Keeper for SqliteKeeper<'a> {
    ghost view = { λ k. record { tables = None; faults = k.faults } };

    ghost kept = { λ _. tt };

    fn device(&mut self, _alloc: Global, serial: &Name) -> Result<Option<Row>, KeeperFault> {
        let outcome = self.find_device(serial);
        self.counted(outcome)
    }

    fn order(&mut self, _alloc: Global, id: &Name) -> Result<Option<(Order, Form)>, KeeperFault> {
        let outcome = self.find_order(id);
        self.counted(outcome)
    }

    fn orders_of(&mut self, alloc: Global, serial: &Name) -> Result<Vec<Order>, KeeperFault> {
        let outcome = self.list_orders(alloc, serial);
        self.counted(outcome)
    }

    fn rows(&mut self, alloc: Global) -> Result<Vec<Row>, KeeperFault> {
        let outcome = self.list_rows(alloc);
        self.counted(outcome)
    }

    fn add_device(&mut self, _alloc: Global, row: &Row) -> Result<(), KeeperFault> {
        let outcome = self.insert_device(row);
        self.counted(outcome)
    }

    fn add_order(&mut self, _alloc: Global, order: &Order, row: &Row) -> Result<(), KeeperFault> {
        let outcome = self.insert_order(order, row);
        self.counted(outcome)
    }

    fn prices_of(&mut self, alloc: Global, serial: &Name) -> Result<Vec<PriceChange>, KeeperFault> {
        let outcome = self.list_prices(alloc, serial);
        self.counted(outcome)
    }

    fn raise(&mut self, _alloc: Global, serial: &Name) -> Result<(), KeeperFault> {
        let outcome = self.insert_raised(serial);
        self.counted(outcome)
    }

    fn skip(&mut self, _alloc: Global, serial: &Name, to: u16) -> Result<(), KeeperFault> {
        let outcome = self.lift_last(serial, to);
        self.counted(outcome)
    }

    fn orders_back(&mut self, alloc: Global, serial: &Name) -> Result<Vec<Order>, KeeperFault> {
        let outcome = self.list_back(alloc, serial);
        self.counted(outcome)
    }

    fn add_price(&mut self, _alloc: Global, change: &PriceChange) -> Result<(), KeeperFault> {
        let outcome = self.insert_price(change);
        self.counted(outcome)
    }
}
