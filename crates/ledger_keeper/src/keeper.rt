// A keeper of the tables by what is seen of it.
ghost use Rattle.std.specs.Prelude.{◌≡◌, ◌<◌, ◌≤◌, None, IfOk, IfSome, IsSome, IsSomeAnd, IsTrue, All};
ghost use Rattle.paygo_spec.specs.declared.TheConstants.{LAST};
ghost use Rattle.ledger_spec.specs.Tables.{row_of, order_of, change_of, prices_for, change_before, with_row, with_order, with_change, with_raised, with_lifted, RowIsInRange, OrderIsInRange, ChangeIsInRange, Kept};
ghost use Rattle.ledger_spec.specs.Sorted.{orders_for, all_rows, rises, order_before, row_before};
ghost use Rattle.ledger_spec.specs.Replay.{orders_back};
ghost use Rattle.ledger_spec.specs.Keeper.{KeeperView, Reads, Commits, IsOrderOf};

use ledger_spec::{KeeperFault, Name, Order, PriceChange, Row};
use paygo_spec::Form;
use std::alloc::Global;

/// A keeper of the shop's tables: the rows of the devices, the orders, and the changes of prices. It may tell them, as one
/// in memory does, or not, as one over a database; what it hands out is what was asked for, in its order and in range, in
/// both cases. It counts its faults: a call that fails counts one, and a call that answers, or finds no memory, counts
/// none. The count stands still at 2^64 - 1. All calls may take memory.
pub trait Keeper {
    /// What is seen of the keeper.
    ghost view: { Self → KeeperView };

    /// The row of the serial, if there is one. Nothing changes.
    ///
    /// # Errors
    ///
    /// `Failed` where the keeper failed, and the fault is counted, once; `Memory` where there is none, and no fault is
    /// counted.
    fn device(&mut self, alloc: Global, serial: &Name) -> Result<Option<Row>, KeeperFault>
        ensures reads { Reads result (view self.old) (view self.new) }
        ensures found { IfOk result (λ found. IfSome (view self.old).tables
            (λ tables. found ≡ row_of tables serial.now)) }
        ensures asked { IfOk result (λ found. IfSome found (λ row. row.serial ≡ serial.now)) }
        ensures in_range { IfOk result (λ found. IfSome found RowIsInRange) };

    /// The order with the id and the form of its row, if there is one. Nothing changes.
    ///
    /// # Errors
    ///
    /// As for `device`. An order whose device has no row is never answered: it is a fault, and counted.
    fn order(&mut self, alloc: Global, id: &Name) -> Result<Option<(Order, Form)>, KeeperFault>
        ensures reads { Reads result (view self.old) (view self.new) }
        ensures found { IfOk result (λ found. IfSome (view self.old).tables
            (λ tables. IsOrderOf tables id.now found)) }
        ensures asked { IfOk result (λ found. IfSome found (λ f. f.0.id ≡ id.now)) }
        ensures in_range { IfOk result (λ found. IfSome found (λ f. OrderIsInRange f.0)) };

    /// The orders of the serial, by rising count, and by id in byte order where counts are equal. Nothing changes.
    ///
    /// # Errors
    ///
    /// As for `device`.
    fn orders_of(&mut self, alloc: Global, serial: &Name) -> Result<Vec<Order>, KeeperFault>
        ensures reads { Reads result (view self.old) (view self.new) }
        ensures found { IfOk result (λ list. IfSome (view self.old).tables
            (λ tables. list.items ≡ orders_for tables serial.now)) }
        ensures asked { IfOk result (λ list. All (λ order. order.serial ≡ serial.now) list.items) }
        ensures ordered { IfOk result (λ list. IsTrue (rises order_before list.items)) }
        ensures in_range { IfOk result (λ list. All OrderIsInRange list.items) };

    /// All rows by serial, in byte order. Nothing changes.
    ///
    /// # Errors
    ///
    /// As for `device`.
    fn rows(&mut self, alloc: Global) -> Result<Vec<Row>, KeeperFault>
        ensures reads { Reads result (view self.old) (view self.new) }
        ensures found { IfOk result (λ list. IfSome (view self.old).tables
            (λ tables. list.items ≡ all_rows tables)) }
        ensures ordered { IfOk result (λ list. IsTrue (rises row_before list.items)) }
        ensures in_range { IfOk result (λ list. All RowIsInRange list.items) };

    /// Adds a row, whose serial has none.
    ///
    /// # Errors
    ///
    /// `Failed` where the keeper failed, and the fault is counted, once: the tables are as before or have the row.
    /// `Memory` where there is none: the tables are as before, and no fault is counted.
    fn add_device(&mut self, alloc: Global, row: &Row) -> Result<(), KeeperFault>
        requires in_range { RowIsInRange row.now }
        requires new { IfSome (view self.old).tables (λ tables. row_of tables row.now.serial ≡ None) }
        ensures commits { Commits (with_row row.now) result (view self.old) (view self.new) };

    /// Adds an order, whose id has none, and puts the row in the place of the kept one, in one commit.
    ///
    /// # Errors
    ///
    /// As for `add_device`: the tables are as before or have the whole change.
    fn add_order(&mut self, alloc: Global, order: &Order, row: &Row) -> Result<(), KeeperFault>
        requires order { OrderIsInRange order.now }
        requires row { RowIsInRange row.now }
        requires same { row.now.serial ≡ order.now.serial }
        requires new { IfSome (view self.old).tables (λ tables. order_of tables order.now.id ≡ None) }
        requires kept { IfSome (view self.old).tables (λ tables. IsSome (row_of tables row.now.serial)) }
        ensures commits { Commits (with_order order.now row.now) result (view self.old) (view self.new) };

    /// The changes of the price of the serial, by rising `from`. Nothing changes.
    ///
    /// # Errors
    ///
    /// As for `device`.
    fn prices_of(&mut self, alloc: Global, serial: &Name) -> Result<Vec<PriceChange>, KeeperFault>
        ensures reads { Reads result (view self.old) (view self.new) }
        ensures found { IfOk result (λ list. IfSome (view self.old).tables
            (λ tables. list.items ≡ prices_for tables serial.now)) }
        ensures asked { IfOk result (λ list. All (λ change. change.serial ≡ serial.now) list.items) }
        ensures ordered { IfOk result (λ list. IsTrue (rises change_before list.items)) }
        ensures in_range { IfOk result (λ list. All ChangeIsInRange list.items) };

    /// Raises the limit of the row of the serial, which has the lower one.
    ///
    /// # Errors
    ///
    /// As for `add_device`: the tables are as before or have the raised limit.
    fn raise(&mut self, alloc: Global, serial: &Name) -> Result<(), KeeperFault>
        requires { IfSome (view self.old).tables
            (λ tables. IsSomeAnd (row_of tables serial.now) (λ row. row.limit ≡ LAST)) }
        ensures commits { Commits (with_raised serial.now) result (view self.old) (view self.new) };

    /// Lifts the last count of the row of the serial to a greater one, which is at most the row's limit.
    ///
    /// # Errors
    ///
    /// As for `add_device`: the tables are as before or have the lifted count.
    fn skip(&mut self, alloc: Global, serial: &Name, to: u16) -> Result<(), KeeperFault>
        requires { IfSome (view self.old).tables
            (λ tables. IsSomeAnd (row_of tables serial.now) (λ row. (row.last < to) × (to ≤ row.limit))) }
        ensures commits { Commits (with_lifted to serial.now) result (view self.old) (view self.new) };

    /// The orders of the serial as they were added, the newest first. Nothing changes.
    ///
    /// # Errors
    ///
    /// As for `device`.
    fn orders_back(&mut self, alloc: Global, serial: &Name) -> Result<Vec<Order>, KeeperFault>
        ensures reads { Reads result (view self.old) (view self.new) }
        ensures found { IfOk result (λ list. IfSome (view self.old).tables
            (λ tables. list.items ≡ orders_back tables serial.now)) }
        ensures asked { IfOk result (λ list. All (λ order. order.serial ≡ serial.now) list.items) }
        ensures in_range { IfOk result (λ list. All OrderIsInRange list.items) };

    /// Adds a change of a price, whose serial has a row and no change from that count on.
    ///
    /// # Errors
    ///
    /// As for `add_device`: the tables are as before or have the change.
    fn add_price(&mut self, alloc: Global, change: &PriceChange) -> Result<(), KeeperFault>
        requires in_range { ChangeIsInRange change.now }
        requires kept { IfSome (view self.old).tables (λ tables. IsSome (row_of tables change.now.serial)) }
        requires new { IfSome (view self.old).tables
            (λ tables. change_of tables change.now.serial change.now.from ≡ None) }
        ensures commits { Commits (with_change change.now) result (view self.old) (view self.new) };

    /// The tables, where they are told, are in order: serials differ, ids differ, the changes of one device hold from
    /// different counts, each order and each change is that of a device with a row, and all are in range. The conditions
    /// of the calls that write keep it so.
    ghost kept: { (keeper : Self) → IfSome (view keeper).tables Kept };
}
