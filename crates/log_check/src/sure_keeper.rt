// A keeper in memory that never fails.
ghost use Rattle.std.specs.Prelude.{◌≡◌, IfOk, IfSome, None, IsSome, IsSomeAnd, IsTrue, All};
ghost use Rattle.log_check.specs.Sure.{IsSure, sure_prop};

use ledger_keeper::{Keeper, MemKeeper};
use ledger_spec::{KeeperFault, Name, Order, PriceChange, Row};
use paygo_spec::Form;
use std::alloc::Global;

/// A keeper in memory for which no fault is planned: it never fails. It may find no memory.
#[derive(Drop)]
pub(crate) struct SureKeeper {
    keeper: MemKeeper,
    ghost sure: { IsSure keeper } by { sure_prop _ },
}

impl SureKeeper {
    ghost use Rattle.std.specs.Prelude.{◌≡◌};
    ghost use Rattle.ledger_spec.specs.Tables.{no_tables};
    ghost use Rattle.log_check.specs.SureTables.{tables_of};

    /// A keeper with nothing in its tables. It takes no memory yet.
    pub(crate) fn new(alloc: Global) -> SureKeeper
        ensures { tables_of result ≡ no_tables }
    {
        SureKeeper {
            keeper: MemKeeper::new(alloc),
        }
    }
}

impl Keeper for SureKeeper {
    ghost use Rattle.std.specs.Prelude.{Some};
    ghost use Rattle.log_check.specs.SureTables.{tables_of};

    ghost view = { λ k. record { tables = Some (tables_of k); faults = k.keeper.faults } };

    ghost kept = { λ k. k.keeper.kept };

    fn device(&mut self, alloc: Global, serial: &Name) -> Result<Option<Row>, KeeperFault> {
        self.keeper.device(alloc, serial)
    }

    fn order(&mut self, alloc: Global, id: &Name) -> Result<Option<(Order, Form)>, KeeperFault> {
        self.keeper.order(alloc, id)
    }

    fn orders_of(&mut self, alloc: Global, serial: &Name) -> Result<Vec<Order>, KeeperFault> {
        self.keeper.orders_of(alloc, serial)
    }

    fn rows(&mut self, alloc: Global) -> Result<Vec<Row>, KeeperFault> {
        self.keeper.rows(alloc)
    }

    fn add_device(&mut self, alloc: Global, row: &Row) -> Result<(), KeeperFault> {
        self.keeper.add_device(alloc, row)
    }

    fn add_order(&mut self, alloc: Global, order: &Order, row: &Row) -> Result<(), KeeperFault> {
        self.keeper.add_order(alloc, order, row)
    }

    fn prices_of(&mut self, alloc: Global, serial: &Name) -> Result<Vec<PriceChange>, KeeperFault> {
        self.keeper.prices_of(alloc, serial)
    }

    fn raise(&mut self, alloc: Global, serial: &Name) -> Result<(), KeeperFault> {
        self.keeper.raise(alloc, serial)
    }

    fn skip(&mut self, alloc: Global, serial: &Name, to: u16) -> Result<(), KeeperFault> {
        self.keeper.skip(alloc, serial, to)
    }

    fn orders_back(&mut self, alloc: Global, serial: &Name) -> Result<Vec<Order>, KeeperFault> {
        self.keeper.orders_back(alloc, serial)
    }

    fn add_price(&mut self, alloc: Global, change: &PriceChange) -> Result<(), KeeperFault> {
        self.keeper.add_price(alloc, change)
    }
}
