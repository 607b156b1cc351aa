// The lists that the tables show, in their order.
ghost use Rattle.std.specs.Prelude.{◌≡◌, map, IfOk, OnOk, OnErr};
ghost use Rattle.sqlite.specs.Held.{state};
ghost use Rattle.sqlite.specs.State.{HasCleanDisk};
ghost use Rattle.ledger_spec.specs.Tables.{Tables, Kept, prices_for};
ghost use Rattle.ledger_spec.specs.Sorted.{orders_for, all_rows};
ghost use Rattle.ledger_spec.specs.Replay.{orders_back};
ghost use Rattle.shop_tables.specs.Stored.{order_columns, change_columns, row_columns};
ghost use Rattle.shop_tables.specs.Telling.{Tells, StillTells, Stays, WritesNothing};

use crate::query::ask;
use crate::statements::{DEVICES, ORDERS, ORDERS_BACK, PRICES};
use crate::values::{text, unfit};
use ledger_spec::Name;
use sqlite::{Alter, Connection, Error, Row as Columns};

/// The columns of the serial's orders, by count and then by id. Nothing changes.
///
/// # Errors
///
/// Where the database refuses the statement.
pub fn find_orders<S: Alter>(conn: &mut Connection<S>, serial: &Name) -> Result<Vec<Columns>, Error>
    ensures found { HasCleanDisk (state S.Store conn.new) → IfOk result (λ found. (tables : Tables) →
        Tells (state S.Store conn.old) tables → Kept tables → found.items ≡ map order_columns (orders_for tables serial.now)) }
    ensures answered { HasCleanDisk (state S.Store conn.new) → OnOk result (StillTells (state S.Store conn.old) (state S.Store conn.new)) }
    ensures refused { HasCleanDisk (state S.Store conn.new) → OnErr result (Stays (state S.Store conn.old) (state S.Store conn.new)) }
    ensures nothing { WritesNothing (state S.Store conn.old) (state S.Store conn.new) }
{
    let Some(name) = text(serial) else {
        return Err(unfit());
    };
    ask(conn, ORDERS, name)
}

/// The columns of the serial's orders, the newest first. Nothing changes.
///
/// # Errors
///
/// Where the database refuses the statement.
pub fn find_orders_back<S: Alter>(
    conn: &mut Connection<S>,
    serial: &Name,
) -> Result<Vec<Columns>, Error>
    ensures found { HasCleanDisk (state S.Store conn.new) → IfOk result (λ found. (tables : Tables) →
        Tells (state S.Store conn.old) tables → Kept tables → found.items ≡ map order_columns (orders_back tables serial.now)) }
    ensures answered { HasCleanDisk (state S.Store conn.new) → OnOk result (StillTells (state S.Store conn.old) (state S.Store conn.new)) }
    ensures refused { HasCleanDisk (state S.Store conn.new) → OnErr result (Stays (state S.Store conn.old) (state S.Store conn.new)) }
    ensures nothing { WritesNothing (state S.Store conn.old) (state S.Store conn.new) }
{
    let Some(name) = text(serial) else {
        return Err(unfit());
    };
    ask(conn, ORDERS_BACK, name)
}

/// The columns of the changes of the serial's price, by the count from which they hold. Nothing changes.
///
/// # Errors
///
/// Where the database refuses the statement.
pub fn find_prices<S: Alter>(conn: &mut Connection<S>, serial: &Name) -> Result<Vec<Columns>, Error>
    ensures found { HasCleanDisk (state S.Store conn.new) → IfOk result (λ found. (tables : Tables) →
        Tells (state S.Store conn.old) tables → Kept tables → found.items ≡ map change_columns (prices_for tables serial.now)) }
    ensures answered { HasCleanDisk (state S.Store conn.new) → OnOk result (StillTells (state S.Store conn.old) (state S.Store conn.new)) }
    ensures refused { HasCleanDisk (state S.Store conn.new) → OnErr result (Stays (state S.Store conn.old) (state S.Store conn.new)) }
    ensures nothing { WritesNothing (state S.Store conn.old) (state S.Store conn.new) }
{
    let Some(name) = text(serial) else {
        return Err(unfit());
    };
    ask(conn, PRICES, name)
}

/// The columns of all rows, by serial, and whether the limit of each was raised. Nothing changes.
///
/// # Errors
///
/// Where the database refuses the statement.
pub fn find_rows<S: Alter>(conn: &mut Connection<S>) -> Result<Vec<Columns>, Error>
    ensures found { HasCleanDisk (state S.Store conn.new) → IfOk result (λ found. (tables : Tables) →
        Tells (state S.Store conn.old) tables → Kept tables → found.items ≡ map row_columns (all_rows tables)) }
    ensures answered { HasCleanDisk (state S.Store conn.new) → OnOk result (StillTells (state S.Store conn.old) (state S.Store conn.new)) }
    ensures refused { HasCleanDisk (state S.Store conn.new) → OnErr result (Stays (state S.Store conn.old) (state S.Store conn.new)) }
    ensures nothing { WritesNothing (state S.Store conn.old) (state S.Store conn.new) }
{
    conn.query_all(DEVICES, &[])
}
