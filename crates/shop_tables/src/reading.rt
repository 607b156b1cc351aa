// The row of a serial and the order with an id, as columns.
ghost use Rattle.std.specs.Prelude.{◌≡◌, ◌++◌, None, Some, [], ◌∷◌, IfOk, OnOk, OnErr};
ghost use Rattle.sqlite.specs.Held.{state};
ghost use Rattle.sqlite.specs.State.{HasCleanDisk};
ghost use Rattle.ledger_spec.specs.declared.Row.{Row};
ghost use Rattle.ledger_spec.specs.declared.Order.{Order};
ghost use Rattle.ledger_spec.specs.Tables.{Tables, Kept, row_of, order_of};
ghost use Rattle.shop_tables.specs.Stored.{order_columns, row_columns};
ghost use Rattle.shop_tables.specs.Telling.{Tells, StillTells, Stays, WritesNothing};

use crate::query::ask;
use crate::statements::{DEVICE, ORDER};
use crate::values::{text, unfit};
use ledger_spec::Name;
use sqlite::{Alter, Connection, Error, Row as Columns};

/// The columns of the row of the serial, if there is one, and whether its limit was raised. Nothing changes.
///
/// # Errors
///
/// Where the database refuses the statement.
pub fn find_device<S: Alter>(conn: &mut Connection<S>, serial: &Name) -> Result<Vec<Columns>, Error>
    ensures none { HasCleanDisk (state S.Store conn.new) → IfOk result (λ found. (tables : Tables) →
        Tells (state S.Store conn.old) tables → row_of tables serial.now ≡ None → found.items ≡ []) }
    ensures one { HasCleanDisk (state S.Store conn.new) → IfOk result (λ found. (tables : Tables) →
        Tells (state S.Store conn.old) tables → Kept tables → (row : Row) → row_of tables serial.now ≡ Some row →
        found.items ≡ row_columns row ∷ []) }
    ensures answered { HasCleanDisk (state S.Store conn.new) → OnOk result (StillTells (state S.Store conn.old) (state S.Store conn.new)) }
    ensures refused { HasCleanDisk (state S.Store conn.new) → OnErr result (Stays (state S.Store conn.old) (state S.Store conn.new)) }
    ensures nothing { WritesNothing (state S.Store conn.old) (state S.Store conn.new) }
{
    let Some(name) = text(serial) else {
        return Err(unfit());
    };
    ask(conn, DEVICE, name)
}

/// The columns of the order with the id, if there is one, and behind them those of the row of its device. Nothing changes.
///
/// # Errors
///
/// As for `find_device`.
pub fn find_order<S: Alter>(conn: &mut Connection<S>, id: &Name) -> Result<Vec<Columns>, Error>
    ensures none { HasCleanDisk (state S.Store conn.new) → IfOk result (λ found. (tables : Tables) →
        Tells (state S.Store conn.old) tables → order_of tables id.now ≡ None → found.items ≡ []) }
    ensures one { HasCleanDisk (state S.Store conn.new) → IfOk result (λ found. (tables : Tables) →
        Tells (state S.Store conn.old) tables → Kept tables → (order : Order) → order_of tables id.now ≡ Some order →
        (row : Row) → row_of tables order.serial ≡ Some row → found.items ≡ (order_columns order ++ row_columns row) ∷ []) }
    ensures answered { HasCleanDisk (state S.Store conn.new) → OnOk result (StillTells (state S.Store conn.old) (state S.Store conn.new)) }
    ensures refused { HasCleanDisk (state S.Store conn.new) → OnErr result (Stays (state S.Store conn.old) (state S.Store conn.new)) }
    ensures nothing { WritesNothing (state S.Store conn.old) (state S.Store conn.new) }
{
    let Some(name) = text(id) else {
        return Err(unfit());
    };
    ask(conn, ORDER, name)
}
