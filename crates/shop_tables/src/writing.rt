// The calls that write, each in one transaction.
ghost use Rattle.std.specs.Prelude.{◌≡◌, None, IsSome, OnOk, OnErr};
ghost use Rattle.sqlite.specs.Held.{state};
ghost use Rattle.sqlite.specs.State.{HasCleanDisk};
ghost use Rattle.paygo_spec.specs.declared.TheConstants.{LAST, GREAT};
ghost use Rattle.ledger_spec.specs.Tables.{Tables, row_of, with_row, with_order, with_raised, with_lifted, with_change, RowIsInRange};
ghost use Rattle.shop_tables.specs.Telling.{Wrote, Stays, WritesWhole};

use crate::statements::{ADD_DEVICE, ADD_ORDER, ADD_PRICE, PUT_DEVICE, RAISE, SKIP};
use crate::values::{
    asked_of, change_values, device_values, lifted_values, number, order_values, put_values,
    serial_values, sums_of, text, unfit,
};
use ledger_spec::{Name, Order, PriceChange, Row};
use paygo_spec::LAST;
use sqlite::{Alter, Connection, Error, ErrorCode};

// What a write comes to while another transaction hasn't ended.
fn unended() -> Error {
    Error::SqliteFailure(ErrorCode::TransactionState)
}

// What a write comes to that finds no row to change.
fn no_row() -> Error {
    Error::QueryReturnedNoRows
}

/// Adds an order, and puts the row in the place of that of its serial, in one transaction.
///
/// # Errors
///
/// `QueryReturnedNoRows` where there is no row with its serial and its limit, and what the database says where it refuses the
/// order, as where the id has one. Nothing changes then, unless the disk failed, which shuts the connection. After that, and
/// after a crash, the file has the whole change or nothing of it.
pub fn add_order<S: Alter>(conn: &mut Connection<S>, order: &Order, row: &Row) -> Result<(), Error>
    ensures done { HasCleanDisk (state S.Store conn.new) → OnOk result (
        Wrote (λ tables. RowIsInRange row.now × IsSome (row_of tables row.now.serial)) (with_order order.now row.now)
        (state S.Store conn.old) (state S.Store conn.new)) }
    ensures refused { HasCleanDisk (state S.Store conn.new) → OnErr result (
        Stays (state S.Store conn.old) (state S.Store conn.new)) }
    ensures whole { WritesWhole (λ tables. RowIsInRange row.now × IsSome (row_of tables row.now.serial))
        (with_order order.now row.now) (state S.Store conn.old) (state S.Store conn.new) }
{
    let (Some(id), Some(serial)) = (text(&order.id), text(&order.serial)) else {
        return Err(unfit());
    };
    let (Some(of_row), Some(asked), Some(sums)) = (text(&row.serial), asked_of(order), sums_of(row))
    else {
        return Err(unfit());
    };
    if !conn.is_autocommit() {
        return Err(unended());
    }
    let mut tx = conn.transaction();
    tx.execute(ADD_ORDER, &order_values(id, serial, asked, order))?;
    if tx.execute(PUT_DEVICE, &put_values(of_row, sums, row))? != 1 {
        return Err(no_row());
    }
    tx.commit()
}

/// Raises the limit of the row of the serial, which has one.
///
/// # Errors
///
/// As for `add_order`: where the serial has no row, or is raised.
pub fn raise<S: Alter>(conn: &mut Connection<S>, serial: &Name) -> Result<(), Error>
    ensures done { HasCleanDisk (state S.Store conn.new) → OnOk result (
        Wrote (λ tables. IsSome (row_of tables serial.now)) (with_raised serial.now) (state S.Store conn.old) (state S.Store conn.new)) }
    ensures refused { HasCleanDisk (state S.Store conn.new) → OnErr result (
        Stays (state S.Store conn.old) (state S.Store conn.new)) }
    ensures whole { WritesWhole (λ tables. IsSome (row_of tables serial.now)) (with_raised serial.now)
        (state S.Store conn.old) (state S.Store conn.new) }
{
    let Some(text) = text(serial) else {
        return Err(unfit());
    };
    if !conn.is_autocommit() {
        return Err(unended());
    }
    let mut tx = conn.transaction();
    tx.execute(RAISE, &serial_values(text, serial))?;
    tx.commit()
}

/// Lifts the last count of the row of the serial.
///
/// # Errors
///
/// As for `add_order`: `QueryReturnedNoRows` where the serial has no row with a lower last count.
pub fn skip<S: Alter>(conn: &mut Connection<S>, serial: &Name, to: u16) -> Result<(), Error>
    ensures done { HasCleanDisk (state S.Store conn.new) → OnOk result (
        Wrote (λ tables. IsSome (row_of tables serial.now)) (with_lifted to serial.now) (state S.Store conn.old) (state S.Store conn.new)) }
    ensures refused { HasCleanDisk (state S.Store conn.new) → OnErr result (
        Stays (state S.Store conn.old) (state S.Store conn.new)) }
    ensures whole { WritesWhole (λ tables. IsSome (row_of tables serial.now)) (with_lifted to serial.now)
        (state S.Store conn.old) (state S.Store conn.new) }
{
    let Some(text) = text(serial) else {
        return Err(unfit());
    };
    if !conn.is_autocommit() {
        return Err(unended());
    }
    let mut tx = conn.transaction();
    if tx.execute(SKIP, &lifted_values(text, serial, to))? != 1 {
        return Err(no_row());
    }
    tx.commit()
}

/// Adds a change of a price.
///
/// # Errors
///
/// As for `add_order`: where the serial has no row, or a change from that count on.
pub fn add_price<S: Alter>(conn: &mut Connection<S>, change: &PriceChange) -> Result<(), Error>
    ensures done { HasCleanDisk (state S.Store conn.new) → OnOk result (
        Wrote (λ _. Unit {0}) (with_change change.now) (state S.Store conn.old) (state S.Store conn.new)) }
    ensures refused { HasCleanDisk (state S.Store conn.new) → OnErr result (
        Stays (state S.Store conn.old) (state S.Store conn.new)) }
    ensures whole { WritesWhole (λ _. Unit {0}) (with_change change.now)
        (state S.Store conn.old) (state S.Store conn.new) }
{
    let (Some(serial), Some(price)) = (text(&change.serial), number(change.price)) else {
        return Err(unfit());
    };
    if !conn.is_autocommit() {
        return Err(unended());
    }
    let mut tx = conn.transaction();
    tx.execute(ADD_PRICE, &change_values(serial, price, change))?;
    tx.commit()
}

// Adds a row with the lower limit.
fn add_low<S: Alter>(conn: &mut Connection<S>, row: &Row) -> Result<(), Error>
    ensures done { HasCleanDisk (state S.Store conn.new) → OnOk result (
        Wrote (λ tables. (row.now.limit ≡ LAST) × (row_of tables row.now.serial ≡ None)) (with_row row.now)
        (state S.Store conn.old) (state S.Store conn.new)) }
    ensures refused { HasCleanDisk (state S.Store conn.new) → OnErr result (
        Stays (state S.Store conn.old) (state S.Store conn.new)) }
    ensures whole { WritesWhole (λ tables. (row.now.limit ≡ LAST) × (row_of tables row.now.serial ≡ None)) (with_row row.now)
        (state S.Store conn.old) (state S.Store conn.new) }
{
    let (Some(serial), Some(sums)) = (text(&row.serial), sums_of(row)) else {
        return Err(unfit());
    };
    if !conn.is_autocommit() {
        return Err(unended());
    }
    let mut tx = conn.transaction();
    tx.execute(ADD_DEVICE, &device_values(serial, sums, row))?;
    tx.commit()
}

// Adds a row with the greater limit, and its serial to the raised ones, in one transaction.
fn add_raised<S: Alter>(conn: &mut Connection<S>, row: &Row) -> Result<(), Error>
    ensures done { HasCleanDisk (state S.Store conn.new) → OnOk result (
        Wrote (λ tables. (row.now.limit ≡ GREAT) × (row_of tables row.now.serial ≡ None)) (with_row row.now)
        (state S.Store conn.old) (state S.Store conn.new)) }
    ensures refused { HasCleanDisk (state S.Store conn.new) → OnErr result (
        Stays (state S.Store conn.old) (state S.Store conn.new)) }
    ensures whole { WritesWhole (λ tables. (row.now.limit ≡ GREAT) × (row_of tables row.now.serial ≡ None)) (with_row row.now)
        (state S.Store conn.old) (state S.Store conn.new) }
{
    let (Some(serial), Some(sums)) = (text(&row.serial), sums_of(row)) else {
        return Err(unfit());
    };
    if !conn.is_autocommit() {
        return Err(unended());
    }
    let mut tx = conn.transaction();
    tx.execute(ADD_DEVICE, &device_values(serial, sums, row))?;
    tx.execute(RAISE, &serial_values(serial, &row.serial))?;
    tx.commit()
}

/// Adds a row. Where its limit isn't the lower one, its serial is added to the raised ones in the same transaction.
///
/// # Errors
///
/// As for `add_order`: where the serial has a row.
pub fn add_device<S: Alter>(conn: &mut Connection<S>, row: &Row) -> Result<(), Error>
    ensures done { HasCleanDisk (state S.Store conn.new) → OnOk result (
        Wrote (λ tables. RowIsInRange row.now × (row_of tables row.now.serial ≡ None)) (with_row row.now)
        (state S.Store conn.old) (state S.Store conn.new)) }
    ensures refused { HasCleanDisk (state S.Store conn.new) → OnErr result (
        Stays (state S.Store conn.old) (state S.Store conn.new)) }
    ensures whole { WritesWhole (λ tables. RowIsInRange row.now × (row_of tables row.now.serial ≡ None)) (with_row row.now)
        (state S.Store conn.old) (state S.Store conn.new) }
{
    if row.limit == LAST {
        add_low(conn, row)
    } else {
        add_raised(conn, row)
    }
}
