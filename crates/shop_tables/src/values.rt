// What the statements are given for a row, an order and a change of a price.
ghost use Rattle.std.specs.Prelude.{◌≡◌, pos, IfSome};
ghost use Rattle.sqlite.specs.Values.{bound};
ghost use Rattle.paygo_spec.specs.Digits.{digit_count};
ghost use Rattle.table_columns.specs.Said.{asked_code};
ghost use Rattle.shop_tables.specs.Stored.{device_columns, order_columns, change_columns, raised_columns, lifted_columns, row_columns};
ghost use Rattle.shop_tables.specs.Sums.{AreSums};

use ledger_spec::{Name, Order, PriceChange, Row};
use paygo_spec::{Form, LAST};
use sqlite::types::{ToSql, ValueRef};
use sqlite::{Error, ErrorCode};
use table_columns::{ask_number, asked_number, kind_number};

// What a call comes to whose values the database has no room for. No name and no value in range is one.
pub(crate) fn unfit() -> Error {
    Error::SqliteFailure(ErrorCode::TypeMismatch)
}

// The name as a text. A name is always one.
pub(crate) fn text(name: &Name) -> Option<&str>
    ensures { IfSome result (λ text. text.now ≡ name.now) }
{
    std::str::from_utf8(name.bytes()).ok()
}

// The number as the database has it, if it isn't too great for it.
pub(crate) fn number(n: u64) -> Option<i64>
    ensures { IfSome result (λ value. value ≡ pos n) }
{
    i64::try_from(n).ok()
}

// The number of digits of a form.
fn form_number(form: Form) -> i64
    ensures { result ≡ pos (digit_count form) }
{
    match form {
        Form::Nine => 9,
        Form::Fifteen => 15,
    }
}

// The sums of a row, as the database has them.
#[derive(Clone, Copy)]
pub(crate) struct Sums {
    price: i64,
    total: i64,
    paid: i64,
    rest: i64,
}

// The sums of this row, if none is too great for the database.
pub(crate) fn sums_of(row: &Row) -> Option<Sums>
    ensures { IfSome result (AreSums row.now) }
{
    Some(Sums {
        price: number(row.price)?,
        total: number(row.total)?,
        paid: number(row.paid)?,
        rest: number(row.rest)?,
    })
}

// The number asked, if it isn't too great for the database.
pub(crate) fn asked_of(order: &Order) -> Option<i64>
    ensures { IfSome result (λ asked. asked ≡ pos (asked_code order.now.ask)) }
{
    number(asked_number(order.ask))
}

// A serial, for the statement that raises its limit.
pub(crate) fn serial_values<'a>(text: &'a str, serial: &Name) -> [ValueRef<'a>; 1]
    requires { text.now ≡ serial.now }
    ensures { bound result ≡ raised_columns serial.now }
{
    [text.to_sql()]
}

// A serial and a count, for the statement that lifts the last count of its row.
pub(crate) fn lifted_values<'a>(text: &'a str, serial: &Name, to: u16) -> [ValueRef<'a>; 2]
    requires { text.now ≡ serial.now }
    ensures { bound result ≡ lifted_columns serial.now to }
{
    [text.to_sql(), u32::from(to).to_sql()]
}

// An order, for the statement that adds it.
pub(crate) fn order_values<'a>(
    id: &'a str,
    serial: &'a str,
    asked: i64,
    order: &Order,
) -> [ValueRef<'a>; 8]
    requires id { id.now ≡ order.now.id }
    requires serial { serial.now ≡ order.now.serial }
    requires asked { asked ≡ pos (asked_code order.now.ask) }
    ensures { bound result ≡ order_columns order.now }
{
    [
        id.to_sql(),
        serial.to_sql(),
        ask_number(order.ask).to_sql(),
        asked.to_sql(),
        kind_number(order.kind).to_sql(),
        u32::from(order.count).to_sql(),
        u32::from(order.value).to_sql(),
        order.token.to_sql(),
    ]
}

// A row, for the statement that adds it.
pub(crate) fn device_values<'a>(serial: &'a str, sums: Sums, row: &'a Row) -> [ValueRef<'a>; 11]
    requires serial { serial.now ≡ row.now.serial }
    requires sums { AreSums row.now sums }
    ensures { bound result ≡ device_columns row.now }
{
    let key: &[u8] = &row.key;
    [
        serial.to_sql(),
        key.to_sql(),
        row.start.to_sql(),
        u32::from(row.divider).to_sql(),
        form_number(row.form).to_sql(),
        sums.price.to_sql(),
        sums.total.to_sql(),
        sums.paid.to_sql(),
        sums.rest.to_sql(),
        u32::from(row.last).to_sql(),
        row.closed.to_sql(),
    ]
}

// A row, and whether its limit was raised, for the statement that puts it in the place of another.
pub(crate) fn put_values<'a>(serial: &'a str, sums: Sums, row: &'a Row) -> [ValueRef<'a>; 12]
    requires serial { serial.now ≡ row.now.serial }
    requires sums { AreSums row.now sums }
    ensures { bound result ≡ row_columns row.now }
{
    let key: &[u8] = &row.key;
    [
        serial.to_sql(),
        key.to_sql(),
        row.start.to_sql(),
        u32::from(row.divider).to_sql(),
        form_number(row.form).to_sql(),
        sums.price.to_sql(),
        sums.total.to_sql(),
        sums.paid.to_sql(),
        sums.rest.to_sql(),
        u32::from(row.last).to_sql(),
        row.closed.to_sql(),
        (row.limit != LAST).to_sql(),
    ]
}

// A change of a price, for the statement that adds it.
pub(crate) fn change_values<'a>(
    serial: &'a str,
    price: i64,
    change: &PriceChange,
) -> [ValueRef<'a>; 3]
    requires serial { serial.now ≡ change.now.serial }
    requires price { price ≡ pos change.now.price }
    ensures { bound result ≡ change_columns change.now }
{
    [
        serial.to_sql(),
        u32::from(change.from).to_sql(),
        price.to_sql(),
    ]
}
