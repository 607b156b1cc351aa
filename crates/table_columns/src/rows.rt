// Rows of devices.
ghost use Rattle.std.specs.Prelude.{◌≡◌, ◌≤◌, ◌<◌, ◌*◌, ◌^◌, ◌↔◌, true, Some, None, Err, IsTrue, IfSome, IsSomeAnd, IfOk, All, map};
ghost use Rattle.sqlite_value.specs.Order.{column};
ghost use Rattle.ledger_spec.specs.declared.KeeperFault.TheVariants.{Failed};
ghost use Rattle.ledger_spec.specs.Tables.{RowIsInRange, is_limit};
ghost use Rattle.table_columns.specs.Forms.{form_said};
ghost use Rattle.table_columns.specs.Said.{row_said, flag_in, form_in_column, limit_in};

use crate::columns::{key, name, number, number8, number16, number32};
use ledger_spec::{KeeperFault, Name, Row};
use paygo_spec::{Form, GREAT, LAST, is_divider};
use sqlite::Row as Columns;
use std::alloc::Global;

/// The row that twelve columns from this place on say: serial, secret, start, divider, form, price, total, paid, rest,
/// last, closed, and whether its limit was raised. None where one of them holds something else, or the row is out of range.
pub fn row_at(columns: &Columns, at: usize) -> Option<Row>
    requires { at ≤ 16 }
    ensures said { IfSome result (λ row. row_said at columns.now ≡ Some row) }
    ensures in_range { IfSome result RowIsInRange }
    ensures refused { result ≡ None → IfSome (row_said at columns.now) (λ row. ¬ RowIsInRange row) }
{
    let row = untested_row(columns, at)?;
    if is_in_range(&row) { Some(row) } else { None }
}

/// The form of the row that twelve columns from this place on say, as for `row_at`, where it is that of the serial.
pub fn form_at(columns: &Columns, at: usize, serial: &Name) -> Option<Form>
    requires { at ≤ 16 }
    ensures { IfSome result (λ form. form_said at serial.now columns.now ≡ Some form) }
{
    let row = row_at(columns, at)?;
    if !row.serial.same(serial) {
        return None;
    }
    Some(row.form)
}

// The row that the columns say, in range or not.
#[tactic(auto, unfolding(crate::specs::Said::row_said))]
fn untested_row(columns: &Columns, at: usize) -> Option<Row>
    requires { at ≤ 16 }
    ensures { result ≡ row_said at columns.now }
{
    Some(Row {
        serial: name(columns, at, 32)?,
        key: key(columns, at + 1)?,
        start: number32(columns, at + 2)?,
        divider: number8(columns, at + 3)?,
        form: form(columns, at + 4)?,
        price: number(columns, at + 5)?,
        total: number(columns, at + 6)?,
        paid: number(columns, at + 7)?,
        rest: number(columns, at + 8)?,
        last: number16(columns, at + 9)?,
        closed: flag(columns, at + 10)?,
        limit: limit(columns, at + 11)?,
    })
}

// The form in a column.
fn form(columns: &Columns, at: usize) -> Option<Form>
    ensures { result ≡ form_in_column (column columns.now at) }
{
    Form::of(number8(columns, at)?)
}

// The limit in a column, which says whether it was raised.
fn limit(columns: &Columns, at: usize) -> Option<u16>
    ensures { result ≡ limit_in (column columns.now at) }
{
    let raised = flag(columns, at)?;
    Some(if raised { GREAT } else { LAST })
}

// Whether a column says yes, which is 1, or no, which is 0.
fn flag(columns: &Columns, at: usize) -> Option<bool>
    ensures { result ≡ flag_in (column columns.now at) }
{
    match number(columns, at) {
        Some(0) => Some(false),
        Some(1) => Some(true),
        _ => None,
    }
}

// Whether the row is in range.
fn is_in_range(row: &Row) -> bool
    ensures { IsTrue result ↔ RowIsInRange row.now }
{
    row.serial.bytes().len() <= 16
        && row.start < 1_000_000_000
        && is_divider(u64::from(row.divider))
        && are_prices(row)
        && are_counts(row)
}

// Whether both prices and what is left over are in range.
fn are_prices(row: &Row) -> bool
    ensures { IsTrue result ↔ ((1 ≤ row.now.price) × (row.now.price ≤ 10 ^ 9) × (1 ≤ row.now.total)
        × (row.now.total ≤ 10 ^ 12) × (row.now.rest < 10 ^ 9)) }
{
    1 <= row.price
        && row.price <= 1_000_000_000
        && 1 <= row.total
        && row.total <= 1_000_000_000_000
        && row.rest < 1_000_000_000
}

// Whether the limit, the last count and what was paid are in range.
fn are_counts(row: &Row) -> bool
    ensures { IsTrue result ↔ ((is_limit row.now.limit ≡ true) × (row.now.last ≤ row.now.limit)
        × (row.now.paid ≤ row.now.last * 10 ^ 12)) }
{
    (row.limit == LAST || row.limit == GREAT)
        && row.last <= row.limit
        && row.paid <= u64::from(row.last) * 1_000_000_000_000
}

/// The rows that these columns say, in their order.
///
/// # Errors
///
/// `Failed` where one of them says no row, or one out of range; `Memory` where there is none.
#[tactic(auto, using(crate::proofs::Lists::said_more, crate::proofs::Lists::not_all))]
pub fn rows_of(alloc: Global, all: &[Columns]) -> Result<Vec<Row>, KeeperFault>
    ensures said { IfOk result (λ list. map Some list.items ≡ map (row_said 0) all.now) }
    ensures in_range { IfOk result (λ list. All RowIsInRange list.items) }
    ensures failed { result ≡ Err KeeperFault.Failed →
        ¬ (All (λ columns. IsSomeAnd (row_said 0 columns) RowIsInRange) all.now) }
{
    let mut rows = Vec::new(alloc);
    for columns in all {
        let Some(row) = row_at(columns, 0) else {
            return Err(KeeperFault::Failed);
        };
        if rows.push(row).is_err() {
            return Err(KeeperFault::Memory);
        }
    }
    Ok(rows)
}
