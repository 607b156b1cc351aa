// Orders.
ghost use Rattle.std.specs.Prelude.{◌≡◌, ◌≤◌, ◌↔◌, pos, Some, None, Err, IsTrue, IfSome, IsSomeAnd, IfOk, All, map};
ghost use Rattle.ledger_spec.specs.declared.KeeperFault.TheVariants.{Failed};
ghost use Rattle.ledger_spec.specs.Tables.{OrderIsInRange, AskIsInRange};
ghost use Rattle.table_columns.specs.Said.{order_said, ask_in, ask_code, asked_code, kind_in, kind_code};

use crate::columns::{name, number, number16, number32};
use ledger_spec::{Ask, KeeperFault, Kind, Order};
use paygo_spec::GREAT;
use sqlite::Row as Columns;
use std::alloc::Global;

/// The order that the first eight columns say: id, serial, ask, asked, kind, count, value and token. None where one of them
/// holds something else, or the order is out of range.
pub fn order_at(columns: &Columns) -> Option<Order>
    ensures said { IfSome result (λ order. order_said columns.now ≡ Some order) }
    ensures in_range { IfSome result OrderIsInRange }
    ensures refused { result ≡ None → IfSome (order_said columns.now) (λ order. ¬ OrderIsInRange order) }
{
    let order = untested_order(columns)?;
    if is_in_range(&order) {
        Some(order)
    } else {
        None
    }
}

// The order that the columns say, in range or not.
#[tactic(auto, unfolding(crate::specs::Said::order_said))]
fn untested_order(columns: &Columns) -> Option<Order>
    ensures { result ≡ order_said columns.now }
{
    Some(Order {
        id: name(columns, 0, 32)?,
        serial: name(columns, 1, 32)?,
        ask: ask_of(number(columns, 2)?, number(columns, 3)?)?,
        kind: kind_of(number(columns, 4)?)?,
        count: number16(columns, 5)?,
        value: number16(columns, 6)?,
        token: number32(columns, 7)?,
    })
}

// What is asked, by its number and the number asked.
fn ask_of(ask: u64, asked: u64) -> Option<Ask>
    ensures { result ≡ ask_in ask asked }
{
    match ask {
        0 => Some(Ask::Pay(asked)),
        1 => Some(Ask::Set(u16::try_from(asked).ok()?)),
        2 => Some(Ask::Disable),
        3 => Some(Ask::Sync),
        _ => None,
    }
}

/// The number in the column `ask`: 0 to pay, 1 to set, 2 to disable, 3 to sync.
pub fn ask_number(ask: Ask) -> i64
    ensures { result ≡ pos (ask_code ask) }
{
    match ask {
        Ask::Pay(_) => 0,
        Ask::Set(_) => 1,
        Ask::Disable => 2,
        Ask::Sync => 3,
    }
}

/// The number in the column `asked`: the amount or the units, and 0 where neither is asked.
pub fn asked_number(ask: Ask) -> u64
    ensures number { result ≡ asked_code ask }
    ensures read_back { ask_in (ask_code ask) result ≡ Some ask }
{
    match ask {
        Ask::Pay(amount) => amount,
        Ask::Set(units) => u64::from(units),
        Ask::Disable | Ask::Sync => 0,
    }
}

// What a token does, by its number.
fn kind_of(kind: u64) -> Option<Kind>
    ensures { result ≡ kind_in kind }
{
    match kind {
        0 => Some(Kind::Add),
        1 => Some(Kind::Set),
        2 => Some(Kind::Disable),
        3 => Some(Kind::Sync),
        _ => None,
    }
}

/// The number in the column `kind`: 0 to add, 1 to set, 2 to disable, 3 to sync.
pub fn kind_number(kind: Kind) -> i64
    ensures number { result ≡ pos (kind_code kind) }
    ensures read_back { kind_in (kind_code kind) ≡ Some kind }
{
    match kind {
        Kind::Add => 0,
        Kind::Set => 1,
        Kind::Disable => 2,
        Kind::Sync => 3,
    }
}

// Whether what is asked is in range.
fn ask_is_in_range(ask: &Ask) -> bool
    ensures { IsTrue result ↔ AskIsInRange ask.now }
{
    match ask {
        Ask::Pay(amount) => 1 <= *amount && *amount <= 1_000_000_000_000,
        Ask::Set(units) => *units <= 995,
        Ask::Disable | Ask::Sync => true,
    }
}

// Whether the order is in range.
fn is_in_range(order: &Order) -> bool
    ensures { IsTrue result ↔ OrderIsInRange order.now }
{
    order.serial.bytes().len() <= 16
        && ask_is_in_range(&order.ask)
        && 1 <= order.count
        && order.count <= GREAT
        && order.value <= 999
        && order.token < 1_000_000_000
}

/// The orders that these columns say, in their order.
///
/// # Errors
///
/// `Failed` where one of them says no order, or one out of range; `Memory` where there is none.
#[tactic(auto, using(crate::proofs::Lists::said_more, crate::proofs::Lists::not_all))]
pub fn orders_of(alloc: Global, all: &[Columns]) -> Result<Vec<Order>, KeeperFault>
    ensures said { IfOk result (λ list. map Some list.items ≡ map order_said all.now) }
    ensures in_range { IfOk result (λ list. All OrderIsInRange list.items) }
    ensures failed { result ≡ Err KeeperFault.Failed →
        ¬ (All (λ columns. IsSomeAnd (order_said columns) OrderIsInRange) all.now) }
{
    let mut orders = Vec::new(alloc);
    for columns in all {
        let Some(order) = order_at(columns) else {
            return Err(KeeperFault::Failed);
        };
        if orders.push(order).is_err() {
            return Err(KeeperFault::Memory);
        }
    }
    Ok(orders)
}
