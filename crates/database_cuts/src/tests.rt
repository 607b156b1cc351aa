// What a disk that fails at each call in turn leaves of the shop's tables, and what the next open finds.
ghost use Rattle.std.specs.Prelude.{◌≤◌, length};

mod files;
mod orders;

use files::{Copies, left, opened};
use keeper_sqlite::TablesOver;
use ledger_spec::{Ask, Kind, Name, Order, Row};
use paygo_spec::{Form, GREAT, LAST};
use std::alloc::Global;
use std::process::Abort;

fn name(rt: &impl Abort, text: &[u8]) -> Name
    ensures { length result ≤ 16 }
{
    Name::of(text, 16).expect(rt, "a name")
}

// The row of a device that was just sold.
fn sold(rt: &impl Abort, limit: u16) -> Row {
    Row {
        serial: name(rt, b"A1"),
        key: [1, 2, 3, 4, 5, 6, 7, 8, 9, 10, 11, 12, 13, 14, 15, 16],
        start: 123_456_789,
        divider: 24,
        form: Form::Nine,
        price: 50,
        total: 18_000,
        paid: 0,
        rest: 0,
        last: 0,
        limit,
        closed: false,
    }
}

// The row of it after the order below.
fn paid(rt: &impl Abort) -> Row {
    Row {
        last: 2,
        paid: 350,
        ..sold(rt, LAST)
    }
}

fn order(rt: &impl Abort) -> Order {
    Order {
        id: name(rt, b"p1"),
        serial: name(rt, b"A1"),
        ask: Ask::Pay(350),
        kind: Kind::Add,
        count: 2,
        value: 7,
        token: 700_002_007,
    }
}
