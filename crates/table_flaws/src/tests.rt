// What is found wrong with rows, by tokens that can be reckoned by hand. On the chain of the tests the token of a
// count and a value is 123,456,000 and 250,000 for each count, and then 789 and the value. So the tokens of the
// counts from 0 to 95 are those of the counts from 4,000 to 4,095 too.
ghost use Rattle.std.specs.Prelude.{◌≡◌, ◌≤◌, ◌<◌, ◌*◌, ◌^◌, true, length, All};
ghost use Rattle.ledger_spec.specs.Tables.{is_limit, RowIsInRange, OrderIsInRange, ChangeIsInRange, AskIsInRange};

use crate::{Flaw, flaws_of};
use ledger_spec::{Ask, Kind, Name, Order, PriceChange, Row};
use paygo_spec::Form;
use std::alloc::Global;
use std::process::Abort;
use token_chain::{Mixer, Stride};

mod flawed;
mod flawless;
mod lines;
mod shops;

/// What the tests see of a flaw: a letter for its kind, and the name in it.
fn seen_in(flaw: &Flaw) -> (u8, Name) {
    match flaw {
        Flaw::Count(id) => (b'c', *id),
        Flaw::Parity(id) => (b'p', *id),
        Flaw::Token(id) => (b't', *id),
        Flaw::Shared(id) => (b's', *id),
        Flaw::Booked(id) => (b'b', *id),
        Flaw::Price(serial) => (b'P', *serial),
        Flaw::Account(serial) => (b'A', *serial),
    }
}

fn name(rt: &impl Abort, text: &[u8]) -> Name
    ensures { length result ≤ 16 }
{
    Name::of(text, 16).expect(rt, "a name")
}

// The row of device A1, whose unit costs 50 at first.
fn row(rt: &impl Abort, paid: u64, rest: u64, last: u16, closed: bool) -> Row
    requires paid { paid ≤ last * 10 ^ 12 }
    requires rest { rest < 10 ^ 9 }
    requires last { last ≤ 4095 }
    ensures { RowIsInRange result }
{
    row_to(rt, 4095, paid, rest, last, closed)
}

// The same with another limit.
fn row_to(rt: &impl Abort, limit: u16, paid: u64, rest: u64, last: u16, closed: bool) -> Row
    requires limit { is_limit limit ≡ true }
    requires paid { paid ≤ last * 10 ^ 12 }
    requires rest { rest < 10 ^ 9 }
    requires last { last ≤ limit }
    ensures { RowIsInRange result }
{
    Row {
        serial: name(rt, b"A1"),
        key: [0; 16],
        start: 123_456_789,
        divider: 1,
        form: Form::Nine,
        price: 50,
        total: 100_000,
        paid,
        rest,
        last,
        limit,
        closed,
    }
}

// An order of the device.
fn order(
    rt: &impl Abort,
    id: &[u8],
    ask: Ask,
    kind: Kind,
    count: u16,
    value: u16,
    token: u32,
) -> Order
    requires ask { AskIsInRange ask }
    requires count { (1 ≤ count) × (count ≤ 16383) }
    requires value { value ≤ 999 }
    requires token { token < 10 ^ 9 }
    ensures { OrderIsInRange result }
{
    Order {
        id: name(rt, id),
        serial: name(rt, b"A1"),
        ask,
        kind,
        count,
        value,
        token,
    }
}

// A payment for seven units at the price of 50, whose token has so many.
fn paid(rt: &impl Abort, id: &[u8], count: u16, token: u32) -> Order
    requires count { (1 ≤ count) × (count ≤ 16383) }
    requires token { token < 10 ^ 9 }
    ensures { OrderIsInRange result }
{
    order(rt, id, Ask::Pay(350), Kind::Add, count, 7, token)
}

// A change of the device's price.
fn change(rt: &impl Abort, from: u16, price: u64) -> PriceChange
    requires from { from ≤ 16383 }
    requires price { (1 ≤ price) × (price ≤ 10 ^ 9) }
    ensures { ChangeIsInRange result }
{
    PriceChange {
        serial: name(rt, b"A1"),
        from,
        price,
    }
}

// These flaws are found, in this order, on the chain of the tests.
fn check(
    rt: &impl Abort,
    a: Global,
    row: &Row,
    orders: &[Order],
    changes: &[PriceChange],
    want: &[(u8, &[u8])],
)
    requires row { RowIsInRange row.now }
    requires orders { All OrderIsInRange orders.now }
    requires changes { All ChangeIsInRange changes.now }
{
    check_on::<Stride<250>>(rt, a, row, orders, changes, want);
}

// The same on another chain.
fn check_on<M: Mixer>(
    rt: &impl Abort,
    a: Global,
    row: &Row,
    orders: &[Order],
    changes: &[PriceChange],
    want: &[(u8, &[u8])],
)
    requires row { RowIsInRange row.now }
    requires orders { All OrderIsInRange orders.now }
    requires changes { All ChangeIsInRange changes.now }
{
    let found = flaws_of::<M>(a, row, orders, changes).expect(rt, "memory");
    assert_eq!(rt; found.len(), want.len());
    for i in 0..want.len() {
        let (letter, id) = seen_in(&found[i]);
        assert_eq!(rt; letter, want[i].0);
        assert!(rt; id.bytes() == want[i].1);
    }
}
