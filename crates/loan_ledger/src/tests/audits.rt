// Audits of the tables.
ghost use Rattle.std.specs.Prelude.{◌≡◌, ◌≤◌, ◌*◌};
ghost use Rattle.ledger_spec.specs.Tables.{RowIsInRange, OrderIsInRange};

use super::rows::Knot;
use super::*;
use crate::audit;
use ledger_keeper::Keeper;
use ledger_spec::{Ask, Order, Row};
use token_chain::Stride;

// Nine orders of one device, as they came to be kept: id, count and token. By count, the first, the fourth, the fifth
// and the ninth have a token of nobody.
const NINE: [(&[u8], u16, u32); 9] = [
    (b"f5", 10, 1),
    (b"i1", 2, 1),
    (b"b6", 12, 123_540_796),
    (b"a9", 18, 1),
    (b"c8", 16, 123_568_796),
    (b"h2", 4, 123_484_796),
    (b"g4", 8, 1),
    (b"d3", 6, 123_498_796),
    (b"e7", 14, 123_554_796),
];

// A row of a device.
fn row(rt: &impl Abort, serial: &[u8], paid: u64, last: u16) -> Row
    requires last { last ≤ 4095 }
    requires paid { paid ≤ last * 1000000000000 }
    ensures { RowIsInRange result }
{
    Row {
        serial: name(rt, serial),
        key: [0; 16],
        start: 123_456_789,
        divider: 1,
        form: Form::Nine,
        price: 50,
        total: 18_000,
        paid,
        rest: 0,
        last,
        limit: 4095,
        closed: false,
    }
}

// Seven orders of one device, whose tokens say five values, as they came to be kept: id, count, value and token. The
// second has a count that only a raised device takes. The fourth has the token of another value, and the seventh that of
// another count.
const VALUES: [(&[u8], u16, u16, u32); 7] = [
    (b"a1", 2, 1, 123_470_790),
    (b"b2", 4096, 2, 152_128_791),
    (b"c3", 6, 3, 123_498_792),
    (b"d4", 8, 4, 123_512_792),
    (b"e5", 10, 5, 123_526_794),
    (b"f6", 12, 1, 123_540_790),
    (b"g7", 14, 5, 123_526_794),
];

// An order of seven units.
fn sold(rt: &impl Abort, id: &[u8], row: &Row, count: u16, token: u32) -> Order
    requires { RowIsInRange row.now }
    ensures order { OrderIsInRange result }
    ensures serial { result.serial ≡ row.now.serial }
{
    sold_for(rt, id, row, count, 7, token)
}

// An order of so many units.
fn sold_for(rt: &impl Abort, id: &[u8], row: &Row, count: u16, value: u16, token: u32) -> Order
    requires { RowIsInRange row.now }
    ensures order { OrderIsInRange result }
    ensures serial { result.serial ≡ row.now.serial }
{
    assert!(rt; 1 <= count && count <= 16_383);
    assert!(rt; 1 <= value && value <= 999);
    assert!(rt; token < 1_000_000_000);
    Order {
        id: name(rt, id),
        serial: row.serial,
        ask: Ask::Pay(50 * u64::from(value)),
        kind: Kind::Add,
        count,
        value,
        token,
    }
}

// Gives a keeper a row, in two calls, as it may stand in the file of a shop.
fn hold_row(rt: &impl Abort, a: Global, k: &mut MemKeeper, row: &Row)
    requires { RowIsInRange row.now }
{
    let held = match k.device(a, &row.serial) {
        Ok(None) => k.add_device(a, row).is_ok(),
        _ => false,
    };
    assert!(rt; held);
}

// The same with an order of the row, in three calls.
fn hold_order(rt: &impl Abort, a: Global, k: &mut MemKeeper, row: &Row, order: &Order)
    requires row { RowIsInRange row.now }
    requires order { OrderIsInRange order.now }
    requires serial { order.now.serial ≡ row.now.serial }
{
    let known = k.device(a, &row.serial).expect(rt, "the row");
    assert!(rt; known.is_some());
    let held = match k.order(a, &order.id) {
        Ok(None) => k.add_order(a, order, row).is_ok(),
        _ => false,
    };
    assert!(rt; held);
}

// An audit finds so many rows, so many orders, and these ids.
fn check<M: Mixer>(
    rt: &impl Abort,
    a: Global,
    k: &mut MemKeeper,
    rows: u64,
    orders: u64,
    wrong: &[&[u8]],
) {
    let found = audit::<M, MemKeeper>(a, k).expect(rt, "an audit");
    assert_eq!(rt; (found.rows, found.orders), (rows, orders));
    assert_eq!(rt; found.wrong.len(), wrong.len());
    for i in 0..wrong.len() {
        assert!(rt; found.wrong[i].bytes() == wrong[i]);
    }
}

#[test]
fn a_token_that_was_changed(rt: HostRuntime) {
    let a = rt.alloc();
    let k = &mut MemKeeper::new(a);
    check::<Stride<7>>(&rt, a, k, 0, 0, &[]);
    let t = &mut Tables::<Stride<7>>::new(a).expect(&rt, "memory");
    told!(&rt, a, k, t;
        enrol(&rt, b"A1", 50, 18_000) => Seen::Row(0, 0, 0, false),
        pay(&rt, b"p1", b"A1", 350) => Seen::Order(Kind::Add, 2, 7, 123_470_796),
    );
    check::<Stride<7>>(&rt, a, k, 1, 1, &[]);
    // The same row and the same order, but for its token.
    let other = &mut MemKeeper::new(a);
    let row = row(&rt, b"A1", 350, 2);
    hold_row(&rt, a, other, &row);
    hold_order(&rt, a, other, &row, &sold(&rt, b"p1", &row, 2, 1));
    check::<Stride<7>>(&rt, a, other, 1, 1, &[b"p1"]);
}

#[test]
fn a_token_of_two_counts(rt: HostRuntime) {
    let a = rt.alloc();
    let k = &mut MemKeeper::new(a);
    let row = row(&rt, b"A1", 700, 4);
    hold_row(&rt, a, k, &row);
    hold_order(&rt, a, k, &row, &sold(&rt, b"p2", &row, 4, 123_484_796));
    check::<Knot>(&rt, a, k, 1, 1, &[]);
    hold_order(&rt, a, k, &row, &sold(&rt, b"p1", &row, 2, 123_470_796));
    // On the one chain count 700 has that token too, on the other none has.
    check::<Knot>(&rt, a, k, 1, 2, &[b"p1"]);
    check::<Stride<7>>(&rt, a, k, 1, 2, &[]);
}

#[test]
fn nine_orders_of_one_device(rt: HostRuntime) {
    let a = rt.alloc();
    let k = &mut MemKeeper::new(a);
    let row = row(&rt, b"A1", 3150, 18);
    hold_row(&rt, a, k, &row);
    for (id, count, token) in NINE {
        hold_order(&rt, a, k, &row, &sold(&rt, id, &row, count, token));
    }
    check::<Stride<7>>(&rt, a, k, 1, 9, &[b"i1", b"g4", b"f5", b"a9"]);
}

#[test]
fn orders_of_five_values(rt: HostRuntime) {
    let a = rt.alloc();
    let k = &mut MemKeeper::new(a);
    let row = row(&rt, b"A1", 1050, 14);
    hold_row(&rt, a, k, &row);
    for (id, count, value, token) in VALUES {
        let order = sold_for(&rt, id, &row, count, value, token);
        hold_order(&rt, a, k, &row, &order);
    }
    check::<Stride<7>>(&rt, a, k, 1, 7, &[b"d4", b"g7"]);
}

// Gives a keeper two devices, in thirteen calls. Each has a wrong order, and one has a right one beside it.
fn hold_two(rt: &impl Abort, a: Global, k: &mut MemKeeper) {
    let later = row(rt, b"B2", 350, 2);
    let first = row(rt, b"A1", 700, 4);
    hold_row(rt, a, k, &later);
    hold_row(rt, a, k, &first);
    hold_order(rt, a, k, &later, &sold(rt, b"a1", &later, 2, 1));
    hold_order(rt, a, k, &first, &sold(rt, b"z1", &first, 4, 1));
    hold_order(rt, a, k, &first, &sold(rt, b"m1", &first, 2, 123_470_796));
}

#[test]
fn two_devices_by_serial(rt: HostRuntime) {
    let a = rt.alloc();
    let k = &mut MemKeeper::new(a);
    hold_two(&rt, a, k);
    check::<Stride<7>>(&rt, a, k, 2, 3, &[b"z1", b"a1"]);
}

#[test]
fn each_call_of_an_audit_fails_once(rt: HostRuntime) {
    let a = rt.alloc();
    // The rows, and the orders of each of the two.
    for call in 14..17 {
        let k = &mut MemKeeper::new(a);
        hold_two(&rt, a, k);
        k.fail_at(call, true);
        let failed = match audit::<Stride<7>, MemKeeper>(a, k) {
            Err(LedgerFault::Keeper) => true,
            _ => false,
        };
        assert!(rt; failed);
        check::<Stride<7>>(&rt, a, k, 2, 3, &[b"z1", b"a1"]);
    }
}
