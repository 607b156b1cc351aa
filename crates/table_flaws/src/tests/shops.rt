// What is found wrong in the tables of a whole shop.
ghost use Rattle.std.specs.Prelude.{◌≡◌, ◌≤◌, ◌<◌, ◌*◌, ◌^◌};
ghost use Rattle.ledger_spec.specs.Tables.{RowIsInRange, OrderIsInRange, ChangeIsInRange};

use super::*;
use crate::sound;
use ledger_keeper::{Keeper, MemKeeper};
use ledger_spec::LedgerFault;

// The row of a device with a key of its own.
fn device(rt: &impl Abort, serial: &[u8], key: u8, start: u32, paid: u64, last: u16) -> Row
    requires start { start < 10 ^ 9 }
    requires paid { paid ≤ last * 10 ^ 12 }
    requires last { last ≤ 4095 }
    ensures { RowIsInRange result }
{
    Row {
        serial: name(rt, serial),
        key: [key; 16],
        start,
        divider: 1,
        form: Form::Nine,
        price: 50,
        total: 100_000,
        paid,
        rest: 0,
        last,
        limit: 4095,
        closed: false,
    }
}

// A row of the chain of the tests.
fn known(rt: &impl Abort, serial: &[u8], key: u8, paid: u64, last: u16) -> Row
    requires paid { paid ≤ last * 10 ^ 12 }
    requires last { last ≤ 4095 }
    ensures { RowIsInRange result }
{
    device(rt, serial, key, 123_456_789, paid, last)
}

// Gives a keeper a row, in two calls.
fn hold_row(rt: &impl Abort, a: Global, k: &mut MemKeeper, row: &Row)
    requires { RowIsInRange row.now }
{
    let held = match k.device(a, &row.serial) {
        Ok(None) => k.add_device(a, row).is_ok(),
        _ => false,
    };
    assert!(rt; held);
}

// Gives a keeper an order of a row that it has, in three calls.
fn hold_order(rt: &impl Abort, a: Global, k: &mut MemKeeper, row: &Row, order: Order)
    requires row { RowIsInRange row.now }
    requires order { OrderIsInRange order }
{
    let mut own = order;
    own.serial = row.serial;
    let known = k.device(a, &row.serial).expect(rt, "the row");
    assert!(rt; known.is_some());
    let held = match k.order(a, &own.id) {
        Ok(None) => k.add_order(a, &own, row).is_ok(),
        _ => false,
    };
    assert!(rt; held);
}

// Gives a keeper the first change of the price of a row that it has, in three calls.
fn hold_change(rt: &impl Abort, a: Global, k: &mut MemKeeper, row: &Row, change: PriceChange)
    requires row { RowIsInRange row.now }
    requires change { ChangeIsInRange change }
{
    let mut own = change;
    own.serial = row.serial;
    let known = k.device(a, &row.serial).expect(rt, "the row");
    assert!(rt; known.is_some());
    let earlier = k.prices_of(a, &row.serial).expect(rt, "the changes");
    assert!(rt; earlier.len() == 0);
    assert!(rt; k.add_price(a, &own).is_ok());
}

// A check finds so many rows, so many orders, these flaws and these twins.
fn check_shop(
    rt: &impl Abort,
    a: Global,
    k: &mut MemKeeper,
    counts: (u64, u64),
    flaws: &[(u8, &[u8])],
    twins: &[(&[u8], &[u8])],
) {
    let found = sound::<Stride<250>, MemKeeper>(a, k).expect(rt, "a check");
    assert_eq!(rt; (found.rows, found.orders), counts);
    assert_eq!(rt; found.flaws.len(), flaws.len());
    for i in 0..flaws.len() {
        let (letter, id) = seen_in(&found.flaws[i]);
        assert_eq!(rt; letter, flaws[i].0);
        assert!(rt; id.bytes() == flaws[i].1);
    }
    assert_eq!(rt; found.twins.len(), twins.len());
    for i in 0..twins.len() {
        assert!(rt; found.twins[i].first.bytes() == twins[i].0);
        assert!(rt; found.twins[i].second.bytes() == twins[i].1);
    }
}

#[test]
fn a_shop_with_no_device(rt: HostRuntime) {
    let a = rt.alloc();
    check_shop(&rt, a, &mut MemKeeper::new(a), (0, 0), &[], &[]);
}

#[test]
fn two_devices_with_nothing_wrong(rt: HostRuntime) {
    let a = rt.alloc();
    let k = &mut MemKeeper::new(a);
    let later = known(&rt, b"B2", 2, 700, 102);
    let first = known(&rt, b"A1", 1, 350, 100);
    hold_row(&rt, a, k, &later);
    hold_row(&rt, a, k, &first);
    hold_order(&rt, a, k, &later, paid(&rt, b"b1", 100, 148_456_796));
    hold_order(&rt, a, k, &first, paid(&rt, b"a1", 100, 148_456_796));
    hold_order(&rt, a, k, &later, paid(&rt, b"b2", 102, 148_956_796));
    hold_change(&rt, a, k, &later, change(&rt, 102, 60));
    check_shop(&rt, a, k, (2, 3), &[], &[]);
}

// Gives a keeper three devices, each with one flaw: a token of nobody, a token that another count has too, and two
// orders of one count.
fn hold_wrong_tokens(rt: &impl Abort, a: Global, k: &mut MemKeeper) {
    let token = known(rt, b"T1", 1, 350, 100);
    hold_row(rt, a, k, &token);
    hold_order(rt, a, k, &token, paid(rt, b"t1", 100, 148_456_797));
    let shared = known(rt, b"S1", 2, 350, 2);
    hold_row(rt, a, k, &shared);
    hold_order(rt, a, k, &shared, paid(rt, b"s1", 2, 123_956_796));
    let count = known(rt, b"C1", 3, 700, 100);
    hold_row(rt, a, k, &count);
    hold_order(rt, a, k, &count, paid(rt, b"c1", 100, 148_456_796));
    hold_order(rt, a, k, &count, paid(rt, b"c2", 100, 148_456_796));
}

// Gives a keeper two devices with a token that was sold wrongly: one at a count of the other parity, and one of more
// units than were paid for.
fn hold_wrong_sales(rt: &impl Abort, a: Global, k: &mut MemKeeper) {
    let parity = known(rt, b"P1", 4, 350, 101);
    hold_row(rt, a, k, &parity);
    hold_order(rt, a, k, &parity, paid(rt, b"p1", 101, 148_706_796));
    let booked = known(rt, b"B1", 5, 350, 100);
    hold_row(rt, a, k, &booked);
    let more = order(rt, b"b1", Ask::Pay(350), Kind::Add, 100, 8, 148_456_797);
    hold_order(rt, a, k, &booked, more);
}

// Gives a keeper two devices of which the rows are wrong: one has a change from above its last count, and one says that
// more was paid.
fn hold_wrong_rows(rt: &impl Abort, a: Global, k: &mut MemKeeper) {
    let price = known(rt, b"M1", 6, 350, 100);
    hold_row(rt, a, k, &price);
    hold_order(rt, a, k, &price, paid(rt, b"m1", 100, 148_456_796));
    hold_change(rt, a, k, &price, change(rt, 101, 60));
    let account = known(rt, b"A1", 7, 351, 100);
    hold_row(rt, a, k, &account);
    hold_order(rt, a, k, &account, paid(rt, b"a1", 100, 148_456_796));
}

#[test]
fn each_flaw_by_serial(rt: HostRuntime) {
    let a = rt.alloc();
    let k = &mut MemKeeper::new(a);
    hold_wrong_tokens(&rt, a, k);
    hold_wrong_sales(&rt, a, k);
    hold_wrong_rows(&rt, a, k);
    let want: [(u8, &[u8]); 7] = [
        (b'A', b"A1"),
        (b'b', b"b1"),
        (b'c', b"c1"),
        (b'P', b"M1"),
        (b'p', b"p1"),
        (b's', b"s1"),
        (b't', b"t1"),
    ];
    check_shop(&rt, a, k, (7, 8), &want, &[]);
}

#[test]
fn two_pairs_of_twins(rt: HostRuntime) {
    let a = rt.alloc();
    let k = &mut MemKeeper::new(a);
    hold_row(&rt, a, k, &device(&rt, b"D4", 1, 5, 0, 0));
    hold_row(&rt, a, k, &device(&rt, b"C3", 2, 5, 0, 0));
    hold_row(&rt, a, k, &device(&rt, b"B2", 2, 5, 0, 0));
    hold_row(&rt, a, k, &device(&rt, b"A1", 1, 5, 0, 0));
    check_shop(&rt, a, k, (4, 0), &[], &[(b"B2", b"C3"), (b"A1", b"D4")]);
}

#[test]
fn three_devices_of_one_key(rt: HostRuntime) {
    let a = rt.alloc();
    let k = &mut MemKeeper::new(a);
    hold_row(&rt, a, k, &device(&rt, b"A1", 1, 5, 0, 0));
    // The same key with another starting code, and the same starting code with another key, are no twins.
    hold_row(&rt, a, k, &device(&rt, b"A2", 1, 6, 0, 0));
    hold_row(&rt, a, k, &device(&rt, b"A3", 2, 5, 0, 0));
    check_shop(&rt, a, k, (3, 0), &[], &[]);
    hold_row(&rt, a, k, &device(&rt, b"B2", 1, 5, 0, 0));
    hold_row(&rt, a, k, &device(&rt, b"C3", 1, 5, 0, 0));
    check_shop(&rt, a, k, (5, 0), &[], &[(b"A1", b"B2"), (b"A1", b"C3")]);
}

// Gives a keeper two devices, in ten calls: one token is of nobody, and the two are twins.
fn hold_two(rt: &impl Abort, a: Global, k: &mut MemKeeper) {
    let first = known(rt, b"A1", 1, 350, 100);
    let later = known(rt, b"B2", 1, 350, 100);
    hold_row(rt, a, k, &first);
    hold_row(rt, a, k, &later);
    hold_order(rt, a, k, &first, paid(rt, b"a1", 100, 148_456_796));
    hold_order(rt, a, k, &later, paid(rt, b"b1", 100, 148_456_797));
}

#[test]
fn each_call_of_a_check_fails_once(rt: HostRuntime) {
    let a = rt.alloc();
    // The rows, and the orders and the changes of each of the two.
    for call in 11..16 {
        let k = &mut MemKeeper::new(a);
        hold_two(&rt, a, k);
        k.fail_at(call, true);
        let failed = match sound::<Stride<250>, MemKeeper>(a, k) {
            Err(LedgerFault::Keeper) => true,
            _ => false,
        };
        assert!(rt; failed);
        check_shop(&rt, a, k, (2, 2), &[(b't', b"b1")], &[(b"A1", b"B2")]);
    }
}
