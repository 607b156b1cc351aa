// Worked rows: what each command is answered.
ghost use Rattle.loan_ledger.specs.Knot.{knot_next, knot_below};

use super::*;
use ledger_keeper::Keeper;
use ledger_spec::{Ask, Row};
use token_chain::Stride;

/// A chain for tests in which the counts 2 and 700 have one code where the value is 7, so that count 2 isn't clean.
pub(super) struct Knot;

impl Mixer for Knot {
    ghost next = { knot_next };

    ghost below = { knot_below };

    fn step(_key: &[u8; 16], code: u32) -> u32 {
        if code == 128_349_796 {
            123_470_000
        } else if code == 123_470_000 {
            128_363_796
        } else {
            (code + 7000) % 1_000_000_000
        }
    }
}

#[test]
fn payments_and_their_refusals(rt: HostRuntime) {
    let a = rt.alloc();
    let k = &mut MemKeeper::new(a);
    let t = &mut Tables::<Stride<7>>::new(a).expect(&rt, "memory");
    told!(&rt, a, k, t;
        enrol(&rt, b"A1", 50, 18_000) => Seen::Row(0, 0, 0, false),
        pay(&rt, b"p1", b"A1", 350) => Seen::Order(Kind::Add, 2, 7, 123_470_796),
        pay(&rt, b"p1", b"A1", 350) => Seen::Order(Kind::Add, 2, 7, 123_470_796),
        pay(&rt, b"p1", b"A1", 400) => Seen::IdUsed(2, 123_470_796),
        enrol(&rt, b"B2", 10, 100_000) => Seen::Row(0, 0, 0, false),
        pay(&rt, b"q1", b"B2", 9) => Seen::Small(9, 10),
        pay(&rt, b"q2", b"B2", 9960) => Seen::Large(996),
        pay(&rt, b"q3", b"B2", 100_000) => Seen::Order(Kind::Disable, 1, 998, 123_463_787),
        pay(&rt, b"q4", b"B2", 10) => Seen::Closed(100_000),
        set(&rt, b"q5", b"B2", 30) => Seen::Order(Kind::Set, 3, 30, 123_477_819),
        show(&rt, b"B2") => Seen::Row(100_000, 0, 3, false),
    );
}

#[test]
fn quotes_and_skipped_counts(rt: HostRuntime) {
    let a = rt.alloc();
    let k = &mut MemKeeper::new(a);
    let t = &mut Tables::<Stride<7>>::new(a).expect(&rt, "memory");
    told!(&rt, a, k, t;
        enrol(&rt, b"A1", 50, 18_000) => Seen::Row(0, 0, 0, false),
        quote(&rt, b"A1", 350) => Seen::Quote(Kind::Add, 2, 7, 0, true),
        pay(&rt, b"p1", b"A1", 350) => Seen::Order(Kind::Add, 2, 7, 123_470_796),
        skip(&rt, b"A1", 10) => Seen::Row(350, 0, 10, false),
        skip(&rt, b"A1", 5) => Seen::Row(350, 0, 10, false),
        quote(&rt, b"A1", 365) => Seen::Quote(Kind::Add, 12, 7, 15, true),
        pay(&rt, b"p2", b"A1", 365) => Seen::Order(Kind::Add, 12, 7, 123_540_796),
        quote(&rt, b"A1", 40) => Seen::Quote(Kind::Add, 14, 1, 5, true),
        quote(&rt, b"A1", 30) => Seen::Small(45, 50),
        quote(&rt, b"A1", 17_300) => Seen::Quote(Kind::Disable, 13, 998, 0, true),
        skip(&rt, b"A1", 4096) => Seen::Beyond(4095),
        skip(&rt, b"A1", 4095) => Seen::Row(715, 15, 4095, false),
        quote(&rt, b"A1", 350) => Seen::NoCount(4095),
        quote(&rt, b"B2", 350) => Seen::NoDevice,
        skip(&rt, b"B2", 3) => Seen::NoDevice,
    );
}

// Whether this is the first order of the device A1, whole, with the form of the device.
fn is_first_order(answer: Result<Answer, LedgerFault>) -> bool {
    match answer {
        Ok(Answer::Order(order, form)) => {
            order.id.bytes() == b"p1".as_slice()
                && order.serial.bytes() == b"A1".as_slice()
                && order.ask == Ask::Pay(350)
                && order.kind == Kind::Add
                && (order.count, order.value, order.token) == (2, 7, 123_470_796)
                && form == Form::Nine
        }
        _ => false,
    }
}

#[test]
fn an_order_is_told_whole(rt: HostRuntime) {
    let a = rt.alloc();
    let k = &mut MemKeeper::new(a);
    let t = &mut Tables::<Stride<7>>::new(a).expect(&rt, "memory");
    told!(&rt, a, k, t;
        enrol(&rt, b"A1", 50, 18_000) => Seen::Row(0, 0, 0, false),
    );
    for _ in 0..2 {
        assert!(rt; is_first_order(apply(a, k, t, &pay(&rt, b"p1", b"A1", 350))));
    }
    assert!(rt; is_first_order(apply(a, k, t, &order(&rt, b"p1"))));
}

#[test]
fn other_commands_of_an_id(rt: HostRuntime) {
    let a = rt.alloc();
    let k = &mut MemKeeper::new(a);
    let t = &mut Tables::<Stride<7>>::new(a).expect(&rt, "memory");
    told!(&rt, a, k, t;
        enrol(&rt, b"A1", 50, 18_000) => Seen::Row(0, 0, 0, false),
        pay(&rt, b"p1", b"A1", 350) => Seen::Order(Kind::Add, 2, 7, 123_470_796),
        sync(&rt, b"y1", b"A1") => Seen::Order(Kind::Sync, 3, 999, 123_477_788),
        sync(&rt, b"y1", b"A1") => Seen::Order(Kind::Sync, 3, 999, 123_477_788),
        disable(&rt, b"y1", b"A1") => Seen::IdUsed(3, 123_477_788),
        order(&rt, b"y1") => Seen::Order(Kind::Sync, 3, 999, 123_477_788),
        order(&rt, b"zz") => Seen::NoOrder,
        show(&rt, b"ZZ") => Seen::NoDevice,
    );
}

#[test]
fn a_count_that_is_not_clean_is_passed_over(rt: HostRuntime) {
    let a = rt.alloc();
    let k = &mut MemKeeper::new(a);
    let t = &mut Tables::<Knot>::new(a).expect(&rt, "memory");
    told!(&rt, a, k, t;
        enrol(&rt, b"A1", 50, 18_000) => Seen::Row(0, 0, 0, false),
        pay(&rt, b"p1", b"A1", 350) => Seen::Order(Kind::Add, 4, 7, 123_484_796),
    );
}

#[test]
fn no_count_is_clean(rt: HostRuntime) {
    let a = rt.alloc();
    let k = &mut MemKeeper::new(a);
    let t = &mut Tables::<Stride<1000>>::new(a).expect(&rt, "memory");
    told!(&rt, a, k, t;
        enrol(&rt, b"A1", 50, 18_000) => Seen::Row(0, 0, 0, false),
        pay(&rt, b"p1", b"A1", 350) => Seen::NoCount(0),
        show(&rt, b"A1") => Seen::Row(0, 0, 0, false),
    );
}

#[test]
fn prices_change(rt: HostRuntime) {
    let a = rt.alloc();
    let k = &mut MemKeeper::new(a);
    let t = &mut Tables::<Stride<7>>::new(a).expect(&rt, "memory");
    told!(&rt, a, k, t;
        enrol(&rt, b"A1", 50, 18_000) => Seen::Row(0, 0, 0, false),
        pay(&rt, b"p1", b"A1", 350) => Seen::Order(Kind::Add, 2, 7, 123_470_796),
        price(&rt, b"A1", 2, 60) => Seen::Price(2, 60),
        pay(&rt, b"p2", b"A1", 350) => Seen::Order(Kind::Add, 4, 5, 123_484_794),
        price(&rt, b"A1", 4, 40) => Seen::Price(4, 40),
        pay(&rt, b"p3", b"A1", 10) => Seen::Order(Kind::Add, 6, 1, 123_498_790),
        price(&rt, b"A1", 2, 60) => Seen::Price(2, 60),
        price(&rt, b"A1", 2, 70) => Seen::PriceUsed(60),
        price(&rt, b"A1", 5, 30) => Seen::Stale(6),
        show(&rt, b"A1") => Seen::Row(710, 20, 6, false),
        enrol(&rt, b"A1", 60, 18_000) => Seen::SerialUsed(50),
    );
}

#[test]
fn a_raised_row_has_more_counts(rt: HostRuntime) {
    let a = rt.alloc();
    let k = &mut MemKeeper::new(a);
    let t = &mut Tables::<Stride<7>>::new(a).expect(&rt, "memory");
    let row = Row {
        serial: name(&rt, b"A1"),
        key: [0; 16],
        start: 123_456_789,
        divider: 1,
        form: Form::Nine,
        price: 50,
        total: 18_000,
        paid: 0,
        rest: 0,
        last: 4094,
        limit: 4095,
        closed: false,
    };
    assert!(rt; k.add_device(a, &row).is_ok());
    told!(&rt, a, k, t;
        pay(&rt, b"p9", b"A1", 350) => Seen::NoCount(4094),
        raise(&rt, b"A1") => Seen::Raised,
        pay(&rt, b"p9", b"A1", 350) => Seen::Order(Kind::Add, 4096, 7, 152_128_796),
        raise(&rt, b"A1") => Seen::Raised,
        raise(&rt, b"ZZ") => Seen::NoDevice,
    );
}
