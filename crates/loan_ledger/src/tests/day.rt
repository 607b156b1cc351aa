// A day of a shop.
use super::*;
use ledger_keeper::Keeper;
use token_chain::Stride;

// The morning: two devices are sold, and the first receipts come in.
fn morning<M: Mixer>(rt: &impl Abort, a: Global, k: &mut MemKeeper, t: &mut Tables<M>) {
    told!(rt, a, k, t;
        // Amina takes a lamp home. It is 18,000 in all, and 50 buy a day.
        enrol(rt, b"lamp", 50, 18_000) => Seen::Row(0, 0, 0, false),
        // She pays for a week. Her phone sends the receipt twice: she gets one token, not two.
        pay(rt, b"receipt-1", b"lamp", 350) => Seen::Order(Kind::Add, 2, 7, 123_470_796),
        pay(rt, b"receipt-1", b"lamp", 350) => Seen::Order(Kind::Add, 2, 7, 123_470_796),
        // A clerk types that receipt for another sum. He is told what it was for.
        pay(rt, b"receipt-1", b"lamp", 400) => Seen::IdUsed(2, 123_470_796),
        // From now on a day costs 60. Of her next 350 a sum of 50 is left over, and it counts for the payment after.
        price(rt, b"lamp", 2, 60) => Seen::Price(2, 60),
        pay(rt, b"receipt-2", b"lamp", 350) => Seen::Order(Kind::Add, 4, 5, 123_484_794),
        show(rt, b"lamp") => Seen::Row(700, 50, 4, false),
        pay(rt, b"receipt-3", b"lamp", 10) => Seen::Order(Kind::Add, 6, 1, 123_498_790),
    );
}

// The afternoon: a device is paid off and comes back, and another one fell behind.
fn afternoon<M: Mixer>(rt: &impl Abort, a: Global, k: &mut MemKeeper, t: &mut Tables<M>) {
    told!(rt, a, k, t;
        // Baako pays his radio off at once. The token frees it, and no more money is taken for it.
        enrol(rt, b"radio", 10, 1000) => Seen::Row(0, 0, 0, false),
        pay(rt, b"receipt-4", b"radio", 1000) => Seen::Order(Kind::Disable, 1, 998, 123_463_787),
        pay(rt, b"receipt-5", b"radio", 10) => Seen::Closed(1000),
        // He brings it back, and the shop lends it out for thirty days.
        set(rt, b"loan-1", b"radio", 30) => Seen::Order(Kind::Set, 3, 30, 123_477_819),
        // The lamp lay in a drawer and takes no token any more: this one brings it up to date.
        sync(rt, b"help-1", b"lamp") => Seen::Order(Kind::Sync, 7, 999, 123_505_788),
    );
}

// The evening: the disk fails in the middle of a payment. The clerk tries again, and one token was sold.
fn evening<M: Mixer>(rt: &impl Abort, a: Global, k: &mut MemKeeper, t: &mut Tables<M>) {
    told!(rt, a, k, t;
        pay(rt, b"receipt-6", b"lamp", 120) => Seen::KeeperFailed,
        pay(rt, b"receipt-6", b"lamp", 120) => Seen::Order(Kind::Add, 8, 2, 123_512_791),
        order(rt, b"receipt-6") => Seen::Order(Kind::Add, 8, 2, 123_512_791),
        // The books of the day.
        show(rt, b"lamp") => Seen::Row(830, 0, 8, false),
        show(rt, b"radio") => Seen::Row(1000, 0, 3, false),
    );
}

// The night: the books are read, the devices by their serials, and what was sold for the lamp by its counts.
fn night(rt: &impl Abort, a: Global, k: &mut MemKeeper) {
    let rows = k.rows(a).expect(rt, "the rows");
    assert_eq!(rt; rows.len(), 2);
    assert!(rt; rows[0].serial.same(&name(rt, b"lamp")));
    assert!(rt; rows[1].serial.same(&name(rt, b"radio")));
    let orders = k.orders_of(a, &name(rt, b"lamp")).expect(rt, "the orders");
    assert_eq!(rt; orders.len(), 5);
    for i in 0..5 {
        assert_eq!(rt; orders[i].count, [2, 4, 6, 7, 8][i]);
    }
}

#[test]
fn a_day_of_a_shop(rt: HostRuntime) {
    for whole in [true, false] {
        let a = rt.alloc();
        let k = &mut MemKeeper::new(a);
        let t = &mut Tables::<Stride<7>>::new(a).expect(&rt, "memory");
        // The fortieth call of the keeper is the commit of the last payment.
        k.fail_at(40, whole);
        morning(&rt, a, k, t);
        afternoon(&rt, a, k, t);
        evening(&rt, a, k, t);
        night(&rt, a, k);
    }
}
