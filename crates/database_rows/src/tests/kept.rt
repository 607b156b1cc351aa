// What a keeper is given it hands out again, and what it must it refuses.
use super::*;

// Two devices, of which one is raised as it is added, and orders whose ids fall while their counts rise.
fn two_devices(rt: &impl Abort, alloc: Global, keeper: &mut SqliteKeeper<'_>) {
    let raised = sold(rt, b"B2", Form::Fifteen, GREAT);
    let plain = sold(rt, b"A1", Form::Nine, LAST);
    assert!(rt; add_device(rt, alloc, keeper, &raised).is_ok());
    assert!(rt; add_device(rt, alloc, keeper, &plain).is_ok());
    let rows = [
        later(&plain, 2, 350, 10, false),
        later(&plain, 4, 700, 20, false),
    ];
    let first = order(rt, b"z1", &rows[0], Ask::Pay(350), Kind::Add, 7);
    let second = order(rt, b"a1", &rows[1], Ask::Pay(351), Kind::Add, 8);
    assert!(rt; add_order(rt, alloc, keeper, &first, &rows[0]).is_ok());
    assert!(rt; add_order(rt, alloc, keeper, &second, &rows[1]).is_ok());
    has_row(rt, alloc, keeper, &raised);
    has_row(rt, alloc, keeper, &rows[1]);
    has_order(rt, alloc, keeper, &first, Form::Nine);
    has_order(rt, alloc, keeper, &second, Form::Nine);
    has_orders(rt, alloc, keeper, &[first, second]);
    has_rows(rt, alloc, keeper, &[rows[1], raised]);
}

#[test]
fn two_devices_are_kept_apart(rt: HostRuntime) {
    two_devices(&rt, rt.alloc(), &mut SqliteKeeper::in_memory(&rt));
}

// An order is found under its own id alone, not under the beginning of it, nor in other letters.
fn near_ids(rt: &impl Abort, alloc: Global, keeper: &mut SqliteKeeper<'_>) {
    let sold = sold(rt, b"A1", Form::Nine, LAST);
    assert!(rt; add_device(rt, alloc, keeper, &sold).is_ok());
    let row = later(&sold, 2, 350, 0, false);
    let kept = order(rt, b"P10", &row, Ask::Pay(350), Kind::Add, 7);
    assert!(rt; add_order(rt, alloc, keeper, &kept, &row).is_ok());
    for near in [b"P1".as_slice(), b"p10", b"P100", b"P_0", b"_10"] {
        has_no_order(rt, alloc, keeper, near);
    }
    assert!(rt;
        keeper
            .device(alloc, &name(rt, b"a1"))
            .expect(rt, "an answer")
            .is_none()
    );
    assert!(rt;
        keeper
            .device(alloc, &name(rt, b"A"))
            .expect(rt, "an answer")
            .is_none()
    );
    assert!(rt;
        keeper
            .orders_of(alloc, &name(rt, b"a1"))
            .expect(rt, "an answer")
            .is_empty()
    );
}

#[test]
fn an_order_has_no_other_id(rt: HostRuntime) {
    near_ids(&rt, rt.alloc(), &mut SqliteKeeper::in_memory(&rt));
}

// Orders that set, free and sync a device, in fifteen digits, and its row after each.
fn other_orders(rt: &impl Abort, alloc: Global, keeper: &mut SqliteKeeper<'_>) {
    let sold = sold(rt, b"B2", Form::Fifteen, LAST);
    assert!(rt; add_device(rt, alloc, keeper, &sold).is_ok());
    let rows = [
        later(&sold, 1, 100, 0, false),
        later(&sold, 3, 100, 0, true),
        later(&sold, 5, 100, 0, true),
    ];
    let orders = [
        order(rt, b"s1", &rows[0], Ask::Set(30), Kind::Set, 30),
        order(rt, b"d1", &rows[1], Ask::Disable, Kind::Disable, 998),
        order(rt, b"y1", &rows[2], Ask::Sync, Kind::Sync, 999),
    ];
    for i in 0..3 {
        assert!(rt; add_order(rt, alloc, keeper, &orders[i], &rows[i]).is_ok());
        has_row(rt, alloc, keeper, &rows[i]);
    }
    for i in 0..3 {
        has_order(rt, alloc, keeper, &orders[i], Form::Fifteen);
    }
}

#[test]
fn other_orders_are_kept_as_they_were_asked(rt: HostRuntime) {
    other_orders(&rt, rt.alloc(), &mut SqliteKeeper::in_memory(&rt));
}

// An id that is kept and a row with another limit are refused, and so is a raise of no row or of a raised one.
fn refusals(rt: &impl Abort, alloc: Global, keeper: &mut SqliteKeeper<'_>) {
    let sold = sold(rt, b"A1", Form::Nine, LAST);
    assert!(rt; add_device(rt, alloc, keeper, &sold).is_ok());
    assert!(rt;
        failed(add_device(rt, alloc, keeper, &sold)),
        "one serial twice"
    );
    let row = later(&sold, 2, 350, 0, false);
    let kept = order(rt, b"p1", &row, Ask::Pay(350), Kind::Add, 7);
    assert!(rt; add_order(rt, alloc, keeper, &kept, &row).is_ok());
    let next = later(&sold, 4, 700, 0, false);
    let again = order(rt, b"p1", &next, Ask::Pay(350), Kind::Add, 7);
    assert!(rt;
        failed(add_order(rt, alloc, keeper, &again, &next)),
        "one id twice"
    );
    let other = Row {
        limit: GREAT,
        ..next
    };
    let astray = order(rt, b"p2", &other, Ask::Pay(350), Kind::Add, 7);
    assert!(rt;
        failed(add_order(rt, alloc, keeper, &astray, &other)),
        "another limit"
    );
    has_no_order(rt, alloc, keeper, b"p2");
    has_order(rt, alloc, keeper, &kept, Form::Nine);
    has_row(rt, alloc, keeper, &row);
}

#[test]
fn a_second_order_of_an_id_is_refused(rt: HostRuntime) {
    refusals(&rt, rt.alloc(), &mut SqliteKeeper::in_memory(&rt));
}

// A raise holds for one device, and is refused of no row and of a raised one.
fn raises(rt: &impl Abort, alloc: Global, keeper: &mut SqliteKeeper<'_>) {
    let first = sold(rt, b"A1", Form::Nine, LAST);
    let second = sold(rt, b"B2", Form::Nine, LAST);
    assert!(rt; add_device(rt, alloc, keeper, &first).is_ok());
    assert!(rt; add_device(rt, alloc, keeper, &second).is_ok());
    assert!(rt; failed(keeper.raise(alloc, &name(rt, b"C3"))), "no row");
    assert!(rt; keeper.raise(alloc, &second.serial).is_ok());
    assert!(rt; failed(keeper.raise(alloc, &second.serial)), "raised twice");
    let raised = sold(rt, b"B2", Form::Nine, GREAT);
    has_row(rt, alloc, keeper, &first);
    has_row(rt, alloc, keeper, &raised);
    has_rows(rt, alloc, keeper, &[first, raised]);
}

#[test]
fn a_raise_holds_for_one_device(rt: HostRuntime) {
    raises(&rt, rt.alloc(), &mut SqliteKeeper::in_memory(&rt));
}

// A skip lifts the last count of one device, and is refused of no row and of a count that isn't greater.
fn skips(rt: &impl Abort, alloc: Global, keeper: &mut SqliteKeeper<'_>) {
    let first = sold(rt, b"A1", Form::Nine, LAST);
    let second = sold(rt, b"B2", Form::Nine, LAST);
    assert!(rt; add_device(rt, alloc, keeper, &first).is_ok());
    assert!(rt; add_device(rt, alloc, keeper, &second).is_ok());
    assert!(rt; failed(keeper.skip(alloc, &name(rt, b"C3"), 5)), "no row");
    assert!(rt; keeper.skip(alloc, &second.serial, 5).is_ok());
    assert!(rt;
        failed(keeper.skip(alloc, &second.serial, 5)),
        "the same count"
    );
    assert!(rt;
        failed(keeper.skip(alloc, &second.serial, 4)),
        "a lower count"
    );
    let lifted = later(&second, 5, 0, 0, false);
    has_row(rt, alloc, keeper, &first);
    has_row(rt, alloc, keeper, &lifted);
    has_rows(rt, alloc, keeper, &[first, lifted]);
}

#[test]
fn a_skip_holds_for_one_device(rt: HostRuntime) {
    skips(&rt, rt.alloc(), &mut SqliteKeeper::in_memory(&rt));
}

// Orders by count, and as they were added, which is another order.
fn two_ways(rt: &impl Abort, alloc: Global, keeper: &mut SqliteKeeper<'_>) {
    let plain = sold(rt, b"A1", Form::Nine, LAST);
    assert!(rt; add_device(rt, alloc, keeper, &plain).is_ok());
    let rows = [
        later(&plain, 2, 350, 10, false),
        later(&plain, 6, 700, 20, false),
        later(&plain, 4, 1050, 30, false),
    ];
    let first = order(rt, b"z1", &rows[0], Ask::Pay(350), Kind::Add, 7);
    let second = order(rt, b"a1", &rows[1], Ask::Pay(351), Kind::Add, 8);
    let third = order(rt, b"k1", &rows[2], Ask::Pay(352), Kind::Add, 9);
    assert!(rt; add_order(rt, alloc, keeper, &first, &rows[0]).is_ok());
    assert!(rt; add_order(rt, alloc, keeper, &second, &rows[1]).is_ok());
    assert!(rt; add_order(rt, alloc, keeper, &third, &rows[2]).is_ok());
    has_orders(rt, alloc, keeper, &[first, third, second]);
    has_orders_back(rt, alloc, keeper, &[third, second, first]);
}

#[test]
fn orders_stand_as_they_were_added(rt: HostRuntime) {
    two_ways(&rt, rt.alloc(), &mut SqliteKeeper::in_memory(&rt));
}

// Two changes of a price, by rising count, and one more from a count that has one, which is refused.
fn two_prices(rt: &impl Abort, alloc: Global, keeper: &mut SqliteKeeper<'_>) {
    let sold = sold(rt, b"A1", Form::Nine, LAST);
    assert!(rt; add_device(rt, alloc, keeper, &sold).is_ok());
    assert!(rt; keep_price(rt, alloc, keeper, 2, 60).is_ok());
    assert!(rt; keep_price(rt, alloc, keeper, 4, 70).is_ok());
    assert!(rt;
        failed(keep_price(rt, alloc, keeper, 2, 80)),
        "one count twice"
    );
    has_prices(rt, alloc, keeper, &[(2, 60), (4, 70)]);
}

#[test]
fn prices_are_kept_by_rising_count(rt: HostRuntime) {
    two_prices(&rt, rt.alloc(), &mut SqliteKeeper::in_memory(&rt));
}
