// Rows with which nothing is wrong.
use super::*;

#[test]
fn a_row_with_no_order(rt: HostRuntime) {
    let a = rt.alloc();
    check(&rt, a, &row(&rt, 0, 0, 0, false), &[], &[], &[]);
}

#[test]
fn an_order_of_each_kind(rt: HostRuntime) {
    let a = rt.alloc();
    let row = row(&rt, 480, 10, 106, true);
    let orders = [
        order(
            &rt,
            b"o5",
            Ask::Disable,
            Kind::Disable,
            105,
            998,
            149_706_787,
        ),
        order(&rt, b"o4", Ask::Pay(130), Kind::Add, 104, 2, 149_456_791),
        order(&rt, b"o3", Ask::Sync, Kind::Sync, 103, 999, 149_206_788),
        order(&rt, b"o2", Ask::Set(5), Kind::Set, 101, 5, 148_706_794),
        order(&rt, b"o1", Ask::Pay(350), Kind::Add, 100, 7, 148_456_796),
    ];
    check(&rt, a, &row, &orders, &[change(&rt, 103, 60)], &[]);
}

#[test]
fn a_payment_that_reaches_the_total(rt: HostRuntime) {
    let a = rt.alloc();
    let row = row(&rt, 100_350, 0, 101, true);
    let orders = [
        order(
            &rt,
            b"o2",
            Ask::Pay(100_000),
            Kind::Disable,
            101,
            998,
            148_706_787,
        ),
        paid(&rt, b"o1", 100, 148_456_796),
    ];
    check(&rt, a, &row, &orders, &[], &[]);
}

#[test]
fn counts_above_the_first_limit(rt: HostRuntime) {
    let a = rt.alloc();
    let row = row_to(&rt, 16_383, 700, 0, 4098, false);
    // On this chain no two counts up to 16,383 have one token.
    let orders = [
        paid(&rt, b"o2", 4098, 152_142_796),
        paid(&rt, b"o1", 2, 123_470_796),
    ];
    check_on::<Stride<7>>(&rt, a, &row, &orders, &[], &[]);
}
