// Each kind of flaw, in its place.
use super::*;

#[test]
fn two_orders_of_one_count(rt: HostRuntime) {
    let a = rt.alloc();
    let row = row(&rt, 700, 0, 100, false);
    let orders = [
        paid(&rt, b"o2", 100, 148_456_796),
        paid(&rt, b"o1", 100, 148_456_796),
    ];
    check(&rt, a, &row, &orders, &[], &[(b'c', b"o1")]);
}

#[test]
fn orders_in_another_order(rt: HostRuntime) {
    let a = rt.alloc();
    let row = row(&rt, 700, 0, 102, false);
    let orders = [
        paid(&rt, b"o1", 100, 148_456_796),
        paid(&rt, b"o2", 102, 148_956_796),
    ];
    check(&rt, a, &row, &orders, &[], &[(b'c', b"o2")]);
}

#[test]
fn a_count_above_the_last_one(rt: HostRuntime) {
    let a = rt.alloc();
    let row = row(&rt, 350, 0, 99, false);
    check(
        &rt,
        a,
        &row,
        &[paid(&rt, b"o1", 100, 148_456_796)],
        &[],
        &[(b'c', b"o1")],
    );
}

#[test]
fn counts_of_the_other_parity(rt: HostRuntime) {
    let a = rt.alloc();
    let row = row(&rt, 350, 0, 102, false);
    let orders = [
        order(&rt, b"o2", Ask::Set(5), Kind::Set, 102, 5, 148_956_794),
        paid(&rt, b"o1", 101, 148_706_796),
    ];
    check(&rt, a, &row, &orders, &[], &[(b'p', b"o1"), (b'p', b"o2")]);
}

#[test]
fn a_token_of_nobody(rt: HostRuntime) {
    let a = rt.alloc();
    let row = row(&rt, 700, 0, 102, false);
    let orders = [
        paid(&rt, b"o2", 102, 148_956_796),
        paid(&rt, b"o1", 100, 148_456_797),
    ];
    check(&rt, a, &row, &orders, &[], &[(b't', b"o1")]);
}

#[test]
fn a_token_of_two_counts(rt: HostRuntime) {
    let a = rt.alloc();
    // Count 4,002 has it too, which is far above the row's last count.
    let row = row(&rt, 350, 0, 2, false);
    check(
        &rt,
        a,
        &row,
        &[paid(&rt, b"o1", 2, 123_956_796)],
        &[],
        &[(b's', b"o1")],
    );
    // And a token of nobody at a count whose token is shared.
    check(
        &rt,
        a,
        &row,
        &[paid(&rt, b"o1", 2, 123_956_797)],
        &[],
        &[(b't', b"o1"), (b's', b"o1")],
    );
}

#[test]
fn tokens_of_other_units_than_were_paid(rt: HostRuntime) {
    let a = rt.alloc();
    let row = row(&rt, 700, 0, 102, false);
    let orders = [
        paid(&rt, b"o2", 102, 148_956_796),
        order(&rt, b"o1", Ask::Pay(350), Kind::Add, 100, 8, 148_456_797),
    ];
    check(&rt, a, &row, &orders, &[], &[(b'b', b"o1")]);
    // The price of 50 is another from count 101 on.
    check(
        &rt,
        a,
        &row,
        &orders,
        &[change(&rt, 101, 350)],
        &[(b'b', b"o1"), (b'b', b"o2")],
    );
}

#[test]
fn a_token_of_more_than_995_units(rt: HostRuntime) {
    let a = rt.alloc();
    let row = row(&rt, 49_800, 0, 100, false);
    let orders = [order(
        &rt,
        b"o1",
        Ask::Pay(49_800),
        Kind::Add,
        100,
        996,
        148_456_785,
    )];
    check(&rt, a, &row, &orders, &[], &[(b'b', b"o1")]);
}

#[test]
fn a_token_of_another_kind(rt: HostRuntime) {
    let a = rt.alloc();
    let row = row(&rt, 350, 0, 101, false);
    let orders = [order(&rt, b"o1", Ask::Pay(350), Kind::Set, 101, 7, 148_706_796)];
    check(&rt, a, &row, &orders, &[], &[(b'b', b"o1")]);
}

#[test]
fn a_change_from_above_the_last_count(rt: HostRuntime) {
    let a = rt.alloc();
    let row = row(&rt, 350, 0, 100, false);
    let changes = [
        change(&rt, 100, 60),
        change(&rt, 101, 70),
        change(&rt, 105, 80),
    ];
    let orders = [paid(&rt, b"o1", 100, 148_456_796)];
    check(
        &rt,
        a,
        &row,
        &orders,
        &changes,
        &[(b'P', b"A1"), (b'P', b"A1")],
    );
}

#[test]
fn a_row_of_another_account(rt: HostRuntime) {
    let a = rt.alloc();
    let orders = [paid(&rt, b"o1", 100, 148_456_796)];
    check(
        &rt,
        a,
        &row(&rt, 351, 0, 100, false),
        &orders,
        &[],
        &[(b'A', b"A1")],
    );
    check(
        &rt,
        a,
        &row(&rt, 350, 1, 100, false),
        &orders,
        &[],
        &[(b'A', b"A1")],
    );
    check(
        &rt,
        a,
        &row(&rt, 350, 0, 100, true),
        &orders,
        &[],
        &[(b'A', b"A1")],
    );
    check(
        &rt,
        a,
        &row(&rt, 350, 0, 100, false),
        &[],
        &[],
        &[(b'A', b"A1")],
    );
}

#[test]
fn each_flaw_at_once(rt: HostRuntime) {
    let a = rt.alloc();
    let row = row(&rt, 350, 0, 100, false);
    let orders = [
        // The newest, at the count of a token that count 4,001 has too, of the other parity, with the token of nobody.
        order(&rt, b"o2", Ask::Set(5), Kind::Add, 1, 6, 1),
        // And an older one with a greater count.
        paid(&rt, b"o1", 101, 148_706_796),
    ];
    check(
        &rt,
        a,
        &row,
        &orders,
        &[change(&rt, 101, 60)],
        &[
            (b'c', b"o1"),
            (b'p', b"o1"),
            (b'p', b"o2"),
            (b't', b"o2"),
            (b's', b"o2"),
            (b'b', b"o2"),
            (b'P', b"A1"),
        ],
    );
}
