// A keeper that fails at one of its calls.
ghost use Rattle.ledger_spec.specs.Ledger.{IsCommand};

use super::*;
use token_chain::Stride;

// The lines of the table below.
const LINES: usize = 26;

// The calls of the keeper that they make.
const CALLS: u64 = 51;

// A line: a command, the number of calls of the keeper that it makes, and its answer.
fn first_line(rt: &impl Abort, line: usize) -> (Command, u64, Seen)
    ensures { IsCommand result.0 }
{
    let row = Seen::Row(0, 0, 0, false);
    let paid = Seen::Order(Kind::Add, 2, 7, 123_470_796);
    match line {
        0 => (enrol(rt, b"A1", 50, 18_000), 2, row),
        1 => (enrol(rt, b"A1", 50, 18_000), 1, row),
        2 => (pay(rt, b"p1", b"A1", 350), 4, paid),
        3 => (pay(rt, b"p1", b"A1", 350), 2, paid),
        4 => (pay(rt, b"p1", b"A1", 400), 2, Seen::IdUsed(2, 123_470_796)),
        5 => (pay(rt, b"p2", b"A1", 9), 3, Seen::Small(9, 50)),
        6 => (
            set(rt, b"s1", b"A1", 30),
            3,
            Seen::Order(Kind::Set, 3, 30, 123_477_819),
        ),
        7 => (
            sync(rt, b"y1", b"A1"),
            3,
            Seen::Order(Kind::Sync, 5, 999, 123_491_788),
        ),
        8 => (
            disable(rt, b"d1", b"A1"),
            3,
            Seen::Order(Kind::Disable, 7, 998, 123_505_787),
        ),
        9 => (pay(rt, b"p3", b"A1", 50), 2, Seen::Closed(350)),
        10 => (order(rt, b"p1"), 1, paid),
        11 => (order(rt, b"zz"), 1, Seen::NoOrder),
        _ => (show(rt, b"A1"), 1, Seen::Row(350, 0, 7, true)),
    }
}

// The later lines.
fn later_line(rt: &impl Abort, line: usize) -> (Command, u64, Seen)
    ensures { IsCommand result.0 }
{
    match line {
        13 => (show(rt, b"ZZ"), 1, Seen::NoDevice),
        14 => (pay(rt, b"p1", b"ZZ", 50), 1, Seen::NoDevice),
        15 => (raise(rt, b"A1"), 2, Seen::Raised),
        16 => (raise(rt, b"A1"), 1, Seen::Raised),
        17 => (price(rt, b"A1", 7, 60), 3, Seen::Price(7, 60)),
        18 => (price(rt, b"A1", 7, 60), 2, Seen::Price(7, 60)),
        19 => (price(rt, b"A1", 7, 70), 2, Seen::PriceUsed(60)),
        20 => (price(rt, b"A1", 5, 60), 2, Seen::Stale(7)),
        21 => (price(rt, b"ZZ", 5, 60), 1, Seen::NoDevice),
        22 => (raise(rt, b"ZZ"), 1, Seen::NoDevice),
        23 => (enrol(rt, b"A1", 51, 18_000), 1, Seen::SerialUsed(50)),
        24 => (enrol(rt, b"B2", 10, 100_000), 2, Seen::Row(0, 0, 0, false)),
        _ => (
            pay(rt, b"q3", b"B2", 100_000),
            4,
            Seen::Order(Kind::Disable, 1, 998, 123_463_787),
        ),
    }
}

fn any_line(rt: &impl Abort, line: usize) -> (Command, u64, Seen)
    ensures { IsCommand result.0 }
{
    if line < 13 {
        first_line(rt, line)
    } else {
        later_line(rt, line)
    }
}

// All lines over a keeper whose call of this number fails. The command that makes that call is answered that the keeper
// failed, and then, asked again, as it would have been; and so is every other.
fn lines_with_a_fault(rt: &impl Abort, alloc: Global, call: u64, whole: bool) {
    let keeper = &mut MemKeeper::new(alloc);
    let tables = &mut Tables::<Stride<7>>::new(alloc).expect(rt, "memory");
    keeper.fail_at(call, whole);
    let mut calls: u64 = 0;
    for line in 0..LINES {
        let (command, needs, want) = any_line(rt, line);
        let before = calls;
        calls = calls.saturating_add(needs);
        if before < call && call <= calls {
            tell(rt, alloc, keeper, tables, &command, Seen::KeeperFailed);
        }
        tell(rt, alloc, keeper, tables, &command, want);
    }
    assert_eq!(rt; calls, CALLS);
}

#[test]
fn each_call_fails_once(rt: HostRuntime) {
    let alloc = rt.alloc();
    // Call 0 is none: these runs have no fault.
    for call in 0..CALLS + 1 {
        lines_with_a_fault(&rt, alloc, call, true);
        lines_with_a_fault(&rt, alloc, call, false);
    }
}

#[test]
fn a_failed_commit_is_whole_or_nothing(rt: HostRuntime) {
    let a = rt.alloc();
    let paid = Seen::Order(Kind::Add, 2, 7, 123_470_796);
    for (whole, found) in [(true, paid), (false, Seen::NoOrder)] {
        let k = &mut MemKeeper::new(a);
        let t = &mut Tables::<Stride<7>>::new(a).expect(&rt, "memory");
        // The later plan is the one that counts.
        k.fail_at(1, true);
        k.fail_at(6, whole);
        told!(&rt, a, k, t;
            enrol(&rt, b"A1", 50, 18_000) => Seen::Row(0, 0, 0, false),
            pay(&rt, b"p1", b"A1", 350) => Seen::KeeperFailed,
            order(&rt, b"p1") => found,
            pay(&rt, b"p1", b"A1", 350) => paid,
            show(&rt, b"A1") => Seen::Row(350, 0, 2, false),
        );
    }
}
