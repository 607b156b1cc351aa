// Lines that ask for a command.
use super::*;
use paygo_spec::Form;
use std::alloc::Global;

/// The amount of a payment that a line asks for.
fn amount_in(alloc: Global, line: &[u8]) -> Option<u64> {
    match read(alloc, line) {
        Ok(Command::Pay { amount, .. }) => Some(amount),
        _ => None,
    }
}

/// One payment of 350, written in other ways: with members in another order, an amount that is told twice, a member's
/// name with an escape, spaces, and a member of 50 nested lists that isn't needed.
const PAYMENTS: [&[u8]; 6] = [
    br#"{"do":"pay","id":"p1","serial":"A1","amount":350}"#,
    br#"{"amount":350,"serial":"A1","do":"pay","id":"p1"}"#,
    br#"{"do":"pay","id":"p1","serial":"A1","amount":1,"amount":350}"#,
    br#"{"do":"pay","id":"p1","serial":"A1","\u0061mount":350}"#,
    br#" { "do" : "pay", "id" : "p1", "serial" : "A1", "amount" : 350 } "#,
    br#"{"do":"pay","id":"p1","serial":"A1","amount":350,"x":[[[[[[[[[[[[[[[[[[[[[[[[[[[[[[[[[[[[[[[[[[[[[[[[[[]]]]]]]]]]]]]]]]]]]]]]]]]]]]]]]]]]]]]]]]]]]]]]]]]]}"#,
];

#[test]
fn payments(rt: HostRuntime) {
    for line in PAYMENTS {
        assert!(rt; amount_in(rt.alloc(), line) == Some(350));
    }
}

#[test]
fn enrolled(rt: HostRuntime) {
    let line =
        br#"{"do":"enroll","serial":"A1","key":"0f0E0d0C0b0A09080706050403020100","start":123456789,"divider":24,"form":15,"price":50,"total":18000}"#;
    match read(rt.alloc(), line) {
        Ok(Command::Enroll(enrol)) => {
            assert!(rt; enrol.serial.bytes() == b"A1".as_slice());
            assert!(rt; enrol.key == [15, 14, 13, 12, 11, 10, 9, 8, 7, 6, 5, 4, 3, 2, 1, 0]);
            assert!(rt; enrol.start == 123_456_789 && enrol.divider == 24);
            assert!(rt; enrol.form == Form::Fifteen);
            assert!(rt; enrol.price == 50 && enrol.total == 18_000);
        }
        _ => panic!(rt; "no device is enrolled"),
    }
}

// What is seen of a command: its word, its id and its serial, where it has them, and its numbers.
fn seen<'a>(command: &'a Command) -> (&'static [u8], &'a [u8], &'a [u8], u64, u64) {
    match command {
        Command::Enroll(enrol) => (
            b"enroll",
            b"",
            enrol.serial.bytes(),
            enrol.price,
            enrol.total,
        ),
        Command::Pay { id, serial, amount } => (b"pay", id.bytes(), serial.bytes(), *amount, 0),
        Command::Set { id, serial, units } => (
            b"set",
            id.bytes(),
            serial.bytes(),
            u64::from(*units),
            0,
        ),
        Command::Disable { id, serial } => (b"disable", id.bytes(), serial.bytes(), 0, 0),
        Command::Sync { id, serial } => (b"sync", id.bytes(), serial.bytes(), 0, 0),
        Command::Order { id } => (b"order", id.bytes(), b"", 0, 0),
        Command::Show { serial } => (b"show", b"", serial.bytes(), 0, 0),
        Command::Raise { serial } => (b"raise", b"", serial.bytes(), 0, 0),
        Command::Price {
            serial,
            from,
            price,
        } => (b"price", b"", serial.bytes(), u64::from(*from), *price),
        Command::Quote { serial, amount } => (b"quote", b"", serial.bytes(), *amount, 0),
        Command::Skip { serial, to } => (b"skip", b"", serial.bytes(), u64::from(*to), 0),
    }
}

/// A line of each command but the first, its word, its id, its serial and its numbers.
const COMMANDS: [(&[u8], &[u8], &[u8], &[u8], u64, u64); 10] = [
    (
        br#"{"do":"pay","id":"p1","serial":"A1","amount":350}"#,
        b"pay",
        b"p1",
        b"A1",
        350,
        0,
    ),
    (
        br#"{"do":"set","id":"q5","serial":"B2","units":30}"#,
        b"set",
        b"q5",
        b"B2",
        30,
        0,
    ),
    (
        br#"{"do":"disable","id":"q6","serial":"B2"}"#,
        b"disable",
        b"q6",
        b"B2",
        0,
        0,
    ),
    (
        br#"{"do":"sync","id":"q7","serial":"B2"}"#,
        b"sync",
        b"q7",
        b"B2",
        0,
        0,
    ),
    (br#"{"do":"order","id":"p1"}"#, b"order", b"p1", b"", 0, 0),
    (br#"{"do":"show","serial":"A1"}"#, b"show", b"", b"A1", 0, 0),
    (
        br#"{"do":"raise","serial":"A1"}"#,
        b"raise",
        b"",
        b"A1",
        0,
        0,
    ),
    (
        br#"{"do":"price","serial":"A1","from":2,"price":60}"#,
        b"price",
        b"",
        b"A1",
        2,
        60,
    ),
    (
        br#"{"do":"quote","serial":"A1","amount":350}"#,
        b"quote",
        b"",
        b"A1",
        350,
        0,
    ),
    (
        br#"{"do":"skip","serial":"A1","to":16383}"#,
        b"skip",
        b"",
        b"A1",
        16383,
        0,
    ),
];

#[test]
fn commands(rt: HostRuntime) {
    for (line, word, id, serial, first, second) in COMMANDS {
        match read(rt.alloc(), line) {
            Ok(command) => {
                let got = seen(&command);
                assert!(rt; got.0 == word && got.1 == id && got.2 == serial);
                assert!(rt; got.3 == first && got.4 == second);
            }
            Err(_) => panic!(rt; "no command"),
        }
    }
}

/// Lines with members at the bounds of their rules.
const AT_BOUNDS: [&[u8]; 9] = [
    br#"{"do":"show","serial":"abyzABYZ0189-_-_"}"#,
    br#"{"do":"order","id":"12345678901234567890123456789012"}"#,
    br#"{"do":"enroll","serial":"A","key":"ffffffffffffffffffffffffffffffff","start":999999999,"divider":240,"form":9,"price":1000000000,"total":1000000000000}"#,
    br#"{"do":"enroll","serial":"A","key":"FFFFFFFFFFFFFFFFFFFFFFFFFFFFFFFF","start":0,"divider":1,"form":15,"price":1,"total":1}"#,
    br#"{"do":"pay","serial":"A","id":"p","amount":1}"#,
    br#"{"do":"pay","serial":"A","id":"p","amount":1000000000000}"#,
    br#"{"do":"set","serial":"A","id":"p","units":0}"#,
    br#"{"do":"set","serial":"A","id":"p","units":995}"#,
    br#"{"do":"price","serial":"A","from":16383,"price":1000000000}"#,
];

#[test]
fn members_at_bounds(rt: HostRuntime) {
    for line in AT_BOUNDS {
        assert!(rt; read(rt.alloc(), line).is_ok());
    }
}
