// The lines of answers, letter by letter.
use super::*;
use ledger_spec::{Ask, Kind, Name, Order, PriceChange, Quote, Row};
use paygo_spec::Form;
use std::process::Abort;

// The answer has this line, and is written so, with the rest left as it was.
fn write_is(rt: &impl Abort, answer: &Answer, want: &[u8]) {
    assert!(rt; answer_line(answer).as_bytes() == want);
    let mut out = [7; 512];
    let count = write(answer, &mut out);
    assert!(rt; count == want.len() && count < 512);
    assert!(rt; &out[..count] == want && out[511] == 7);
}

fn name(rt: &impl Abort, bytes: &[u8]) -> Name {
    Name::of(bytes, 16).expect(rt, "a name")
}

// The row of the device A1, with a key that isn't written.
fn row(rt: &impl Abort, paid: u64, last: u16, limit: u16) -> Row {
    Row {
        serial: name(rt, b"A1"),
        key: *b"0123456789abcdef",
        start: 123_456_789,
        divider: 1,
        form: Form::Nine,
        price: 50,
        total: 18_000,
        paid,
        rest: 0,
        last,
        limit,
        closed: false,
    }
}

fn order(rt: &impl Abort, id: &[u8], ask: Ask, kind: Kind, value: u16, token: u32) -> Order {
    Order {
        id: name(rt, id),
        serial: name(rt, b"A1"),
        ask,
        kind,
        count: 2,
        value,
        token,
    }
}

#[test]
fn rows(rt: HostRuntime) {
    write_is(
        &rt,
        &Answer::Row(row(&rt, 0, 0, 4095)),
        br#"{"ok":"row","serial":"A1","start":123456789,"divider":1,"form":9,"price":50,"total":18000,"paid":0,"rest":0,"last":0,"closed":false}"#,
    );
    write_is(
        &rt,
        &Answer::Row(row(&rt, 350, 2, 16_383)),
        br#"{"ok":"row","serial":"A1","start":123456789,"divider":1,"form":9,"price":50,"total":18000,"paid":350,"rest":0,"last":2,"closed":false,"limit":16383}"#,
    );
    write_is(
        &rt,
        &Answer::SerialUsed(row(&rt, 350, 2, 4095)),
        br#"{"no":3,"why":"serial used","serial":"A1","start":123456789,"divider":1,"form":9,"price":50,"total":18000,"paid":350,"rest":0,"last":2,"closed":false}"#,
    );
}

#[test]
fn orders(rt: HostRuntime) {
    let paid = order(&rt, b"p1", Ask::Pay(350), Kind::Add, 7, 123_470_796);
    write_is(
        &rt,
        &Answer::Order(paid, Form::Nine),
        br#"{"ok":"order","id":"p1","serial":"A1","kind":"add","asked":350,"count":2,"value":7,"token":"123470796"}"#,
    );
    let set = order(&rt, b"q5", Ask::Set(30), Kind::Set, 30, 123_463_819);
    write_is(
        &rt,
        &Answer::Order(set, Form::Fifteen),
        br#"{"ok":"order","id":"q5","serial":"A1","kind":"set","asked":30,"count":2,"value":30,"token":"124223443313134"}"#,
    );
    let free = order(&rt, b"q6", Ask::Disable, Kind::Disable, 998, 0);
    write_is(
        &rt,
        &Answer::IdUsed(free, Form::Nine),
        br#"{"no":2,"why":"id used","id":"q6","serial":"A1","kind":"disable","asked":0,"count":2,"value":998,"token":"000000000"}"#,
    );
    let sync = order(&rt, b"q7", Ask::Sync, Kind::Sync, 999, 999_999_999);
    write_is(
        &rt,
        &Answer::IdUsed(sync, Form::Fifteen),
        br#"{"no":2,"why":"id used","id":"q7","serial":"A1","kind":"sync","asked":0,"count":2,"value":999,"token":"434323341324444"}"#,
    );
}

#[test]
fn prices(rt: HostRuntime) {
    let change = PriceChange {
        serial: name(&rt, b"A1"),
        from: 2,
        price: 60,
    };
    write_is(
        &rt,
        &Answer::Price(change),
        br#"{"ok":"price","serial":"A1","from":2,"price":60}"#,
    );
    write_is(
        &rt,
        &Answer::PriceUsed { price: 60 },
        br#"{"no":11,"why":"price used","price":60}"#,
    );
    write_is(
        &rt,
        &Answer::Stale { last: 6 },
        br#"{"no":12,"why":"stale","last":6}"#,
    );
}

// A quote for the device A1.
fn quote(rt: &impl Abort, kind: Kind, count: u16, value: u16, rest: u64, near: bool) -> Quote {
    Quote {
        serial: name(rt, b"A1"),
        kind,
        count,
        value,
        rest,
        near,
    }
}

#[test]
fn quotes(rt: HostRuntime) {
    write_is(
        &rt,
        &Answer::Quote(quote(&rt, Kind::Add, 16_383, 995, 49, true)),
        br#"{"ok":"quote","serial":"A1","kind":"add","count":16383,"value":995,"rest":49,"near":true}"#,
    );
    write_is(
        &rt,
        &Answer::Quote(quote(&rt, Kind::Disable, 1, 998, 0, false)),
        br#"{"ok":"quote","serial":"A1","kind":"disable","count":1,"value":998,"rest":0,"near":false}"#,
    );
    write_is(
        &rt,
        &Answer::Beyond { limit: 4095 },
        br#"{"no":13,"why":"beyond","limit":4095}"#,
    );
}

#[test]
fn refusals(rt: HostRuntime) {
    write_is(&rt, &Answer::NoDevice, br#"{"no":1,"why":"no device"}"#);
    write_is(
        &rt,
        &Answer::Closed { paid: 100_000 },
        br#"{"no":4,"why":"closed","paid":100000}"#,
    );
    write_is(
        &rt,
        &Answer::Small { have: 9, price: 10 },
        br#"{"no":5,"why":"small","have":9,"price":10}"#,
    );
    write_is(
        &rt,
        &Answer::Large { units: 996 },
        br#"{"no":6,"why":"large","units":996}"#,
    );
    write_is(
        &rt,
        &Answer::NoCount { last: 0 },
        br#"{"no":7,"why":"no count","last":0}"#,
    );
    write_is(&rt, &Answer::NoOrder, br#"{"no":8,"why":"no order"}"#);
}

#[test]
fn faults(rt: HostRuntime) {
    assert!(rt; fault_line(&TextFault::Json).as_bytes() == br#"{"no":9,"why":"json"}"#.as_slice());
    let shape = fault_line(&TextFault::Shape { rule: 1 });
    assert!(rt; shape.as_bytes() == br#"{"no":10,"why":"shape","rule":1}"#.as_slice());
    assert!(rt; fault_line(&TextFault::Memory).is_empty());
    refused_lines();
    key_is_never_written();
}
