// Lines that have no command, and the rule that each breaks.
use super::*;
use std::alloc::Global;
use std::process::Abort;

// A line is refused so.
fn refuse(rt: &impl Abort, alloc: Global, line: &[u8], want: TextFault) {
    match read(alloc, line) {
        Ok(_) => panic!(rt; "a command"),
        Err(fault) => assert!(rt; fault == want),
    }
}

/// Each line breaks this rule alone, or this rule as the least of two.
const BROKEN: [(u8, &[u8]); 38] = [
    (1, br#"{}"#),
    (1, br#"{"do":"fly"}"#),
    (1, br#"{"do":7,"serial":"A1"}"#),
    (1, br#"["show","A1"]"#),
    (1, br#""show""#),
    (2, br#"{"do":"pay","id":"p1","amount":350}"#),
    (2, br#"{"do":"show","serial":"12345678901234567"}"#),
    (2, br#"{"do":"raise","serial":"A 1"}"#),
    (2, br#"{"do":"sync","serial":"","id":""}"#),
    (2, br#"{"do":"pay","serial":"A.1","id":"p1","amount":0}"#),
    (
        3,
        br#"{"do":"order","id":"123456789012345678901234567890123"}"#,
    ),
    (3, br#"{"do":"disable","serial":"A1"}"#),
    (3, br#"{"do":"set","serial":"A1","units":996}"#),
    (
        4,
        br#"{"do":"enroll","serial":"A1","key":"0000000000000000000000000000000g","start":0,"divider":1,"form":9,"price":1,"total":1}"#,
    ),
    (
        4,
        br#"{"do":"enroll","serial":"A1","key":"00","start":1000000000,"divider":1,"form":9,"price":1,"total":1}"#,
    ),
    (
        5,
        br#"{"do":"enroll","serial":"A1","key":"00000000000000000000000000000000","start":1000000000,"divider":1,"form":9,"price":1,"total":1}"#,
    ),
    (
        6,
        br#"{"do":"enroll","serial":"A1","key":"00000000000000000000000000000000","start":0,"divider":7,"form":9,"price":1,"total":1}"#,
    ),
    (
        6,
        br#"{"do":"enroll","serial":"A1","key":"00000000000000000000000000000000","start":0,"divider":256,"form":9,"price":1,"total":0}"#,
    ),
    (
        7,
        br#"{"do":"enroll","serial":"A1","key":"00000000000000000000000000000000","start":0,"divider":1,"form":10,"price":1,"total":1}"#,
    ),
    (
        8,
        br#"{"do":"enroll","serial":"A1","key":"00000000000000000000000000000000","start":0,"divider":1,"form":9,"price":0,"total":1}"#,
    ),
    (
        8,
        br#"{"do":"price","serial":"A1","from":16384,"price":1000000001}"#,
    ),
    (
        9,
        br#"{"do":"enroll","serial":"A1","key":"00000000000000000000000000000000","start":0,"divider":1,"form":9,"price":1,"total":1000000000001}"#,
    ),
    (10, br#"{"do":"pay","serial":"A1","id":"p1"}"#),
    (10, br#"{"do":"pay","serial":"A1","id":"p1","amount":0}"#),
    (
        10,
        br#"{"do":"pay","serial":"A1","id":"p1","amount":1000000000001}"#,
    ),
    (
        10,
        br#"{"do":"pay","serial":"A1","id":"p1","amount":350.0}"#,
    ),
    (10, br#"{"do":"pay","serial":"A1","id":"p1","amount":35e1}"#),
    (10, br#"{"do":"pay","serial":"A1","id":"p1","amount":-1}"#),
    (
        10,
        br#"{"do":"pay","serial":"A1","id":"p1","amount":18446744073709551616}"#,
    ),
    (
        10,
        br#"{"do":"pay","serial":"A1","id":"p1","amount":"350"}"#,
    ),
    (
        10,
        br#"{"do":"pay","serial":"A1","id":"p1","amount":350,"amount":null}"#,
    ),
    (11, br#"{"do":"set","serial":"A1","id":"p1","units":996}"#),
    (11, br#"{"do":"set","serial":"A1","id":"p1","units":-0}"#),
    (
        12,
        br#"{"do":"price","serial":"A1","from":16384,"price":60}"#,
    ),
    (2, br#"{"do":"skip","to":1}"#),
    (10, br#"{"do":"quote","serial":"A1","amount":0}"#),
    (13, br#"{"do":"skip","serial":"A1"}"#),
    (13, br#"{"do":"skip","serial":"A1","to":16384}"#),
];

#[test]
fn broken_rules(rt: HostRuntime) {
    for (rule, line) in BROKEN {
        refuse(&rt, rt.alloc(), line, TextFault::Shape { rule });
    }
}

/// Each line has no JSON value: it ends too soon, is empty, goes on behind its value, is no UTF-8, or nests too deep.
const UNREAD: [&[u8]; 5] = [
    br#"{"do":"pay""#,
    b"",
    br#"{"do":"show","serial":"A1"} x"#,
    b"{\xff",
    br#"{"x":[[[[[[[[[[[[[[[[[[[[[[[[[[[[[[[[[[[[[[[[[[[[[[[[[[[[[[[[[[[[[[[[[[[[[[[[[[[[[[[[[[[[[[[[[[[[[[[[[[[[[[[[[[[[[[[[[[[[[[[[[[[[[[[[[[[[[[[[[[[[[[[[[[[[[[[[[[[[[[[[[[[[[[[[[[[[[[[[[[[[[[[[[[[[[[[[[[[[[[[[]]]]]]]]]]]]]]]]]]]]]]]]]]]]]]]]]]]]]]]]]]]]]]]]]]]]]]]]]]]]]]]]]]]]]]]]]]]]]]]]]]]]]]]]]]]]]]]]]]]]]]]]]]]]]]]]]]]]]]]]]]]]]]]]]]]]]]]]]]]]]]]]]]]]]]]]]]]]]]]]]]]]]]]]]]]]]]]]]]]]]]]]]]]]]]]]]]]]]]]]}"#,
];

#[test]
fn unread_lines(rt: HostRuntime) {
    for line in UNREAD {
        refuse(&rt, rt.alloc(), line, TextFault::Json);
    }
    refused_lines();
}
