// Lines as agents write them, and the lines that they are answered with.
use super::*;
use ledger_spec::Name;
use line_text::Line;
use std::alloc::Global;

/// What a sheet that a line asks for says of its name, its serial, its amount and its tokens.
fn sheet_in(alloc: Global, line: &[u8]) -> Option<Sheet> {
    match read(alloc, line) {
        Ok(Ask::Sheet(sheet)) => Some(sheet),
        _ => None,
    }
}

/// The sale that a line reports.
fn sold_in(alloc: Global, line: &[u8]) -> Option<Sold> {
    match read(alloc, line) {
        Ok(Ask::Sold(sold)) => Some(sold),
        _ => None,
    }
}

/// One sheet, written in other ways: with members in another order, one that is told twice, of which the last counts,
/// and one that isn't needed.
const SHEETS: [&[u8]; 4] = [
    br#"{"do":"sheet","sheet":"S1","serial":"A1","amount":350,"tokens":2}"#,
    br#"{"tokens":2,"amount":350,"serial":"A1","sheet":"S1","do":"sheet"}"#,
    br#"{"do":"sheet","sheet":"S1","serial":"A1","amount":350,"tokens":9,"tokens":2}"#,
    br#"{"do":"sheet","sheet":"S1","serial":"A1","amount":350,"tokens":2,"place":9}"#,
];

#[test]
fn sheets(rt: HostRuntime) {
    for line in SHEETS {
        match sheet_in(rt.alloc(), line) {
            Some(sheet) => {
                assert!(rt; sheet.sheet.bytes() == b"S1".as_slice());
                assert!(rt; sheet.serial.bytes() == b"A1".as_slice());
                assert!(rt; sheet.amount == 350 && sheet.tokens == 2);
            }
            None => panic!(rt; "no sheet"),
        }
    }
}

#[test]
fn sold(rt: HostRuntime) {
    let line = br#"{"money":1,"do":"sold","place":2,"sheet":"S1","sale":"x1","money":400}"#;
    match sold_in(rt.alloc(), line) {
        Some(sold) => {
            assert!(rt; sold.sheet.bytes() == b"S1".as_slice());
            assert!(rt; sold.sale.bytes() == b"x1".as_slice());
            assert!(rt; sold.place == 2 && sold.money == 400);
        }
        None => panic!(rt; "no sale"),
    }
}

/// Lines with members at the bounds of their rules.
const AT_BOUNDS: [&[u8]; 4] = [
    br#"{"do":"sheet","sheet":"123456789012345678901234567890","serial":"abyzABYZ0189-_-_","amount":1000000000000,"tokens":8}"#,
    br#"{"do":"sheet","sheet":"S","serial":"A","amount":1,"tokens":1}"#,
    br#"{"do":"sold","sheet":"S","place":8,"sale":"12345678901234567890123456789012","money":1000000000000}"#,
    br#"{"do":"sold","sheet":"S","place":1,"sale":"x","money":1}"#,
];

#[test]
fn members_at_bounds(rt: HostRuntime) {
    for line in AT_BOUNDS {
        assert!(rt; read(rt.alloc(), line).is_ok());
    }
}

/// Lines that break rules, and the least rule that each breaks.
const BROKEN: [(&[u8], u8); 18] = [
    (br#"{"do":"pay","id":"p1","serial":"A1","amount":350}"#, 1),
    (
        br#"{"sheet":"S1","serial":"A1","amount":350,"tokens":2}"#,
        1,
    ),
    (
        br#"{"do":"sheets","sheet":"","serial":"","amount":0,"tokens":0}"#,
        1,
    ),
    (br#"["do","sold"]"#, 1),
    (
        br#"{"do":"sheet","sheet":"","serial":"A b","amount":0,"tokens":0}"#,
        2,
    ),
    (
        br#"{"do":"sheet","sheet":"S1","serial":"12345678901234567","amount":350,"tokens":2}"#,
        2,
    ),
    (
        br#"{"do":"sheet","sheet":"","serial":"A1","amount":0,"tokens":0}"#,
        10,
    ),
    (
        br#"{"do":"sheet","sheet":"S1","serial":"A1","amount":1000000000001,"tokens":2}"#,
        10,
    ),
    (
        br#"{"do":"sheet","sheet":"1234567890123456789012345678901","serial":"A1","amount":350,"tokens":9}"#,
        13,
    ),
    (
        br#"{"do":"sheet","sheet":"S1","serial":"A1","amount":350,"tokens":9}"#,
        17,
    ),
    (
        br#"{"do":"sheet","sheet":"S1","serial":"A1","amount":350,"tokens":"2"}"#,
        17,
    ),
    (br#"{"do":"sold","place":0,"sale":"","money":0}"#, 13),
    (
        br#"{"do":"sold","sheet":"S1","place":9,"sale":"","money":0}"#,
        14,
    ),
    (
        br#"{"do":"sold","sheet":"S1","place":2.0,"sale":"","money":0}"#,
        14,
    ),
    (
        br#"{"do":"sold","sheet":"S1","place":2,"sale":"123456789012345678901234567890123","money":0}"#,
        15,
    ),
    (
        br#"{"do":"sold","sheet":"S1","place":2,"sale":"x 1","money":400}"#,
        15,
    ),
    (
        br#"{"do":"sold","sheet":"S1","place":2,"sale":"x1","money":0}"#,
        16,
    ),
    (
        br#"{"do":"sold","sheet":"S1","place":2,"sale":"x1","money":1000000000001}"#,
        16,
    ),
];

#[test]
fn broken_rules(rt: HostRuntime) {
    for (line, least) in BROKEN {
        match read(rt.alloc(), line) {
            Err(TextFault::Shape { rule }) => assert!(rt; rule == least),
            _ => panic!(rt; "no broken rule"),
        }
    }
}

/// Lines that have no JSON value.
const NO_JSON: [&[u8]; 3] = [br#"{"do":"sold","#, b"{do:sold}", b"{\"do\":\"\xff\"}"];

#[test]
fn no_json(rt: HostRuntime) {
    for line in NO_JSON {
        assert!(rt; matches!(read(rt.alloc(), line), Err(TextFault::Json)));
    }
}

/// The name of these bytes.
fn name(bytes: &[u8]) -> Option<Name> {
    Name::of(bytes, 32)
}

#[test]
fn ids(rt: HostRuntime) {
    for (sheet, place, id) in [
        (b"S1".as_slice(), 2u8, b"S1-2".as_slice()),
        (
            b"123456789012345678901234567890",
            8,
            b"123456789012345678901234567890-8",
        ),
    ] {
        match Name::of(sheet, 30) {
            Some(sheet) => assert!(rt; id_of(&sheet, place).bytes() == id),
            None => panic!(rt; "no name"),
        }
    }
}

// Whether a line has this text.
fn is_text(line: &Line, text: &[u8]) -> bool {
    line.as_bytes() == text
}

#[test]
fn texts(rt: HostRuntime) {
    match (name(b"S1"), name(b"x1")) {
        (Some(sheet), Some(sale)) => {
            let line = sold_line(&sheet, 2, &sale, 400);
            assert!(rt;
                is_text(
                    &line,
                    br#"{"ok":"sold","sheet":"S1","place":2,"sale":"x1","money":400}"#
                )
            );
        }
        _ => panic!(rt; "no names"),
    }
    assert!(rt; is_text(&sales_line(1, 500, 1), b"sales 1 500 1"));
    assert!(rt; is_text(&sales_line(0, 0, 0), b"sales 0 0 0"));
    let most = sales_line(u64::MAX, u128::MAX, u64::MAX);
    assert!(rt;
        is_text(
            &most,
            b"sales 18446744073709551615 340282366920938463463374607431768211455 18446744073709551615"
        )
    );
}
