// What the lines of the shop are answered.
use super::{joined, repeated, served};
use ledger_keeper::MemKeeper;
use paygo_spec::Memory;
use token_chain::{Mixer, Stride};

/// A device that is enrolled, and its row.
pub(super) const ENROLL: &str =
    r#"{"do":"enroll","serial":"A1","key":"00000000000000000000000000000000","start":123456789,"divider":1,"form":9,"price":50,"total":18000}
"#;

pub(super) const ROW: &str =
    r#"{"ok":"row","serial":"A1","start":123456789,"divider":1,"form":9,"price":50,"total":18000,"paid":0,"rest":0,"last":0,"closed":false}
"#;

/// A payment of a week, and its order.
pub(super) const PAY: &str = r#"{"do":"pay","id":"p1","serial":"A1","amount":350}
"#;

pub(super) const ORDER: &str =
    r#"{"ok":"order","id":"p1","serial":"A1","kind":"add","asked":350,"count":2,"value":7,"token":"123470796"}
"#;

/// Lines of a new shop, and what they are answered.
const ROWS: [(&str, &str); 10] = [
    // a payment, the same again, and the same id for another amount
    (
        r#"{"do":"enroll","serial":"A1","key":"00000000000000000000000000000000","start":123456789,"divider":1,"form":9,"price":50,"total":18000}
{"do":"pay","id":"p1","serial":"A1","amount":350}
{"do":"pay","id":"p1","serial":"A1","amount":350}
{"do":"pay","id":"p1","serial":"A1","amount":400}
"#,
        r#"{"ok":"row","serial":"A1","start":123456789,"divider":1,"form":9,"price":50,"total":18000,"paid":0,"rest":0,"last":0,"closed":false}
{"ok":"order","id":"p1","serial":"A1","kind":"add","asked":350,"count":2,"value":7,"token":"123470796"}
{"ok":"order","id":"p1","serial":"A1","kind":"add","asked":350,"count":2,"value":7,"token":"123470796"}
{"no":2,"why":"id used","id":"p1","serial":"A1","kind":"add","asked":350,"count":2,"value":7,"token":"123470796"}
"#,
    ),
    // quotes: of a device that isn't there, of a payment that comes true, of too little, of the whole; and counts that are
    // skipped: none lowered, none beyond the limit, a closed row
    (
        r#"{"do":"quote","serial":"A1","amount":350}
{"do":"enroll","serial":"A1","key":"00000000000000000000000000000000","start":123456789,"divider":1,"form":9,"price":50,"total":18000}
{"do":"quote","serial":"A1","amount":370}
{"do":"pay","id":"p1","serial":"A1","amount":370}
{"do":"quote","serial":"A1","amount":29}
{"do":"quote","serial":"A1","amount":0}
{"do":"skip","serial":"A1","to":1}
{"do":"skip","serial":"A1","to":300}
{"do":"skip","serial":"A1","to":300}
{"do":"skip","serial":"A1","to":4096}
{"do":"skip","serial":"A1","to":16384}
{"do":"skip","serial":"B2","to":3}
{"do":"quote","serial":"A1","amount":17630}
{"do":"pay","id":"p2","serial":"A1","amount":17630}
{"do":"quote","serial":"A1","amount":1}
{"do":"skip","serial":"A1","to":400}
"#,
        r#"{"no":1,"why":"no device"}
{"ok":"row","serial":"A1","start":123456789,"divider":1,"form":9,"price":50,"total":18000,"paid":0,"rest":0,"last":0,"closed":false}
{"ok":"quote","serial":"A1","kind":"add","count":2,"value":7,"rest":20,"near":true}
{"ok":"order","id":"p1","serial":"A1","kind":"add","asked":370,"count":2,"value":7,"token":"123470796"}
{"no":5,"why":"small","have":49,"price":50}
{"no":10,"why":"shape","rule":10}
{"ok":"row","serial":"A1","start":123456789,"divider":1,"form":9,"price":50,"total":18000,"paid":370,"rest":20,"last":2,"closed":false}
{"ok":"row","serial":"A1","start":123456789,"divider":1,"form":9,"price":50,"total":18000,"paid":370,"rest":20,"last":300,"closed":false}
{"ok":"row","serial":"A1","start":123456789,"divider":1,"form":9,"price":50,"total":18000,"paid":370,"rest":20,"last":300,"closed":false}
{"no":13,"why":"beyond","limit":4095}
{"no":10,"why":"shape","rule":13}
{"no":1,"why":"no device"}
{"ok":"quote","serial":"A1","kind":"disable","count":301,"value":998,"rest":0,"near":true}
{"ok":"order","id":"p2","serial":"A1","kind":"disable","asked":17630,"count":301,"value":998,"token":"125563787"}
{"no":4,"why":"closed","paid":18000}
{"ok":"row","serial":"A1","start":123456789,"divider":1,"form":9,"price":50,"total":18000,"paid":18000,"rest":0,"last":400,"closed":true}
"#,
    ),
    // a second device: too little, too much, the whole, and a time set again
    (
        r#"{"do":"enroll","serial":"B2","key":"00000000000000000000000000000000","start":123456789,"divider":1,"form":9,"price":10,"total":100000}
{"do":"pay","id":"q1","serial":"B2","amount":9}
{"do":"pay","id":"q2","serial":"B2","amount":9960}
{"do":"pay","id":"q3","serial":"B2","amount":100000}
{"do":"pay","id":"q4","serial":"B2","amount":10}
{"do":"set","id":"q5","serial":"B2","units":30}
{"do":"show","serial":"B2"}
"#,
        r#"{"ok":"row","serial":"B2","start":123456789,"divider":1,"form":9,"price":10,"total":100000,"paid":0,"rest":0,"last":0,"closed":false}
{"no":5,"why":"small","have":9,"price":10}
{"no":6,"why":"large","units":996}
{"ok":"order","id":"q3","serial":"B2","kind":"disable","asked":100000,"count":1,"value":998,"token":"123463787"}
{"no":4,"why":"closed","paid":100000}
{"ok":"order","id":"q5","serial":"B2","kind":"set","asked":30,"count":3,"value":30,"token":"123477819"}
{"ok":"row","serial":"B2","start":123456789,"divider":1,"form":9,"price":10,"total":100000,"paid":100000,"rest":0,"last":3,"closed":false}
"#,
    ),
    // a sync token, the same again, and its id for another command
    (
        r#"{"do":"enroll","serial":"A1","key":"00000000000000000000000000000000","start":123456789,"divider":1,"form":9,"price":50,"total":18000}
{"do":"pay","id":"p1","serial":"A1","amount":350}
{"do":"pay","id":"p1","serial":"A1","amount":350}
{"do":"pay","id":"p1","serial":"A1","amount":400}
{"do":"sync","serial":"A1","id":"y1"}
{"do":"sync","serial":"A1","id":"y1"}
{"do":"disable","serial":"A1","id":"y1"}
"#,
        r#"{"ok":"row","serial":"A1","start":123456789,"divider":1,"form":9,"price":50,"total":18000,"paid":0,"rest":0,"last":0,"closed":false}
{"ok":"order","id":"p1","serial":"A1","kind":"add","asked":350,"count":2,"value":7,"token":"123470796"}
{"ok":"order","id":"p1","serial":"A1","kind":"add","asked":350,"count":2,"value":7,"token":"123470796"}
{"no":2,"why":"id used","id":"p1","serial":"A1","kind":"add","asked":350,"count":2,"value":7,"token":"123470796"}
{"ok":"order","id":"y1","serial":"A1","kind":"sync","asked":0,"count":3,"value":999,"token":"123477788"}
{"ok":"order","id":"y1","serial":"A1","kind":"sync","asked":0,"count":3,"value":999,"token":"123477788"}
{"no":2,"why":"id used","id":"y1","serial":"A1","kind":"sync","asked":0,"count":3,"value":999,"token":"123477788"}
"#,
    ),
    // orders and rows are shown, and refused where there are none
    (
        r#"{"do":"enroll","serial":"A1","key":"00000000000000000000000000000000","start":123456789,"divider":1,"form":9,"price":50,"total":18000}
{"do":"pay","id":"p1","serial":"A1","amount":350}
{"do":"pay","id":"p1","serial":"A1","amount":350}
{"do":"pay","id":"p1","serial":"A1","amount":400}
{"do":"order","id":"p1"}
{"do":"order","id":"zz"}
{"do":"show","serial":"ZZ"}
{"do":"pay","id":"p9","serial":"ZZ","amount":350}
{"do":"raise","serial":"ZZ"}
{"do":"price","serial":"ZZ","from":0,"price":1}
"#,
        r#"{"ok":"row","serial":"A1","start":123456789,"divider":1,"form":9,"price":50,"total":18000,"paid":0,"rest":0,"last":0,"closed":false}
{"ok":"order","id":"p1","serial":"A1","kind":"add","asked":350,"count":2,"value":7,"token":"123470796"}
{"ok":"order","id":"p1","serial":"A1","kind":"add","asked":350,"count":2,"value":7,"token":"123470796"}
{"no":2,"why":"id used","id":"p1","serial":"A1","kind":"add","asked":350,"count":2,"value":7,"token":"123470796"}
{"ok":"order","id":"p1","serial":"A1","kind":"add","asked":350,"count":2,"value":7,"token":"123470796"}
{"no":8,"why":"no order"}
{"no":1,"why":"no device"}
{"no":1,"why":"no device"}
{"no":1,"why":"no device"}
{"no":1,"why":"no device"}
"#,
    ),
    // a row is raised once, and its limit is told from then on
    (
        r#"{"do":"enroll","serial":"A1","key":"00000000000000000000000000000000","start":123456789,"divider":1,"form":9,"price":50,"total":18000}
{"do":"pay","id":"p1","serial":"A1","amount":350}
{"do":"pay","id":"p1","serial":"A1","amount":350}
{"do":"pay","id":"p1","serial":"A1","amount":400}
{"do":"raise","serial":"A1"}
{"do":"raise","serial":"A1"}
"#,
        r#"{"ok":"row","serial":"A1","start":123456789,"divider":1,"form":9,"price":50,"total":18000,"paid":0,"rest":0,"last":0,"closed":false}
{"ok":"order","id":"p1","serial":"A1","kind":"add","asked":350,"count":2,"value":7,"token":"123470796"}
{"ok":"order","id":"p1","serial":"A1","kind":"add","asked":350,"count":2,"value":7,"token":"123470796"}
{"no":2,"why":"id used","id":"p1","serial":"A1","kind":"add","asked":350,"count":2,"value":7,"token":"123470796"}
{"ok":"row","serial":"A1","start":123456789,"divider":1,"form":9,"price":50,"total":18000,"paid":350,"rest":0,"last":2,"closed":false,"limit":16383}
{"ok":"row","serial":"A1","start":123456789,"divider":1,"form":9,"price":50,"total":18000,"paid":350,"rest":0,"last":2,"closed":false,"limit":16383}
"#,
    ),
    // a price changes from the last count on
    (
        r#"{"do":"enroll","serial":"A1","key":"00000000000000000000000000000000","start":123456789,"divider":1,"form":9,"price":50,"total":18000}
{"do":"pay","id":"p1","serial":"A1","amount":350}
{"do":"pay","id":"p1","serial":"A1","amount":350}
{"do":"pay","id":"p1","serial":"A1","amount":400}
{"do":"price","serial":"A1","from":2,"price":60}
{"do":"pay","id":"p2","serial":"A1","amount":350}
{"do":"price","serial":"A1","from":4,"price":40}
{"do":"pay","id":"p3","serial":"A1","amount":10}
{"do":"price","serial":"A1","from":2,"price":60}
{"do":"price","serial":"A1","from":2,"price":70}
{"do":"price","serial":"A1","from":5,"price":30}
{"do":"show","serial":"A1"}
"#,
        r#"{"ok":"row","serial":"A1","start":123456789,"divider":1,"form":9,"price":50,"total":18000,"paid":0,"rest":0,"last":0,"closed":false}
{"ok":"order","id":"p1","serial":"A1","kind":"add","asked":350,"count":2,"value":7,"token":"123470796"}
{"ok":"order","id":"p1","serial":"A1","kind":"add","asked":350,"count":2,"value":7,"token":"123470796"}
{"no":2,"why":"id used","id":"p1","serial":"A1","kind":"add","asked":350,"count":2,"value":7,"token":"123470796"}
{"ok":"price","serial":"A1","from":2,"price":60}
{"ok":"order","id":"p2","serial":"A1","kind":"add","asked":350,"count":4,"value":5,"token":"123484794"}
{"ok":"price","serial":"A1","from":4,"price":40}
{"ok":"order","id":"p3","serial":"A1","kind":"add","asked":10,"count":6,"value":1,"token":"123498790"}
{"ok":"price","serial":"A1","from":2,"price":60}
{"no":11,"why":"price used","price":60}
{"no":12,"why":"stale","last":6}
{"ok":"row","serial":"A1","start":123456789,"divider":1,"form":9,"price":50,"total":18000,"paid":710,"rest":20,"last":6,"closed":false}
"#,
    ),
    // a serial is enrolled again: as it was, or otherwise
    (
        r#"{"do":"enroll","serial":"A1","key":"00000000000000000000000000000000","start":123456789,"divider":1,"form":9,"price":50,"total":18000}
{"do":"enroll","serial":"A1","key":"00000000000000000000000000000000","start":123456789,"divider":1,"form":9,"price":50,"total":18000}
{"do":"enroll","serial":"A1","key":"00000000000000000000000000000000","start":123456789,"divider":1,"form":9,"price":60,"total":18000}
"#,
        r#"{"ok":"row","serial":"A1","start":123456789,"divider":1,"form":9,"price":50,"total":18000,"paid":0,"rest":0,"last":0,"closed":false}
{"ok":"row","serial":"A1","start":123456789,"divider":1,"form":9,"price":50,"total":18000,"paid":0,"rest":0,"last":0,"closed":false}
{"no":3,"why":"serial used","serial":"A1","start":123456789,"divider":1,"form":9,"price":50,"total":18000,"paid":0,"rest":0,"last":0,"closed":false}
"#,
    ),
    // lines that are no command
    (
        "{\"do\":\"pay\"\n{\"do\":\"fly\"}\n{\"do\":\"pay\",\"id\":\"p1\",\"amount\":350}\n{\"do\":\"enroll\",\"serial\":\"A1\",\"key\":\"00000000000000000000000000000000\",\"start\":123456789,\"divider\":7,\"form\":9,\"price\":50,\"total\":18000}\n{\"do\":\"set\",\"id\":\"q5\",\"serial\":\"B2\",\"units\":996}\npower\n\n\r\n {\"do\":\"pay\",\"id\":\"p1\",\"serial\":\"A1\",\"amount\":350}\n",
        r#"{"no":9,"why":"json"}
{"no":10,"why":"shape","rule":1}
{"no":10,"why":"shape","rule":2}
{"no":10,"why":"shape","rule":6}
{"no":10,"why":"shape","rule":11}
no device here
no device here
"#,
    ),
    // amounts that are no whole number
    (
        r#"{"do":"enroll","serial":"A1","key":"00000000000000000000000000000000","start":123456789,"divider":1,"form":9,"price":50,"total":18000}
{"do":"pay","id":"p1","serial":"A1","amount":350.0}
{"do":"pay","id":"p1","serial":"A1","amount":-1}
{"do":"pay","id":"p1","serial":"A1","amount":18446744073709551616}
{"do":"pay","id":"p1","serial":"A1","amount":0}
"#,
        r#"{"ok":"row","serial":"A1","start":123456789,"divider":1,"form":9,"price":50,"total":18000,"paid":0,"rest":0,"last":0,"closed":false}
{"no":10,"why":"shape","rule":10}
{"no":10,"why":"shape","rule":10}
{"no":10,"why":"shape","rule":10}
{"no":10,"why":"shape","rule":10}
"#,
    ),
];

#[test]
fn lines_of_a_new_shop(rt: HostRuntime) -> Result<(), Memory> {
    for (input, want) in ROWS {
        let mut keeper = MemKeeper::new(rt.alloc());
        let text = served::<Stride<7>>(rt.alloc(), &mut keeper, input.as_bytes())?;
        assert_eq!(rt; text.as_str(), want);
    }
    Ok(())
}

#[test]
fn nested_lines_and_lines_that_are_no_text(rt: HostRuntime) -> Result<(), Memory> {
    let mut keeper = MemKeeper::new(rt.alloc());
    let text = served::<Stride<7>>(rt.alloc(), &mut keeper, ENROLL.as_bytes())?;
    assert_eq!(rt; text.as_str(), ROW);
    // fifty lists in a member that isn't needed are passed over; two hundred are too deep
    let lists = joined(
        rt.alloc(),
        &repeated(rt.alloc(), "[", 50, "")?,
        &repeated(rt.alloc(), "]", 50, "")?,
    )?;
    let line = joined(rt.alloc(), r#"{"x":"#, &lists)?;
    let line = joined(
        rt.alloc(),
        &line,
        r#","do":"pay","id":"p1","serial":"A1","amount":350}
"#,
    )?;
    let text = served::<Stride<7>>(rt.alloc(), &mut keeper, line.as_bytes())?;
    assert_eq!(rt; text.as_str(), ORDER);
    let lists = joined(
        rt.alloc(),
        &repeated(rt.alloc(), "[", 200, "")?,
        &repeated(rt.alloc(), "]", 200, "}\n")?,
    )?;
    let line = joined(rt.alloc(), r#"{"x":"#, &lists)?;
    let text = served::<Stride<7>>(rt.alloc(), &mut keeper, line.as_bytes())?;
    assert_eq!(rt;
        text.as_str(),
        r#"{"no":9,"why":"json"}
"#
    );
    let text = served::<Stride<7>>(rt.alloc(), &mut keeper, &[b'{', 0xFF, b'\n'])?;
    assert_eq!(rt;
        text.as_str(),
        r#"{"no":9,"why":"json"}
"#
    );
    Ok(())
}

#[test]
fn counts_that_the_chain_has_none_of(rt: HostRuntime) -> Result<(), Memory> {
    // on this chain each token is that of every thousandth count, so none is issued
    let mut keeper = MemKeeper::new(rt.alloc());
    let input = joined(rt.alloc(), ENROLL, PAY)?;
    let text = served::<Stride<1000>>(rt.alloc(), &mut keeper, input.as_bytes())?;
    let want = joined(
        rt.alloc(),
        ROW,
        r#"{"no":7,"why":"no count","last":0}
"#,
    )?;
    assert_eq!(rt; text.as_str(), want.as_str());
    Ok(())
}
