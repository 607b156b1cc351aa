// Lines that break a rule: each is answered by the least one that it breaks, and nothing changes.
use super::{SHEETS, enrolled, said};
use paygo_spec::Memory;

/// Lines that ask for nothing, or for a sheet, and the rule that is answered.
const OF_SHEETS: [(&str, u8); 33] = [
    ("{}", 1),
    (r#"{"do":1,"sheet":"S1"}"#, 1),
    (r#"{"do":null}"#, 1),
    (r#"{"do":"pay","id":"p1","serial":"A1","amount":350}"#, 1),
    (
        r#"{"do":"Sheet","sheet":"S1","serial":"A1","amount":350,"tokens":2}"#,
        1,
    ),
    (
        r#"{"do":"sheets","sheet":"S1","serial":"A1","amount":350,"tokens":2}"#,
        1,
    ),
    (
        r#"{"do":"","sheet":"S1","serial":"A1","amount":350,"tokens":2}"#,
        1,
    ),
    (
        r#"{"do":"sheet","do":"show","sheet":"S1","serial":"A1","amount":350,"tokens":2}"#,
        1,
    ),
    (r#"{"sheet":"S1","serial":"A1","amount":350,"tokens":2}"#, 1),
    (r#"{"do":"sheet"}"#, 2),
    (r#"{"do":"sheet","sheet":"S1","amount":350,"tokens":2}"#, 2),
    (
        r#"{"do":"sheet","sheet":"S1","serial":"","amount":350,"tokens":2}"#,
        2,
    ),
    (
        r#"{"do":"sheet","sheet":"S1","serial":"A12345678901234567","amount":350,"tokens":2}"#,
        2,
    ),
    (
        r#"{"do":"sheet","sheet":"S1","serial":"A 1","amount":350,"tokens":2}"#,
        2,
    ),
    (
        r#"{"do":"sheet","sheet":"S1","serial":1,"amount":350,"tokens":2}"#,
        2,
    ),
    (
        r#"{"do":"sheet","sheet":"","serial":"A.1","amount":0,"tokens":0}"#,
        2,
    ),
    (r#"{"do":"sheet","serial":"A1"}"#, 10),
    (
        r#"{"do":"sheet","sheet":"S1","serial":"A1","tokens":2}"#,
        10,
    ),
    (
        r#"{"do":"sheet","sheet":"S1","serial":"A1","amount":0,"tokens":2}"#,
        10,
    ),
    (
        r#"{"do":"sheet","sheet":"S1","serial":"A1","amount":1000000000001,"tokens":2}"#,
        10,
    ),
    (
        r#"{"do":"sheet","sheet":"S1","serial":"A1","amount":-350,"tokens":2}"#,
        10,
    ),
    (
        r#"{"do":"sheet","sheet":"S1","serial":"A1","amount":350.0,"tokens":2}"#,
        10,
    ),
    (
        r#"{"do":"sheet","sheet":"S1","serial":"A1","amount":"350","tokens":2}"#,
        10,
    ),
    (
        r#"{"do":"sheet","sheet":"","serial":"A1","amount":18446744073709551616,"tokens":0}"#,
        10,
    ),
    (r#"{"do":"sheet","serial":"A1","amount":350}"#, 13),
    (
        r#"{"do":"sheet","sheet":"","serial":"A1","amount":350,"tokens":2}"#,
        13,
    ),
    (
        r#"{"do":"sheet","sheet":"1234567890123456789012345678901","serial":"A1","amount":350,"tokens":9}"#,
        13,
    ),
    (
        r#"{"do":"sheet","sheet":"S/1","serial":"A1","amount":350,"tokens":2}"#,
        13,
    ),
    (
        r#"{"do":"sheet","sheet":"S1","serial":"A1","amount":350}"#,
        17,
    ),
    (
        r#"{"do":"sheet","sheet":"S1","serial":"A1","amount":350,"tokens":0}"#,
        17,
    ),
    (
        r#"{"do":"sheet","sheet":"S1","serial":"A1","amount":350,"tokens":9}"#,
        17,
    ),
    (
        r#"{"do":"sheet","sheet":"S1","serial":"A1","amount":350,"tokens":2,"tokens":"2"}"#,
        17,
    ),
    (
        r#"{"do":"sheet","sheet":"S1","serial":"A1","amount":350,"tokens":258}"#,
        17,
    ),
];

/// Lines that report a sale, and the rule that is answered.
const OF_SALES: [(&str, u8); 19] = [
    (r#"{"do":"sold"}"#, 13),
    (r#"{"do":"sold","place":2,"sale":"x1","money":400}"#, 13),
    (
        r#"{"do":"sold","sheet":null,"place":0,"sale":"","money":0}"#,
        13,
    ),
    (
        r#"{"do":"sold","sheet":"1234567890123456789012345678901","place":2,"sale":"x1","money":400}"#,
        13,
    ),
    (r#"{"do":"sold","sheet":"S1"}"#, 14),
    (
        r#"{"do":"sold","sheet":"S1","place":0,"sale":"x1","money":400}"#,
        14,
    ),
    (
        r#"{"do":"sold","sheet":"S1","place":9,"sale":"","money":0}"#,
        14,
    ),
    (
        r#"{"do":"sold","sheet":"S1","place":257,"sale":"x1","money":400}"#,
        14,
    ),
    (
        r#"{"do":"sold","sheet":"S1","place":"2","sale":"x1","money":400}"#,
        14,
    ),
    (r#"{"do":"sold","sheet":"S1","place":2}"#, 15),
    (
        r#"{"do":"sold","sheet":"S1","place":2,"sale":"","money":400}"#,
        15,
    ),
    (
        r#"{"do":"sold","sheet":"S1","place":2,"sale":"123456789012345678901234567890123","money":0}"#,
        15,
    ),
    (
        r#"{"do":"sold","sheet":"S1","place":2,"sale":"é","money":400}"#,
        15,
    ),
    (
        r#"{"do":"sold","sheet":"S1","place":2,"sale":7,"money":400}"#,
        15,
    ),
    (r#"{"do":"sold","sheet":"S1","place":2,"sale":"x1"}"#, 16),
    (
        r#"{"do":"sold","sheet":"S1","place":2,"sale":"x1","money":0}"#,
        16,
    ),
    (
        r#"{"do":"sold","sheet":"S1","place":2,"sale":"x1","money":1000000000001}"#,
        16,
    ),
    (
        r#"{"do":"sold","sheet":"S1","place":2,"sale":"x1","money":1e3}"#,
        16,
    ),
    (
        r#"{"do":"sold","sheet":"S1","place":2,"sale":"x1","money":-400}"#,
        16,
    ),
];

#[test]
fn the_least_broken_rule_is_answered(rt: HostRuntime) -> Result<(), Memory> {
    let alloc = rt.alloc();
    let mut keeper = enrolled(&rt, alloc)?;
    let sheet = r#"{"do":"sheet","sheet":"S1","serial":"A1","amount":350,"tokens":2}
"#;
    said(&rt, alloc, &mut keeper, &SHEETS, sheet)?;
    let mut refused = 0u32;
    for (line, rule) in OF_SHEETS.iter().chain(OF_SALES.iter()) {
        let text = said(&rt, alloc, &mut keeper, &SHEETS, line)?;
        let want = format!(in alloc;
            "{{\"no\":10,\"why\":\"shape\",\"rule\":{rule}}}\nsales 0 0 0\n"
        );
        let want = want.map_err(|_| Memory)?;
        assert_eq!(rt; text.as_str(), want.as_str(), "{line}");
        refused = refused.saturating_add(1);
    }
    assert_eq!(rt; (refused, keeper.orders()), (52, 2));
    Ok(())
}

#[test]
fn members_that_are_not_needed_are_passed_over(rt: HostRuntime) -> Result<(), Memory> {
    let alloc = rt.alloc();
    let mut keeper = enrolled(&rt, alloc)?;
    let input =
        r#"{"tokens":1,"place":9,"sale":[],"amount":350,"money":0,"serial":"A1","sheet":"S1","do":"sheet"}
{"money":400,"tokens":0,"sale":"x","amount":0,"place":3,"place":1,"serial":"","do":"sold","id":{},"sheet":"S1"}
"#;
    let want =
        r#"{"ok":"order","id":"S1-1","serial":"A1","kind":"add","asked":350,"count":2,"value":7,"token":"123470796"}
{"ok":"sold","sheet":"S1","place":1,"sale":"x","money":400}
sales 1 400 0
"#;
    let text = said(&rt, alloc, &mut keeper, &SHEETS, input)?;
    assert_eq!(rt; text.as_str(), want);
    Ok(())
}
