// Sheets that are bought and reported, and what agents are answered.
use super::{CALM, SERVE, SHEETS, enrolled, joined, ran, repeated, said, tables, without_last};
use ledger_keeper::MemKeeper;
use paygo_cli::Status;
use paygo_spec::Memory;

/// A sheet of two tokens, and its orders.
const SHEET: &str = r#"{"do":"sheet","sheet":"S1","serial":"A1","amount":350,"tokens":2}
"#;

const ORDERS: &str =
    r#"{"ok":"order","id":"S1-1","serial":"A1","kind":"add","asked":350,"count":2,"value":7,"token":"123470796"}
{"ok":"order","id":"S1-2","serial":"A1","kind":"add","asked":350,"count":4,"value":7,"token":"123484796"}
"#;

/// The same payments, one by one.
const PAYMENTS: &str = r#"{"do":"pay","id":"S1-1","serial":"A1","amount":350}
{"do":"pay","id":"S1-2","serial":"A1","amount":350}
"#;

/// Sales of its second token, and of a third one, which it hasn't.
const SALES: &str = r#"{"do":"sold","sheet":"S1","place":2,"sale":"x2","money":400}
{"do":"sold","sheet":"S1","place":2,"sale":"x1","money":500}
{"do":"sold","sheet":"S1","place":2,"sale":"x2","money":400}
{"do":"sold","sheet":"S1","place":3,"sale":"x2","money":400}
"#;

const KEPT: &str = r#"{"ok":"sold","sheet":"S1","place":2,"sale":"x2","money":400}
{"ok":"sold","sheet":"S1","place":2,"sale":"x1","money":500}
{"ok":"sold","sheet":"S1","place":2,"sale":"x1","money":500}
{"no":8,"why":"no order"}
sales 1 500 1
"#;

#[test]
fn a_sheet_is_bought_and_reported(rt: HostRuntime) -> Result<(), Memory> {
    let alloc = rt.alloc();
    let mut keeper = enrolled(&rt, alloc)?;
    let input = joined(alloc, SHEET, SALES)?;
    let want = joined(alloc, ORDERS, KEPT)?;
    let text = said(&rt, alloc, &mut keeper, &SHEETS, &input)?;
    assert_eq!(rt; text.as_str(), want.as_str());
    // typed again it has the same orders, and the tables are as before; the reports are those of each run
    let before = tables(&rt, alloc, &mut keeper)?;
    let text = said(&rt, alloc, &mut keeper, &SHEETS, &input)?;
    assert_eq!(rt; text.as_str(), want.as_str());
    let text = said(&rt, alloc, &mut keeper, &SHEETS, SHEET)?;
    let want = joined(alloc, ORDERS, "sales 0 0 0\n")?;
    assert_eq!(rt; text.as_str(), want.as_str());
    // and the shop has them as the orders of those payments
    let text = said(&rt, alloc, &mut keeper, &SERVE, PAYMENTS)?;
    assert_eq!(rt; text.as_str(), ORDERS);
    assert_eq!(rt; tables(&rt, alloc, &mut keeper)?.as_str(), before.as_str());
    assert_eq!(rt; keeper.orders(), 2);
    Ok(())
}

#[test]
fn a_sheet_ends_at_its_first_refusal(rt: HostRuntime) -> Result<(), Memory> {
    let alloc = rt.alloc();
    let mut keeper = enrolled(&rt, alloc)?;
    let five = r#"{"do":"sheet","sheet":"S2","serial":"B2","amount":350,"tokens":5}
"#;
    let want =
        r#"{"ok":"order","id":"S2-1","serial":"B2","kind":"add","asked":350,"count":2,"value":7,"token":"123470796"}
{"ok":"order","id":"S2-2","serial":"B2","kind":"add","asked":350,"count":4,"value":7,"token":"123484796"}
{"ok":"order","id":"S2-3","serial":"B2","kind":"disable","asked":350,"count":5,"value":998,"token":"123491787"}
{"no":4,"why":"closed","paid":1050}
sales 0 0 0
"#;
    // again and again: the orders that it has are told, and the refusal
    for _ in 0..3u8 {
        let text = said(&rt, alloc, &mut keeper, &SHEETS, five)?;
        assert_eq!(rt; text.as_str(), want);
        assert_eq!(rt; keeper.orders(), 3);
    }
    // refused at the first token: no device, too little, too much, and an id that a payment of another amount has
    let rows = [
        (
            r#"{"do":"sheet","sheet":"S9","serial":"C3","amount":350,"tokens":8}"#,
            "{\"no\":1,\"why\":\"no device\"}\nsales 0 0 0\n",
        ),
        (
            r#"{"do":"sheet","sheet":"S9","serial":"A1","amount":49,"tokens":8}"#,
            "{\"no\":5,\"why\":\"small\",\"have\":49,\"price\":50}\nsales 0 0 0\n",
        ),
        (
            r#"{"do":"sheet","sheet":"S9","serial":"A1","amount":1000000000000,"tokens":1}"#,
            "{\"ok\":\"order\",\"id\":\"S9-1\",\"serial\":\"A1\",\"kind\":\"disable\",\"asked\":1000000000000,\
            \"count\":1,\"value\":998,\"token\":\"123463787\"}\nsales 0 0 0\n",
        ),
        (
            r#"{"do":"sheet","sheet":"S2","serial":"B2","amount":351,"tokens":8}"#,
            "{\"no\":2,\"why\":\"id used\",\"id\":\"S2-1\",\"serial\":\"B2\",\"kind\":\"add\",\"asked\":350,\
            \"count\":2,\"value\":7,\"token\":\"123470796\"}\nsales 0 0 0\n",
        ),
    ];
    for (line, want) in rows {
        let text = said(&rt, alloc, &mut keeper, &SHEETS, line)?;
        assert_eq!(rt; text.as_str(), want);
    }
    Ok(())
}

#[test]
fn a_longer_sheet_of_one_name_has_the_shorter_one(rt: HostRuntime) -> Result<(), Memory> {
    let alloc = rt.alloc();
    let mut keeper = enrolled(&rt, alloc)?;
    let input = r#"{"do":"sheet","sheet":"S1","serial":"A1","amount":350,"tokens":1}
{"do":"sold","sheet":"S1","place":2,"sale":"x","money":1}
{"do":"sheet","sheet":"S1","serial":"A1","amount":350,"tokens":2}
{"do":"sold","sheet":"S1","place":2,"sale":"x","money":1}
{"do":"sold","sheet":"S1","place":1,"sale":"x","money":1000000000000}
"#;
    let want =
        r#"{"ok":"order","id":"S1-1","serial":"A1","kind":"add","asked":350,"count":2,"value":7,"token":"123470796"}
{"no":8,"why":"no order"}
{"ok":"order","id":"S1-1","serial":"A1","kind":"add","asked":350,"count":2,"value":7,"token":"123470796"}
{"ok":"order","id":"S1-2","serial":"A1","kind":"add","asked":350,"count":4,"value":7,"token":"123484796"}
{"ok":"sold","sheet":"S1","place":2,"sale":"x","money":1}
{"ok":"sold","sheet":"S1","place":1,"sale":"x","money":1000000000000}
sales 2 1000000000001 0
"#;
    let text = said(&rt, alloc, &mut keeper, &SHEETS, input)?;
    assert_eq!(rt; text.as_str(), want);
    Ok(())
}

#[test]
fn an_order_of_the_shop_is_a_token_of_a_sheet(rt: HostRuntime) -> Result<(), Memory> {
    // whoever asked for the order, a report names it by sheet and place
    let alloc = rt.alloc();
    let mut keeper = enrolled(&rt, alloc)?;
    let set = r#"{"do":"set","id":"S-1-8","serial":"A1","units":3}
"#;
    said(&rt, alloc, &mut keeper, &SERVE, set)?;
    let input = r#"{"do":"sold","sheet":"S-1","place":8,"sale":"x","money":7}
{"do":"sold","sheet":"S","place":1,"sale":"x","money":7}
"#;
    let text = said(&rt, alloc, &mut keeper, &SHEETS, input)?;
    let want = r#"{"ok":"sold","sheet":"S-1","place":8,"sale":"x","money":7}
{"no":8,"why":"no order"}
sales 1 7 0
"#;
    assert_eq!(rt; text.as_str(), want);
    Ok(())
}

#[test]
fn names_of_full_length(rt: HostRuntime) -> Result<(), Memory> {
    let alloc = rt.alloc();
    let mut keeper = enrolled(&rt, alloc)?;
    let sheet = repeated(alloc, "abc_XYZ-09", 3, "")?;
    let sale = repeated(alloc, "Zz-_", 8, "")?;
    let input = format!(in alloc;
        "{{\"do\":\"sheet\",\"sheet\":\"{sheet}\",\"serial\":\"A1\",\"amount\":350,\"tokens\":8}}\n\
        {{\"do\":\"sold\",\"sheet\":\"{sheet}\",\"place\":8,\"sale\":\"{sale}\",\"money\":9}}\n"
    );
    let input = input.map_err(|_| Memory)?;
    let text = said(&rt, alloc, &mut keeper, &SHEETS, &input)?;
    let last = format!(in alloc;
        "{{\"ok\":\"order\",\"id\":\"{sheet}-8\",\"serial\":\"A1\",\"kind\":\"add\",\"asked\":350,\"count\":16,\
        \"value\":7,\"token\":\"123568796\"}}\n\
        {{\"ok\":\"sold\",\"sheet\":\"{sheet}\",\"place\":8,\"sale\":\"{sale}\",\"money\":9}}\n\
        sales 1 9 0\n"
    );
    let last = last.map_err(|_| Memory)?;
    assert_eq!(rt; text.lines().count(), 10);
    assert!(rt; text.ends_with(last.as_str()), "{text}");
    Ok(())
}

#[test]
fn lines_that_are_no_ask(rt: HostRuntime) -> Result<(), Memory> {
    let alloc = rt.alloc();
    let rows = [
        ("", "sales 0 0 0\n"),
        ("\n\r\n\n", "sales 0 0 0\n"),
        ("\r", "sales 0 0 0\n"),
        ("power\r\n", "no device here\nsales 0 0 0\n"),
        ("\r\r\n", "no device here\nsales 0 0 0\n"),
        (" {}\n", "no device here\nsales 0 0 0\n"),
        (
            "sales 1 500 1\nshow",
            "no device here\nno device here\nsales 0 0 0\n",
        ),
        ("{", "{\"no\":9,\"why\":\"json\"}\nsales 0 0 0\n"),
        (
            "{\"do\":\"sheet\"}}\n",
            "{\"no\":9,\"why\":\"json\"}\nsales 0 0 0\n",
        ),
        (
            "{\"do\":\"sheet\",}\n",
            "{\"no\":9,\"why\":\"json\"}\nsales 0 0 0\n",
        ),
        (
            "{\"do\":\"sheet\"} x\n",
            "{\"no\":9,\"why\":\"json\"}\nsales 0 0 0\n",
        ),
    ];
    for (input, want) in rows {
        let mut keeper = enrolled(&rt, alloc)?;
        let text = said(&rt, alloc, &mut keeper, &SHEETS, input)?;
        assert_eq!(rt; text.as_str(), want, "{input:?}");
    }
    // bytes that are no text, and one byte 13 behind a line
    let mut keeper = enrolled(&rt, alloc)?;
    let run = ran(
        &rt,
        alloc,
        &mut keeper,
        &SHEETS,
        &[b'{', 0xFF, b'\n', 0xFF],
        CALM,
    )?;
    assert_eq!(rt;
        (run.0, run.1.as_str()),
        (
            Status::Ok,
            "{\"no\":9,\"why\":\"json\"}\nno device here\nsales 0 0 0\n"
        )
    );
    let line = joined(alloc, SHEET.trim_end(), "\r\n")?;
    let text = said(&rt, alloc, &mut keeper, &SHEETS, &line)?;
    let want = joined(alloc, ORDERS, "sales 0 0 0\n")?;
    assert_eq!(rt; text.as_str(), want.as_str());
    Ok(())
}

#[test]
fn the_longest_line_and_longer_ones(rt: HostRuntime) -> Result<(), Memory> {
    let alloc = rt.alloc();
    let ask = SHEET.trim_end();
    let spaces = 4096usize.saturating_sub(ask.len());
    let line = repeated(alloc, " ", spaces, "\n")?;
    let line = joined(alloc, ask, &line)?;
    let more = joined(alloc, ask, &repeated(alloc, " ", spaces, "\r\n")?)?;
    let most = joined(alloc, &repeated(alloc, "x", 10_000, "\n")?, &more)?;
    for (input, want) in [
        (&line, ORDERS),
        (&more, "long 4097\n"),
        (&most, "long 10000\nlong 4097\n"),
    ] {
        let mut keeper = enrolled(&rt, alloc)?;
        let text = said(&rt, alloc, &mut keeper, &SHEETS, input)?;
        assert_eq!(rt; without_last(&text), want);
        assert!(rt; text.ends_with("\nsales 0 0 0\n"));
    }
    Ok(())
}

#[test]
fn words_of_another_form(rt: HostRuntime) -> Result<(), Memory> {
    let alloc = rt.alloc();
    let rows: [&[&str]; 4] = [
        &["sheets"],
        &["sheets", ""],
        &["sheets", "D", "F"],
        &["sheet", "D"],
    ];
    for words in rows {
        let mut keeper = MemKeeper::new(alloc);
        let run = ran(&rt, alloc, &mut keeper, words, SHEET.as_bytes(), CALM)?;
        assert_eq!(rt; (run.0, run.1.as_str()), (Status::Usage, ""));
    }
    Ok(())
}
