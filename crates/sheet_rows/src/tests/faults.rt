// Keeper, input and output fail, each at each of its calls: what was answered stays, and the same lines typed again
// come to the same.
use super::{CALM, Plan, SERVE, SHEETS, enrolled, ran, said, tables, whole_lines, without_last};
use ledger_keeper::MemKeeper;
use paygo_cli::Status;
use paygo_spec::Memory;
use std::alloc::Global;
use std::process::Abort;

/// Sheets and sales of a day: a sheet that is refused in its middle, one that grows, and lines that are no ask.
const DAY: &str = r#"{"do":"sheet","sheet":"S1","serial":"A1","amount":350,"tokens":2}
{"do":"sold","sheet":"S1","place":2,"sale":"x2","money":400}
power
{"do":"sheet","sheet":"S2","serial":"B2","amount":350,"tokens":5}
{"do":"sold","sheet":"S1","place":2,"sale":"x1","money":500}
{"do":"sold","sheet":"S2","place":4,"sale":"x1","money":500}
{"do":"sheet","sheet":"S1","serial":"A1","amount":350,"tokens":3}
{"do":"sold","sheet":"S2","place":3,"sale":"x9","money":350}
{"do":"sold","sheet":"S2","place":0,"sale":"x9","money":350}
"#;

/// What they are answered.
const SAID: &str =
    r#"{"ok":"order","id":"S1-1","serial":"A1","kind":"add","asked":350,"count":2,"value":7,"token":"123470796"}
{"ok":"order","id":"S1-2","serial":"A1","kind":"add","asked":350,"count":4,"value":7,"token":"123484796"}
{"ok":"sold","sheet":"S1","place":2,"sale":"x2","money":400}
no device here
{"ok":"order","id":"S2-1","serial":"B2","kind":"add","asked":350,"count":2,"value":7,"token":"123470796"}
{"ok":"order","id":"S2-2","serial":"B2","kind":"add","asked":350,"count":4,"value":7,"token":"123484796"}
{"ok":"order","id":"S2-3","serial":"B2","kind":"disable","asked":350,"count":5,"value":998,"token":"123491787"}
{"no":4,"why":"closed","paid":1050}
{"ok":"sold","sheet":"S1","place":2,"sale":"x1","money":500}
{"no":8,"why":"no order"}
{"ok":"order","id":"S1-1","serial":"A1","kind":"add","asked":350,"count":2,"value":7,"token":"123470796"}
{"ok":"order","id":"S1-2","serial":"A1","kind":"add","asked":350,"count":4,"value":7,"token":"123484796"}
{"ok":"order","id":"S1-3","serial":"A1","kind":"add","asked":350,"count":6,"value":7,"token":"123498796"}
{"ok":"sold","sheet":"S2","place":3,"sale":"x9","money":350}
{"no":10,"why":"shape","rule":14}
sales 2 850 1
"#;

/// The payments of those answers that are orders, one after the other.
const PAYMENTS: [&str; 8] = [
    r#"{"do":"pay","id":"S1-1","serial":"A1","amount":350}"#,
    r#"{"do":"pay","id":"S1-2","serial":"A1","amount":350}"#,
    r#"{"do":"pay","id":"S2-1","serial":"B2","amount":350}"#,
    r#"{"do":"pay","id":"S2-2","serial":"B2","amount":350}"#,
    r#"{"do":"pay","id":"S2-3","serial":"B2","amount":350}"#,
    r#"{"do":"pay","id":"S1-1","serial":"A1","amount":350}"#,
    r#"{"do":"pay","id":"S1-2","serial":"A1","amount":350}"#,
    r#"{"do":"pay","id":"S1-3","serial":"A1","amount":350}"#,
];

/// How many of them make an order that wasn't there.
const NEW: u64 = 6;

/// How often the day calls the keeper: 4 times for each of these, twice for each of the two that are there already and
/// for the one that is refused, and once for each of four reports.
const CALLS: u64 = 34;

/// How an answer begins that is an order.
const ORDER: &str = "{\"ok\":\"order\"";

/// How many runs failed, and in how many of them the tables had the change of a payment that wasn't answered.
#[derive(Clone, Copy, Drop)]
struct Tally {
    failed: u64,
    changed: u64,
}

/// No run failed yet.
const NONE: Tally = Tally {
    failed: 0,
    changed: 0,
};

/// One run more that failed.
fn counted(tally: Tally, changed: bool) -> Tally {
    Tally {
        failed: tally.failed.saturating_add(1),
        changed: tally.changed.saturating_add(u64::from(changed)),
    }
}

/// How many answers are orders.
fn orders_in(text: &str) -> usize {
    text.lines().filter(|line| line.starts_with(ORDER)).count()
}

/// The tables before the first of the payments, behind it, behind the second, and so on to the last.
fn states(rt: &impl Abort, alloc: Global) -> Result<Vec<String>, Memory> {
    let mut keeper = enrolled(rt, alloc)?;
    let mut states = Vec::new(alloc);
    states
        .push(tables(rt, alloc, &mut keeper)?)
        .map_err(|_| Memory)?;
    for payment in PAYMENTS {
        said(rt, alloc, &mut keeper, &SERVE, payment)?;
        states
            .push(tables(rt, alloc, &mut keeper)?)
            .map_err(|_| Memory)?;
    }
    Ok(states)
}

/// The tables behind so many of the payments.
fn state(states: &[String], payments: usize) -> &str {
    match states.get(payments) {
        Some(text) => text.as_str(),
        None => "no state",
    }
}

/// Runs the day over the keeper and streams with a plan, up to a fault with this status, and looks that what was
/// written begins the day's answers. The tables are those behind the orders that were answered whole, or those behind
/// one more, whose answer was to come next. Then the whole day is typed again, and all is as in a run without a
/// fault. Tells whether the tables had one more, and nothing where no fault came.
fn failed(
    rt: &impl Abort,
    alloc: Global,
    keeper: &mut MemKeeper,
    plan: Plan,
    want: Status,
    states: &[String],
) -> Result<Option<bool>, Memory> {
    let (status, text) = ran(rt, alloc, keeper, &SHEETS, DAY.as_bytes(), plan)?;
    if status == Status::Ok {
        assert_eq!(rt; text.as_str(), SAID);
        return Ok(None);
    }
    assert_eq!(rt; status, want);
    assert!(rt; SAID.starts_with(text.as_str()), "{text}");
    let whole = whole_lines(&text);
    let orders = orders_in(whole);
    let is_order_next = SAID.get(whole.len()..).unwrap_or("").starts_with(ORDER);
    let now = tables(rt, alloc, keeper)?;
    let changed = now.as_str() != state(states, orders);
    if changed {
        assert!(rt; is_order_next && want != Status::Read, "{text}");
    }
    // an order whose answer was cut stays
    if changed || (want == Status::Write && is_order_next) {
        assert_eq!(rt; now.as_str(), state(states, orders.saturating_add(1)));
    }
    let again = said(rt, alloc, keeper, &SHEETS, DAY)?;
    assert_eq!(rt; again.as_str(), SAID);
    let all = tables(rt, alloc, keeper)?;
    assert_eq!(rt; all.as_str(), state(states, PAYMENTS.len()));
    Ok(Some(changed))
}

/// Fails each call of the keeper that the day makes, one after the other, whole or not.
fn each_call(rt: &impl Abort, alloc: Global, whole: bool) -> Result<Tally, Memory> {
    let states = states(rt, alloc)?;
    let mut tally = NONE;
    // four calls enrolled the devices
    for call in 5..500u64 {
        let mut keeper = enrolled(rt, alloc)?;
        keeper.fail_at(call, whole);
        match failed(rt, alloc, &mut keeper, CALM, Status::Keep, &states)? {
            Some(changed) => tally = counted(tally, changed),
            None => break,
        }
    }
    Ok(tally)
}

#[test]
fn each_call_of_the_keeper_fails(rt: HostRuntime) -> Result<(), Memory> {
    let tally = each_call(&rt, rt.alloc(), false)?;
    assert_eq!(rt; (tally.failed, tally.changed), (CALLS, 0));
    Ok(())
}

#[test]
fn each_call_of_the_keeper_fails_behind_its_change(rt: HostRuntime) -> Result<(), Memory> {
    let tally = each_call(&rt, rt.alloc(), true)?;
    assert_eq!(rt; (tally.failed, tally.changed), (CALLS, NEW));
    Ok(())
}

#[test]
fn each_write_of_an_answer_fails(rt: HostRuntime) -> Result<(), Memory> {
    let alloc = rt.alloc();
    let states = states(&rt, alloc)?;
    let mut tally = NONE;
    for write in 1..100u64 {
        let mut keeper = enrolled(&rt, alloc)?;
        let plan = Plan { write, ..CALM };
        match failed(&rt, alloc, &mut keeper, plan, Status::Write, &states)? {
            Some(changed) => tally = counted(tally, changed),
            None => break,
        }
    }
    // fifteen answers, and the last line
    assert_eq!(rt; (tally.failed, tally.changed), (16, NEW));
    Ok(())
}

#[test]
fn rooms_for_answers_are_too_short(rt: HostRuntime) -> Result<(), Memory> {
    let alloc = rt.alloc();
    let states = states(&rt, alloc)?;
    let mut tally = NONE;
    let mut room = 0usize;
    for _ in 0..200u8 {
        let mut keeper = enrolled(&rt, alloc)?;
        let plan = Plan { room, ..CALM };
        match failed(&rt, alloc, &mut keeper, plan, Status::Write, &states)? {
            Some(changed) => tally = counted(tally, changed),
            None => break,
        }
        room = room.saturating_add(23).min(SAID.len());
    }
    // the last run had just enough
    assert_eq!(rt; room, SAID.len());
    assert_eq!(rt; tally.failed, SAID.len().div_ceil(23) as u64);
    assert!(rt; tally.changed >= NEW);
    Ok(())
}

#[test]
fn each_read_of_the_input_fails(rt: HostRuntime) -> Result<(), Memory> {
    let alloc = rt.alloc();
    let states = states(&rt, alloc)?;
    let mut tally = NONE;
    for read in 1..200u64 {
        let mut keeper = enrolled(&rt, alloc)?;
        let plan = Plan {
            read,
            most: 20,
            ..CALM
        };
        match failed(&rt, alloc, &mut keeper, plan, Status::Read, &states)? {
            Some(changed) => tally = counted(tally, changed),
            None => break,
        }
    }
    // a read for each twenty bytes, and one that tells the end
    let reads = (DAY.len() as u64).div_ceil(20).saturating_add(1);
    assert_eq!(rt; (tally.failed, tally.changed), (reads, 0));
    Ok(())
}

#[test]
fn whole_lines_are_answered_before_a_read_that_fails(rt: HostRuntime) -> Result<(), Memory> {
    let alloc = rt.alloc();
    for read in 1..12u64 {
        let mut keeper = enrolled(&rt, alloc)?;
        let plan = Plan {
            read,
            most: 50,
            ..CALM
        };
        let (status, text) = ran(&rt, alloc, &mut keeper, &SHEETS, DAY.as_bytes(), plan)?;
        assert_eq!(rt; status, Status::Read);
        let taken = (read as usize).saturating_sub(1).saturating_mul(50);
        let front = whole_lines(DAY.get(..taken).unwrap_or(DAY));
        let mut calm = enrolled(&rt, alloc)?;
        let want = said(&rt, alloc, &mut calm, &SHEETS, front)?;
        assert_eq!(rt; text.as_str(), without_last(&want));
    }
    Ok(())
}
