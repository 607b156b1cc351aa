// Stories of a shop and a device, each with its power cuts. What a cut took is done again behind the next `power`.
use super::{has_tried, judge_story};
use paygo_spec::Memory;

/// A device is made, and given time twice; it is raised, time passes, a token is old, and an entry is wrong.
const TOKENS: &str = "power
make 00000000000000000000000000000000 123456789 1 9
keys 123463819#
tick 3600
keys 123470794#
raise
keys 123463819#
keys 000000000#
keys 123484794#
tick 120
show
power
make 00000000000000000000000000000000 123456789 1 9
keys 123463819#
raise
keys 123470794#
keys 123484794#
show
walk
";

/// Wrong entries block a device, over a `power` too, until the time has passed.
const LOCK_OUT: &str = "show
power
show
make 00000000000000000000000000000000 123456789 1 9
keys 000000000#
tick 120
keys 000000000#
power
keys 123463819#
tick 240
keys 000000000#
tick 480
keys 124149788#
keys 123463819#
show
";

/// Entries of more tokens in one line, and of one in two lines.
const KEYS: &str = "power
make 00000000000000000000000000000000 123456789 1 9
keys 123463819#123470794#123463819#
keys 12#12#000000000#1#
tick 120
keys 123484794#1*#123 484 794#
keys 1234
keys 63819#
show
power
keys 123463819#123470794#123484794#
tick 60
show
";

/// A device is enrolled, and a payment and an order of thirty days bring tokens, which are typed.
const PAYMENTS: &str = r#"power
make 00000000000000000000000000000000 123456789 1 9
{"do":"enroll","serial":"A1","key":"00000000000000000000000000000000","start":123456789,"divider":1,"form":9,"price":50,"total":18000}
{"do":"pay","id":"p1","serial":"A1","amount":350}
keys 123470796#
{"do":"pay","id":"p1","serial":"A1","amount":350}
keys 123470796#
tick 3600
{"do":"set","id":"s1","serial":"A1","units":30}
keys 123477819#
power
keys 123470796#
keys 123477819#
{"do":"order","id":"p1"}
{"do":"show","serial":"A1"}
show
"#;

/// Lines of the ledger that are refused, and a device that is freed.
const REFUSALS: &str = r#"{"do":"pay","id":"p1","serial":"A1","amount":350}
power
{
{"do":"fly"}
make 00000000000000000000000000000000 123456789 1 9
{"do":"enroll","serial":"A1","key":"00000000000000000000000000000000","start":123456789,"divider":1,"form":9,"price":50,"total":18000}
{"do":"pay","id":"p1","serial":"A1","amount":20}
{"do":"pay","id":"p1","serial":"A1","amount":350}
{"do":"pay","id":"p1","serial":"A1","amount":400}
keys 123470796#
{"do":"disable","serial":"A1","id":"d1"}
keys 123478787#
{"do":"pay","id":"p2","serial":"A1","amount":350}
power
keys 123470796#123478787#
tick 3600
show
"#;

#[test]
fn logs_of_tokens_time_and_a_raise(rt: HostRuntime) -> Result<(), Memory> {
    let tally = judge_story(&rt, rt.alloc(), TOKENS, 1)?;
    assert!(rt; has_tried(&tally, 60), "{tally:?}");
    Ok(())
}

#[test]
fn logs_of_a_lock_out(rt: HostRuntime) -> Result<(), Memory> {
    let tally = judge_story(&rt, rt.alloc(), LOCK_OUT, 2)?;
    assert!(rt; has_tried(&tally, 60), "{tally:?}");
    Ok(())
}

#[test]
fn logs_of_more_entries_in_a_line(rt: HostRuntime) -> Result<(), Memory> {
    let tally = judge_story(&rt, rt.alloc(), KEYS, 3)?;
    assert!(rt; has_tried(&tally, 60), "{tally:?}");
    Ok(())
}

#[test]
fn logs_of_payments_and_their_tokens(rt: HostRuntime) -> Result<(), Memory> {
    let tally = judge_story(&rt, rt.alloc(), PAYMENTS, 4)?;
    assert!(rt; has_tried(&tally, 60), "{tally:?}");
    Ok(())
}

#[test]
fn logs_of_refused_lines(rt: HostRuntime) -> Result<(), Memory> {
    let tally = judge_story(&rt, rt.alloc(), REFUSALS, 5)?;
    assert!(rt; has_tried(&tally, 60), "{tally:?}");
    Ok(())
}
