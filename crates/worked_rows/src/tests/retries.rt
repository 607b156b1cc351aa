// The shop's keeper, input and output fail, each at each of its calls, and the shop is asked again.
use super::ledger::{ENROLL, ORDER, PAY, ROW};
use super::{CALM, Plan, SERVE, joined, ran, served};
use ledger_keeper::MemKeeper;
use memory_ports::MemFlash;
use paygo_cli::Status;
use paygo_spec::Memory;
use std::alloc::Global;
use std::process::Abort;
use token_chain::Stride;

/// A week is paid, and paid again under another id; a price changes; the device is raised, set and freed.
const SALES: [&str; 8] = [
    r#"{"do":"enroll","serial":"A1","key":"00000000000000000000000000000000","start":123456789,"divider":1,"form":9,"price":50,"total":18000}
"#,
    r#"{"do":"pay","id":"p1","serial":"A1","amount":350}
"#,
    r#"{"do":"pay","id":"p1","serial":"A1","amount":350}
"#,
    r#"{"do":"price","serial":"A1","from":2,"price":60}
"#,
    r#"{"do":"pay","id":"p2","serial":"A1","amount":350}
"#,
    r#"{"do":"raise","serial":"A1"}
"#,
    r#"{"do":"set","id":"s1","serial":"A1","units":3}
"#,
    r#"{"do":"disable","id":"d1","serial":"A1"}
"#,
];

/// Asks for all that was kept.
const ASKED: &str = r#"{"do":"show","serial":"A1"}
{"do":"order","id":"p1"}
{"do":"order","id":"p2"}
{"do":"order","id":"s1"}
{"do":"order","id":"d1"}
"#;

/// The sales from this line on.
fn sales_from(alloc: Global, line: usize) -> Result<String, Memory> {
    let mut all = String::new(alloc);
    for (at, sale) in SALES.iter().enumerate() {
        if at >= line {
            all.push_str(sale).map_err(|_| Memory)?;
        }
    }
    Ok(all)
}

/// How many lines end in a text.
fn line_count(text: &str) -> usize {
    text.as_bytes().iter().filter(|c| **c == b'\n').count()
}

/// Runs the sales over a keeper whose call fails, whole or not, and streams with a plan; then the sales from the first
/// one without a whole answer on; and then asks for all that was kept, which is as in a run without a fault.
fn failed(
    rt: &impl Abort,
    alloc: Global,
    call: u64,
    whole: bool,
    plan: Plan,
    want: Status,
) -> Result<(), Memory> {
    let mut calm = MemKeeper::new(alloc);
    let sales = sales_from(alloc, 0)?;
    let answers = served::<Stride<7>>(alloc, &mut calm, sales.as_bytes())?;
    let kept = served::<Stride<7>>(alloc, &mut calm, ASKED.as_bytes())?;
    assert_eq!(rt; line_count(&answers), SALES.len());
    let mut keeper = MemKeeper::new(alloc);
    keeper.fail_at(call, whole);
    let (status, text) = ran::<Stride<7>>(
        alloc,
        &mut keeper,
        &mut MemFlash::erased(),
        &SERVE,
        sales.as_bytes(),
        plan,
    )?;
    assert_eq!(rt; status, want, "{call} {whole}");
    assert!(rt; answers.starts_with(text.as_str()), "{call} {whole}");
    let rest = sales_from(alloc, line_count(&text))?;
    served::<Stride<7>>(alloc, &mut keeper, rest.as_bytes())?;
    let now = served::<Stride<7>>(alloc, &mut keeper, ASKED.as_bytes())?;
    assert_eq!(rt; now.as_str(), kept.as_str(), "{call} {whole}");
    Ok(())
}

#[test]
fn each_call_of_the_keeper_fails(rt: HostRuntime) -> Result<(), Memory> {
    // 2 to enroll, 4 a payment, 2 for one that is kept, 3 for a price, 2 to raise, and 3 for each other token
    for call in 1..24u64 {
        for whole in [false, true] {
            failed(&rt, rt.alloc(), call, whole, CALM, Status::Keep)?;
        }
    }
    // a twenty-fourth call isn't made
    let mut keeper = MemKeeper::new(rt.alloc());
    keeper.fail_at(24, true);
    let sales = sales_from(rt.alloc(), 0)?;
    let answers = served::<Stride<7>>(rt.alloc(), &mut keeper, sales.as_bytes())?;
    assert_eq!(rt; line_count(&answers), SALES.len());
    Ok(())
}

#[test]
fn each_write_of_an_answer_fails(rt: HostRuntime) -> Result<(), Memory> {
    for write in 1..9u64 {
        let plan = Plan { write, ..CALM };
        failed(&rt, rt.alloc(), 0, false, plan, Status::Write)?;
    }
    // an answer that is cut in its middle was not given
    let plan = Plan { room: 200, ..CALM };
    failed(&rt, rt.alloc(), 0, false, plan, Status::Write)
}

#[test]
fn each_read_of_the_input_fails(rt: HostRuntime) -> Result<(), Memory> {
    // 451 bytes in pieces of a hundred, and the end
    for read in 1..7u64 {
        let plan = Plan {
            read,
            most: 100,
            ..CALM
        };
        failed(&rt, rt.alloc(), 0, false, plan, Status::Read)?;
    }
    let plan = Plan { most: 1, ..CALM };
    failed(&rt, rt.alloc(), 0, false, plan, Status::Ok)
}

#[test]
fn a_payment_whose_commit_failed_is_asked_again(rt: HostRuntime) -> Result<(), Memory> {
    // the sixth call is the commit of the payment
    let input = joined(rt.alloc(), ENROLL, PAY)?;
    for whole in [false, true] {
        let mut keeper = MemKeeper::new(rt.alloc());
        keeper.fail_at(6, whole);
        let (status, text) = ran::<Stride<7>>(
            rt.alloc(),
            &mut keeper,
            &mut MemFlash::erased(),
            &SERVE,
            input.as_bytes(),
            CALM,
        )?;
        assert_eq!(rt; (status, text.as_str()), (Status::Keep, ROW));
        let text = served::<Stride<7>>(rt.alloc(), &mut keeper, PAY.as_bytes())?;
        assert_eq!(rt; text.as_str(), ORDER);
    }
    Ok(())
}
