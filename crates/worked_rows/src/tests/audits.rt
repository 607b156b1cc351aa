// The tokens of a shop, checked again.
ghost use Rattle.std.specs.Prelude.{◌≡◌, ◌≤◌, ◌<◌, ◌^◌, length};
ghost use Rattle.ledger_spec.specs.Tables.{RowIsInRange, OrderIsInRange};

use super::ledger::{ENROLL, ORDER, PAY, ROW};
use super::{AUDIT, CALM, Plan, joined, ran, served};
use ledger_keeper::{Keeper, MemKeeper};
use ledger_spec::{Ask, Kind, Name, Order, Row};
use memory_ports::MemFlash;
use paygo_cli::Status;
use paygo_spec::{Form, Memory};
use std::alloc::Global;
use std::process::Abort;
use token_chain::Stride;

/// A serial, or an id.
fn name(rt: &impl Abort, text: &[u8]) -> Name
    ensures { length result ≤ 16 }
{
    Name::of(text, 16).expect(rt, "a name")
}

/// The row of a device whose first week was paid.
fn paid(rt: &impl Abort, serial: &[u8]) -> Row
    ensures { RowIsInRange result }
{
    Row {
        serial: name(rt, serial),
        key: [0; 16],
        start: 123_456_789,
        divider: 1,
        form: Form::Nine,
        price: 50,
        total: 18_000,
        paid: 350,
        rest: 0,
        last: 2,
        limit: 4095,
        closed: false,
    }
}

/// The order of that week, with this token.
fn ordered(rt: &impl Abort, id: &[u8], row: &Row, token: u32) -> Order
    requires row { RowIsInRange row.now }
    requires token { token < 10 ^ 9 }
    ensures order { OrderIsInRange result }
    ensures serial { result.serial ≡ row.now.serial }
{
    Order {
        id: name(rt, id),
        serial: row.serial,
        ask: Ask::Pay(350),
        kind: Kind::Add,
        count: 2,
        value: 7,
        token,
    }
}

/// Gives the keeper a device with such an order, in five calls.
pub(super) fn hold(
    rt: &impl Abort,
    alloc: Global,
    keeper: &mut MemKeeper,
    serial: &[u8],
    id: &[u8],
    token: u32,
)
    requires { token < 10 ^ 9 }
{
    let row = paid(rt, serial);
    let held = match keeper.device(alloc, &row.serial) {
        Ok(None) => keeper.add_device(alloc, &row).is_ok(),
        _ => false,
    };
    assert!(rt; held);
    hold_order(rt, alloc, keeper, &row, &ordered(rt, id, &row, token));
}

/// Gives the keeper an order of a row that it has, in three calls.
fn hold_order(rt: &impl Abort, alloc: Global, keeper: &mut MemKeeper, row: &Row, order: &Order)
    requires row { RowIsInRange row.now }
    requires order { OrderIsInRange order.now }
    requires serial { order.now.serial ≡ row.now.serial }
{
    let known = keeper.device(alloc, &row.serial).expect(rt, "the row");
    assert!(rt; known.is_some());
    let held = match keeper.order(alloc, &order.id) {
        Ok(None) => keeper.add_order(alloc, order, row).is_ok(),
        _ => false,
    };
    assert!(rt; held);
}

/// What an audit over the keeper ends with, and what it writes.
fn audited(alloc: Global, keeper: &mut MemKeeper, plan: Plan) -> Result<(Status, String), Memory> {
    ran::<Stride<7>>(
        alloc,
        keeper,
        &mut MemFlash::erased(),
        &AUDIT,
        b"power\n",
        plan,
    )
}

#[test]
fn a_shop_whose_tokens_are_right(rt: HostRuntime) -> Result<(), Memory> {
    let mut keeper = MemKeeper::new(rt.alloc());
    let (status, text) = audited(rt.alloc(), &mut keeper, CALM)?;
    assert_eq!(rt; (status, text.as_str()), (Status::Ok, "audited 0 0 0\n"));
    let sale = joined(rt.alloc(), ENROLL, PAY)?;
    let sold = joined(rt.alloc(), ROW, ORDER)?;
    assert_eq!(rt;
        served::<Stride<7>>(rt.alloc(), &mut keeper, sale.as_bytes())?,
        sold
    );
    let fails = Plan { read: 1, ..CALM };
    let (status, text) = audited(rt.alloc(), &mut keeper, fails)?;
    assert_eq!(rt; (status, text.as_str()), (Status::Ok, "audited 1 1 0\n"));
    Ok(())
}

/// An audit over the keeper ends with this status, and writes this.
fn finds(
    rt: &impl Abort,
    alloc: Global,
    keeper: &mut MemKeeper,
    plan: Plan,
    want: (Status, &str),
) -> Result<(), Memory> {
    let (status, text) = audited(alloc, keeper, plan)?;
    assert_eq!(rt; (status, text.as_str()), want);
    Ok(())
}

#[test]
fn a_shop_with_a_wrong_token(rt: HostRuntime) -> Result<(), Memory> {
    let alloc = rt.alloc();
    let mut keeper = MemKeeper::new(alloc);
    hold(&rt, alloc, &mut keeper, b"A1", b"p1", 1);
    finds(
        &rt,
        alloc,
        &mut keeper,
        CALM,
        (Status::Ok, "wrong p1\naudited 1 1 1\n"),
    )
}

#[test]
fn a_shop_with_wrong_tokens(rt: HostRuntime) -> Result<(), Memory> {
    let alloc = rt.alloc();
    let mut keeper = MemKeeper::new(alloc);
    // by serial, whichever was kept first
    hold(&rt, alloc, &mut keeper, b"B2", b"q1", 1);
    hold(&rt, alloc, &mut keeper, b"A1", b"p1", 2);
    hold(&rt, alloc, &mut keeper, b"C3", b"r1", 123_470_796);
    let whole = "wrong p1\nwrong q1\naudited 3 3 2\n";
    finds(&rt, alloc, &mut keeper, CALM, (Status::Ok, whole))?;
    // an output that fails at the second line, or has no more room
    let fails = Plan { write: 2, ..CALM };
    finds(
        &rt,
        alloc,
        &mut keeper,
        fails,
        (Status::Write, "wrong p1\n"),
    )?;
    let short = Plan { room: 20, ..CALM };
    finds(
        &rt,
        alloc,
        &mut keeper,
        short,
        (Status::Write, "wrong p1\nwrong q1\nau"),
    )
}

#[test]
fn an_audit_whose_keeper_fails(rt: HostRuntime) -> Result<(), Memory> {
    let alloc = rt.alloc();
    // the rows, and the orders of each of two devices
    for call in 1..4u64 {
        let mut keeper = MemKeeper::new(alloc);
        hold(&rt, alloc, &mut keeper, b"A1", b"p1", 1);
        hold(&rt, alloc, &mut keeper, b"B2", b"q1", 1);
        keeper.fail_at(10 + call, false);
        finds(&rt, alloc, &mut keeper, CALM, (Status::Keep, ""))?;
        let found = "wrong p1\nwrong q1\naudited 2 2 2\n";
        finds(&rt, alloc, &mut keeper, CALM, (Status::Ok, found))?;
    }
    Ok(())
}
