// What a bench keeps from command to command, and how often it asks the keeper.
ghost use Rattle.std.specs.Prelude.{◌≤◌, ◌^◌, length};
ghost use Rattle.ledger_spec.specs.Ledger.{IsCommand};

use super::Bench;
use ledger_keeper::MemKeeper;
use ledger_spec::{Answer, Command, Enrol, LedgerFault, Name};
use paygo_spec::Form;
use std::alloc::Global;
use std::process::Abort;
use token_chain::Stride;

fn name(rt: &impl Abort, text: &[u8]) -> Name
    ensures { length result ≤ 16 }
{
    Name::of(text, 16).expect(rt, "a name")
}

fn enrol(rt: &impl Abort) -> Command
    ensures { IsCommand result }
{
    Command::Enroll(Enrol {
        serial: name(rt, b"A1"),
        key: [0; 16],
        start: 123_456_789,
        divider: 1,
        form: Form::Nine,
        price: 50,
        total: 18_000,
    })
}

fn pay(rt: &impl Abort, id: &[u8]) -> Command
    ensures { IsCommand result }
{
    Command::Pay {
        id: name(rt, id),
        serial: name(rt, b"A1"),
        amount: 350,
    }
}

/// The count of the order that is answered to a command.
fn count_of(
    alloc: Global,
    bench: &mut Bench<Stride<7>>,
    keeper: &mut MemKeeper,
    command: &Command,
) -> Option<u16>
    requires { IsCommand command.now }
{
    match bench.command(alloc, keeper, command) {
        Ok(Answer::Order(order, _)) => Some(order.count),
        _ => None,
    }
}

/// How many lists of tokens the bench keeps, where it has chain tables.
fn lists_kept(bench: &Bench<Stride<7>>) -> Option<usize> {
    match &bench.tables {
        Some(tables) => Some(tables.kept()),
        None => None,
    }
}

#[test]
fn a_list_is_kept_from_payment_to_payment(rt: HostRuntime) {
    let alloc = rt.alloc();
    let keeper = &mut MemKeeper::new(alloc);
    let bench = &mut Bench::<Stride<7>>::start();
    assert!(rt; lists_kept(bench).is_none());
    assert!(rt; bench.command(alloc, keeper, &enrol(&rt)).is_ok());
    assert_eq!(rt; lists_kept(bench), Some(0));
    assert_eq!(rt; count_of(alloc, bench, keeper, &pay(&rt, b"p1")), Some(2));
    assert_eq!(rt; lists_kept(bench), Some(1));
    assert_eq!(rt; count_of(alloc, bench, keeper, &pay(&rt, b"p2")), Some(4));
    assert_eq!(rt; lists_kept(bench), Some(1));
}

/// Enrolling asks the keeper twice, and each new payment four times: for the device, the order and the prices, and to keep the
/// order. So it is the eleventh call that fails here.
#[test]
fn the_keeper_is_asked_ten_times(rt: HostRuntime) {
    let alloc = rt.alloc();
    let keeper = &mut MemKeeper::new(alloc);
    let bench = &mut Bench::<Stride<7>>::start();
    keeper.fail_at(11, true);
    assert!(rt; bench.command(alloc, keeper, &enrol(&rt)).is_ok());
    assert_eq!(rt; count_of(alloc, bench, keeper, &pay(&rt, b"p1")), Some(2));
    assert_eq!(rt; count_of(alloc, bench, keeper, &pay(&rt, b"p2")), Some(4));
    let again = bench.command(alloc, keeper, &pay(&rt, b"p2"));
    assert!(rt; matches!(again, Err(LedgerFault::Keeper)));
}
