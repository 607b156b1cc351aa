// The ledger over a keeper in memory: what each command is answered, and what stands after a fault.
ghost use Rattle.std.specs.Prelude.{◌≤◌, ◌^◌, length};
ghost use Rattle.ledger_spec.specs.Ledger.{IsCommand};

use super::apply;
use ledger_keeper::MemKeeper;
use ledger_spec::{Answer, Command, Enrol, Kind, LedgerFault, Name};
use paygo_spec::Form;
use std::alloc::Global;
use std::process::Abort;
use token_chain::Mixer;
use token_issue::Tables;

// Each command of a table is answered as the table says.
macro_rules! told {
    ($rt:expr, $alloc:expr, $keeper:expr, $tables:expr; $($command:expr => $want:expr,)*) => {
        $(tell($rt, $alloc, $keeper, $tables, &$command, $want);)*
    };
}

mod audits;
mod day;
mod faults;
mod rows;

/// What the tests see of an answer.
#[derive(Clone, Copy, Debug, PartialEq, Eq)]
enum Seen {
    /// An order: its kind, its count, its value and its token.
    Order(Kind, u16, u16, u32),
    /// A row: what was paid, what is left over, its last count, and whether it is closed.
    Row(u64, u64, u16, bool),
    /// A row whose limit is the raised one.
    Raised,
    /// A change of a price: the count from which on it holds, and the price.
    Price(u16, u64),
    NoDevice,
    /// The count and the token of the order that has the id.
    IdUsed(u16, u32),
    /// The price of the row that has the serial.
    SerialUsed(u64),
    /// What was paid.
    Closed(u64),
    /// The money at hand, and the price.
    Small(u64, u64),
    /// The units.
    Large(u64),
    /// The last count.
    NoCount(u16),
    NoOrder,
    /// The price that is kept.
    PriceUsed(u64),
    /// The last count.
    Stale(u16),
    /// A quote: its kind, its count, its value, its rest, and whether it is near.
    Quote(Kind, u16, u16, u64, bool),
    /// The limit.
    Beyond(u16),
    KeeperFailed,
    NoMemory,
}

// What is seen of an answer.
fn seen_in(answer: Result<Answer, LedgerFault>) -> Seen {
    match answer {
        Ok(Answer::Order(order, _)) => {
            Seen::Order(order.kind, order.count, order.value, order.token)
        }
        Ok(Answer::Row(row)) if row.limit == 16_383 => Seen::Raised,
        Ok(Answer::Row(row)) => Seen::Row(row.paid, row.rest, row.last, row.closed),
        Ok(Answer::Price(change)) => Seen::Price(change.from, change.price),
        Ok(Answer::NoDevice) => Seen::NoDevice,
        Ok(Answer::IdUsed(order, _)) => Seen::IdUsed(order.count, order.token),
        Ok(Answer::SerialUsed(row)) => Seen::SerialUsed(row.price),
        Ok(Answer::Closed { paid }) => Seen::Closed(paid),
        Ok(Answer::Small { have, price }) => Seen::Small(have, price),
        Ok(Answer::Large { units }) => Seen::Large(units),
        Ok(Answer::NoCount { last }) => Seen::NoCount(last),
        Ok(Answer::NoOrder) => Seen::NoOrder,
        Ok(Answer::PriceUsed { price }) => Seen::PriceUsed(price),
        Ok(Answer::Stale { last }) => Seen::Stale(last),
        Ok(Answer::Quote(quote)) => Seen::Quote(
            quote.kind,
            quote.count,
            quote.value,
            quote.rest,
            quote.near,
        ),
        Ok(Answer::Beyond { limit }) => Seen::Beyond(limit),
        Err(LedgerFault::Keeper) => Seen::KeeperFailed,
        Err(LedgerFault::Memory) => Seen::NoMemory,
    }
}

// A command is answered so.
fn tell<M: Mixer>(
    rt: &impl Abort,
    alloc: Global,
    keeper: &mut MemKeeper,
    tables: &mut Tables<M>,
    command: &Command,
    want: Seen,
)
    requires { IsCommand command.now }
{
    let got = seen_in(apply(alloc, keeper, tables, command));
    assert_eq!(rt; got, want);
}

fn name(rt: &impl Abort, text: &[u8]) -> Name
    ensures { length result ≤ 16 }
{
    Name::of(text, 16).expect(rt, "a name")
}

fn enrol(rt: &impl Abort, serial: &[u8], price: u64, total: u64) -> Command
    requires price { (1 ≤ price) × (price ≤ 10 ^ 9) }
    requires total { (1 ≤ total) × (total ≤ 10 ^ 12) }
    ensures { IsCommand result }
{
    Command::Enroll(Enrol {
        serial: name(rt, serial),
        key: [0; 16],
        start: 123_456_789,
        divider: 1,
        form: Form::Nine,
        price,
        total,
    })
}

fn pay(rt: &impl Abort, id: &[u8], serial: &[u8], amount: u64) -> Command
    requires { (1 ≤ amount) × (amount ≤ 10 ^ 12) }
    ensures { IsCommand result }
{
    Command::Pay {
        id: name(rt, id),
        serial: name(rt, serial),
        amount,
    }
}

fn set(rt: &impl Abort, id: &[u8], serial: &[u8], units: u16) -> Command
    requires { units ≤ 995 }
    ensures { IsCommand result }
{
    Command::Set {
        id: name(rt, id),
        serial: name(rt, serial),
        units,
    }
}

fn disable(rt: &impl Abort, id: &[u8], serial: &[u8]) -> Command
    ensures { IsCommand result }
{
    Command::Disable {
        id: name(rt, id),
        serial: name(rt, serial),
    }
}

fn sync(rt: &impl Abort, id: &[u8], serial: &[u8]) -> Command
    ensures { IsCommand result }
{
    Command::Sync {
        id: name(rt, id),
        serial: name(rt, serial),
    }
}

fn order(rt: &impl Abort, id: &[u8]) -> Command
    ensures { IsCommand result }
{
    Command::Order { id: name(rt, id) }
}

fn show(rt: &impl Abort, serial: &[u8]) -> Command
    ensures { IsCommand result }
{
    Command::Show {
        serial: name(rt, serial),
    }
}

fn raise(rt: &impl Abort, serial: &[u8]) -> Command
    ensures { IsCommand result }
{
    Command::Raise {
        serial: name(rt, serial),
    }
}

fn price(rt: &impl Abort, serial: &[u8], from: u16, price: u64) -> Command
    requires from { from ≤ 16383 }
    requires price { (1 ≤ price) × (price ≤ 10 ^ 9) }
    ensures { IsCommand result }
{
    Command::Price {
        serial: name(rt, serial),
        from,
        price,
    }
}

fn quote(rt: &impl Abort, serial: &[u8], amount: u64) -> Command
    requires { (1 ≤ amount) × (amount ≤ 10 ^ 12) }
    ensures { IsCommand result }
{
    Command::Quote {
        serial: name(rt, serial),
        amount,
    }
}

fn skip(rt: &impl Abort, serial: &[u8], to: u16) -> Command
    requires { to ≤ 16383 }
    ensures { IsCommand result }
{
    Command::Skip {
        serial: name(rt, serial),
        to,
    }
}
