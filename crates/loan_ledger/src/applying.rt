// A command is answered.
ghost use Rattle.std.specs.Prelude.{IfOk};
ghost use Rattle.ledger_spec.specs.Ledger.{done, IsCommand, AnswerIsInRange};
ghost use Rattle.ledger_spec.specs.Applied.{Applies};

use crate::changing::{raise, reprice, skip};
use crate::enrolling::enroll;
use crate::issuing::ask;
use crate::quoting::quote;
use crate::telling::{tell_order, tell_row};
use ledger_keeper::Keeper;
use ledger_spec::{Answer, Ask, Command, LedgerFault, PriceChange};
use std::alloc::Global;
use token_chain::Mixer;
use token_issue::Tables;

/// Answers a command of the shop over a keeper of its tables. What is answered, and what the tables are then, is `done`,
/// whichever keeper holds them. `tables` only save work: they keep what was reckoned of the tokens of some devices.
///
/// The keeper is called no more than the answer needs, in this order: `Enroll` asks for the device and adds it; `Pay` asks
/// for the device, for the order of its id and, where the row isn't closed, for the prices, and adds the order; `Set`,
/// `Disable` and `Sync` do the same without the prices; `Order` asks for the order, and `Show` for the device; `Raise` asks
/// for the device and raises it; `Price` asks for the device and for the prices, and adds the change; `Quote` asks for the
/// device and for the prices; `Skip` asks for the device, and lifts its last count.
///
/// # Errors
///
/// `Keeper` where the keeper failed, and the fault is counted, once: the tables are as before or have the whole change.
/// `Memory` where there is none: the tables are as before. Where a command is answered, and where there is no memory,
/// the keeper's count of faults stays: no fault of it is passed over.
pub fn apply<M: Mixer, D: Keeper>(
    alloc: Global,
    keeper: &mut D,
    tables: &mut Tables<M>,
    command: &Command,
) -> Result<Answer, LedgerFault>
    requires { IsCommand command.now }
    ensures applied { Applies (λ t. done M.next t command.now) result
        (D.view keeper.old) (D.view keeper.new) }
    ensures in_range { IfOk result AnswerIsInRange }
{
    match command {
        Command::Enroll(enrol) => enroll(alloc, keeper, enrol),
        Command::Pay { id, serial, amount } => ask::<M, D>(
            alloc,
            keeper,
            tables,
            id,
            serial,
            Ask::Pay(*amount),
        ),
        Command::Set { id, serial, units } => ask::<M, D>(
            alloc,
            keeper,
            tables,
            id,
            serial,
            Ask::Set(*units),
        ),
        Command::Disable { id, serial } => ask::<M, D>(
            alloc,
            keeper,
            tables,
            id,
            serial,
            Ask::Disable,
        ),
        Command::Sync { id, serial } => ask::<M, D>(alloc, keeper, tables, id, serial, Ask::Sync),
        Command::Order { id } => tell_order(alloc, keeper, id),
        Command::Show { serial } => tell_row(alloc, keeper, serial),
        Command::Raise { serial } => raise(alloc, keeper, serial),
        Command::Price {
            serial,
            from,
            price,
        } => reprice(
            alloc,
            keeper,
            &PriceChange {
                serial: *serial,
                from: *from,
                price: *price,
            },
        ),
        Command::Quote { serial, amount } => {
            quote::<M, D>(alloc, keeper, tables, serial, *amount)
        }
        Command::Skip { serial, to } => skip(alloc, keeper, serial, *to),
    }
}
