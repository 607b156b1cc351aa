// A command to a ledger whose keeper never fails.
ghost use Rattle.std.specs.Prelude.{◌≡◌, IfOk, IsErr};
ghost use Rattle.ledger_spec.specs.Ledger.{IsCommand, done};
ghost use Rattle.log_check.specs.SureTables.{tables_of};

use crate::sure_keeper::SureKeeper;
use bench_run::Bench;
use ledger_spec::{Answer, Command};
use paygo_spec::Memory;
use std::alloc::Global;
use token_chain::Mixer;

/// The answer of the ledger to a command, and the tables then. It takes memory.
///
/// # Errors
///
/// `Memory` where there is none: the tables are as before.
pub(crate) fn serve<M: Mixer>(
    alloc: Global,
    bench: &mut Bench<M>,
    keeper: &mut SureKeeper,
    command: &Command,
) -> Result<Answer, Memory>
    requires { IsCommand command.now }
    ensures answer { IfOk result (λ answer. answer ≡ (done M.next (tables_of keeper.old) command.now).answer) }
    ensures tables { IfOk result (λ answer.
        tables_of keeper.new ≡ (done M.next (tables_of keeper.old) command.now).tables) }
    ensures memory { IsErr result → tables_of keeper.new ≡ tables_of keeper.old }
{
    match bench.command(alloc, keeper, command) {
        Ok(answer) => Ok(answer),
        Err(_) => Err(Memory),
    }
}
