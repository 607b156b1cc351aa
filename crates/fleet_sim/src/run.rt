// A script, run over a fleet in memory.
ghost use Rattle.std.specs.Prelude.{IfOk};
ghost use Rattle.fleet_spec.specs.Fleet.{IsInRange, Came};

use crate::fleet::MemFleet;
use fleet_spec::{Script, Totals};
use paygo_spec::Memory;
use std::alloc::Global;
use token_chain::Mixer;

/// Sells and makes the devices of a script, runs its steps, and says what became of the fleet: how often each answer came, and
/// the orders and the time left at the end. The shop's tables are in memory, and so is the flash of each device, where the
/// power is cut as the script plans. Device and ledger are those of the program. It takes memory for the shop and for each
/// device.
///
/// # Errors
///
/// `Memory` where there is none, and nothing is left of the fleet then. A fault of the keeper would be answered so too, but one
/// in memory has none unless it is planned, and none is planned here.
pub fn run_fleet<M: Mixer>(alloc: Global, script: &Script) -> Result<Totals, Memory>
    requires { IsInRange script.now.devices.items script.now.steps.items }
    ensures { IfOk result (λ totals. Came M.next script.now.devices.items script.now.steps.items totals) }
{
    let mut fleet = MemFleet::<M>::sell(alloc, &script.devices)?;
    fleet.run(alloc, &script.devices, &script.steps)?;
    Ok(fleet.totals())
}
