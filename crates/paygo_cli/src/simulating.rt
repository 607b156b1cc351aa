// A fleet, drawn from a number and run, and the line of its totals.
ghost use Rattle.std.specs.Prelude.{◌≡◌, ◌≢◌, ◌≤◌, ◌++◌, codes, length, IfOk};
ghost use Rattle.paygo_spec.specs.Flash.{FlashView};
ghost use Rattle.paygo_spec.specs.Streams.{SourceView};
ghost use Rattle.run_spec.specs.declared.Status.{Status};
ghost use Rattle.fleet_spec.specs.Text.{with_size, with_entries, with_totals};
ghost use Rattle.ledger_spec.specs.Keeper.{KeeperView};
ghost use Rattle.line_loop.specs.Outside.{outside, Causes};
ghost use Rattle.paygo_cli.specs.Ends.{IsFleet, WritesFleet, written_by};

use crate::writing::written;
use fleet_script::generate;
use fleet_sim::run_fleet;
use fleet_spec::Totals;
use line_output::write_line;
use line_text::Line;
use paygo_ports::Sink;
use paygo_spec::Memory;
use run_spec::Status;
use std::alloc::Global;
use token_chain::Mixer;

// Draws the fleet's script, and runs it. The script is freed at the end.
fn totals_of<M: Mixer>(alloc: Global, seed: u64, devices: u32, days: u32) -> Result<Totals, Memory>
    requires devices { (1 ≤ devices) × (devices ≤ 200) }
    requires days { (1 ≤ days) × (days ≤ 400) }
    ensures { IfOk result (IsFleet M.next seed devices days) }
{
    let script = generate(alloc, seed, devices, days)?;
    run_fleet::<M>(alloc, &script)
}

// The numbers of entries and orders, behind the fleet's size.
fn push_entries(line: &mut Line, totals: &Totals)
    requires { length line.old ≤ 100 }
    ensures text { line.new ≡ with_entries line.old totals.now }
    ensures size { length line.new ≤ 300 }
{
    line.push(b" orders");
    line.push_number(totals.orders);
    line.push(b" accepted");
    line.push_number(totals.accepted);
    line.push(b" old");
    line.push_number(totals.old);
    line.push(b" invalid");
    line.push_number(totals.invalid);
    line.push(b" blocked");
    line.push_number(totals.blocked);
}

// The line of a fleet, without its end.
fn fleet_text(devices: u32, days: u32, totals: &Totals) -> Line
    ensures text { result ≡ with_totals (with_size devices days) totals.now }
    ensures size { length result ≤ 511 }
{
    let mut line = Line::new();
    line.push(b"fleet");
    line.push_number(u64::from(devices));
    line.push_number(u64::from(days));
    push_entries(&mut line, totals);
    line.push(b" down");
    line.push_number(totals.down);
    line.push(b" left");
    line.push_number(totals.left);
    line
}

// Runs the fleet that the seed draws, and writes its totals.
pub(crate) fn run_simulation<M: Mixer, K: Sink>(
    alloc: Global,
    seed: u64,
    devices: u32,
    days: u32,
    sink: &mut K,
) -> Status
    requires devices { (1 ≤ devices) × (devices ≤ 200) }
    requires days { (1 ≤ days) × (days ≤ 400) }
    ensures ends { (result ≢ Status.Usage) × (result ≢ Status.Read) × (result ≢ Status.Keep) × (result ≢ Status.Long) }
    ensures causes { (source : SourceView) (keeper : KeeperView) (flash : FlashView) → Causes (Some result)
        (outside source (K.view sink.old) keeper flash) (outside source (K.view sink.new) keeper flash) }
    ensures written { WritesFleet M.next seed devices days result (K.view sink.old) (K.view sink.new) }
{
    match totals_of::<M>(alloc, seed, devices, days) {
        Ok(totals) => written(write_line(sink, fleet_text(devices, days, &totals))),
        Err(Memory) => Status::Memory,
    }
}
