// The tables of a shop are checked, and what is wrong is written.
ghost use Rattle.std.specs.Prelude.{◌≡◌, ◌≢◌, ◌++◌, length, Some};
ghost use Rattle.std.specs.List.{flat_map};
ghost use Rattle.paygo_spec.specs.Flash.{FlashView};
ghost use Rattle.paygo_spec.specs.Faults.{Counted};
ghost use Rattle.paygo_spec.specs.Streams.{SourceView};
ghost use Rattle.ledger_spec.specs.Tables.{Tables};
ghost use Rattle.run_spec.specs.declared.Status.{Status};
ghost use Rattle.table_flaws.specs.Found.{findings_of, found};
ghost use Rattle.table_flaws.specs.FlawText.{flaw_line, twins_line, numbers_line, text_of_findings};
ghost use Rattle.line_output.specs.Written.{Wrote};
ghost use Rattle.line_loop.specs.Outside.{outside, Causes};
ghost use Rattle.paygo_cli.specs.Ends.{WritesText, written_by};

use crate::writing::written;
use ledger_keeper::Keeper;
use ledger_spec::LedgerFault;
use line_output::write_line;
use paygo_ports::{Sink, WriteFault};
use run_spec::Status;
use std::alloc::Global;
use table_flaws::{Findings, Flaw, Twins, flaw_text, numbers_text, sound, twins_text};
use token_chain::Mixer;

// Writes a line for each flaw.
fn write_flaws<K: Sink>(sink: &mut K, flaws: &[Flaw]) -> Result<(), WriteFault>
    ensures wrote { Wrote (flat_map flaw_line flaws.now) result (K.view sink.old) (K.view sink.new) }
    ensures cause { Counted result (K.view sink.old).faults (K.view sink.new).faults }
{
    for flaw in flaws {
        match write_line(sink, flaw_text(flaw)) {
            Ok(()) => {}
            Err(fault) => return Err(fault),
        }
    }
    Ok(())
}

// Writes a line for each pair of devices that take each other's tokens.
fn write_twins<K: Sink>(sink: &mut K, twins: &[Twins]) -> Result<(), WriteFault>
    ensures wrote { Wrote (flat_map twins_line twins.now) result (K.view sink.old) (K.view sink.new) }
    ensures cause { Counted result (K.view sink.old).faults (K.view sink.new).faults }
{
    for pair in twins {
        match write_line(sink, twins_text(pair)) {
            Ok(()) => {}
            Err(fault) => return Err(fault),
        }
    }
    Ok(())
}

// Writes the pairs, and behind them the line with the numbers.
fn write_rest<K: Sink>(sink: &mut K, findings: &Findings) -> Result<(), WriteFault>
    ensures wrote { Wrote (flat_map twins_line findings.now.twins.items ++ numbers_line findings.now.rows
        findings.now.orders (length findings.now.flaws.items) (length findings.now.twins.items)) result
        (K.view sink.old) (K.view sink.new) }
    ensures cause { Counted result (K.view sink.old).faults (K.view sink.new).faults }
{
    match write_twins(sink, &findings.twins) {
        Ok(()) => write_line(sink, numbers_text(findings)),
        Err(fault) => Err(fault),
    }
}

// Writes what was found.
fn write_found<K: Sink>(sink: &mut K, findings: &Findings) -> Result<(), WriteFault>
    ensures wrote { Wrote (text_of_findings (findings_of findings.now)) result (K.view sink.old) (K.view sink.new) }
    ensures cause { Counted result (K.view sink.old).faults (K.view sink.new).faults }
{
    match write_flaws(sink, &findings.flaws) {
        Ok(()) => write_rest(sink, findings),
        Err(fault) => Err(fault),
    }
}

// Checks the tables of a keeper, and writes what was found.
pub(crate) fn run_sound<M: Mixer, K: Sink, D: Keeper>(
    alloc: Global,
    sink: &mut K,
    keeper: &mut D,
) -> Status
    ensures ends { (result ≢ Status.Usage) × ((result ≢ Status.Read) × (result ≢ Status.Long)) }
    ensures tables { (D.view keeper.new).tables ≡ (D.view keeper.old).tables }
    ensures causes { (source : SourceView) (flash : FlashView) → Causes (Some result)
        (outside source (K.view sink.old) (D.view keeper.old) flash)
        (outside source (K.view sink.new) (D.view keeper.new) flash) }
    ensures written { (tables : Tables) → (D.view keeper.old).tables ≡ Some tables →
        WritesText result (text_of_findings (found M.next tables)) (K.view sink.old) (K.view sink.new) }
{
    match sound::<M, D>(alloc, keeper) {
        Ok(findings) => written(write_found(sink, &findings)),
        Err(LedgerFault::Keeper) => Status::Keep,
        Err(LedgerFault::Memory) => Status::Memory,
    }
}
