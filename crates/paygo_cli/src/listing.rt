// The values that can't be sold in a device's reach are listed.
ghost use Rattle.std.specs.Prelude.{◌≡◌, ◌≢◌, ◌≤◌, ◌++◌, codes, length, map, Some};
ghost use Rattle.std.specs.List.{flat_map};
ghost use Rattle.paygo_spec.specs.Flash.{FlashView};
ghost use Rattle.paygo_spec.specs.Faults.{Counted};
ghost use Rattle.paygo_spec.specs.Streams.{SourceView};
ghost use Rattle.paygo_spec.specs.Text.{with_number};
ghost use Rattle.ledger_spec.specs.Keeper.{KeeperView};
ghost use Rattle.ledger_spec.specs.Stuck.{stuck_below};
ghost use Rattle.run_spec.specs.declared.Status.{Status};
ghost use Rattle.stuck_values.specs.Listing.{stuck_of_code};
ghost use Rattle.line_output.specs.Written.{Wrote};
ghost use Rattle.line_loop.specs.Outside.{outside, Causes};
ghost use Rattle.paygo_cli.specs.Ends.{WritesText, written_by};
ghost use Rattle.command_words.specs.Forms.{CandidateIsInRange};
ghost use Rattle.paygo_cli.specs.Listed.{stuck_text as words_of_stuck, stuck_line, text_of_values};

use crate::writing::written;
use command_words::Candidate;
use ledger_text::kind_word;
use line_output::write_line;
use line_text::Line;
use paygo_ports::{Sink, WriteFault};
use paygo_spec::Memory;
use run_spec::Status;
use std::alloc::Global;
use stuck_values::{StuckValue, stuck_values};
use token_chain::Mixer;

// `stuck`, a kind, a value, and the least last count with which a device can't be sold them.
fn stuck_text(stuck: &StuckValue) -> Line
    ensures text { result ≡ words_of_stuck (stuck_of_code stuck.now) }
    ensures size { length result ≤ 511 }
{
    let mut line = Line::new();
    line.push(b"stuck ");
    line.push(kind_word(stuck.kind));
    line.push_number(u64::from(stuck.value));
    line.push_number(u64::from(stuck.last));
    line
}

// `values`, and how many are listed.
fn count_text(list: &[StuckValue]) -> Line
    ensures text { result ≡ with_number (codes "values") (length list.now) }
    ensures size { length result ≤ 511 }
{
    let mut line = Line::new();
    line.push(b"values");
    line.push_number(list.len() as u64);
    line
}

// Writes a line for each listed value.
fn write_stuck<K: Sink>(sink: &mut K, list: &[StuckValue]) -> Result<(), WriteFault>
    ensures wrote { Wrote (flat_map (λ stuck. stuck_line (stuck_of_code stuck)) list.now) result
        (K.view sink.old) (K.view sink.new) }
    ensures cause { Counted result (K.view sink.old).faults (K.view sink.new).faults }
{
    for stuck in list {
        match write_line(sink, stuck_text(stuck)) {
            Ok(()) => {}
            Err(fault) => return Err(fault),
        }
    }
    Ok(())
}

// Writes a list of values, and how many it has.
fn write_values<K: Sink>(sink: &mut K, list: &[StuckValue]) -> Result<(), WriteFault>
    ensures wrote { Wrote (text_of_values (map stuck_of_code list.now)) result (K.view sink.old) (K.view sink.new) }
    ensures cause { Counted result (K.view sink.old).faults (K.view sink.new).faults }
{
    match write_stuck(sink, list) {
        Ok(()) => write_line(sink, count_text(list)),
        Err(fault) => Err(fault),
    }
}

// Lists the values that can't be sold in a device's reach, and writes the list.
pub(crate) fn run_values<M: Mixer, K: Sink>(
    alloc: Global,
    candidate: &Candidate,
    sink: &mut K,
) -> Status
    requires { CandidateIsInRange candidate.now }
    ensures ends { (result ≢ Status.Usage) × ((result ≢ Status.Read) × ((result ≢ Status.Keep) × (result ≢ Status.Long))) }
    ensures causes { (source : SourceView) (keeper : KeeperView) (flash : FlashView) → Causes (Some result)
        (outside source (K.view sink.old) keeper flash) (outside source (K.view sink.new) keeper flash) }
    ensures written { WritesText result
        (text_of_values (stuck_below (M.next candidate.now.key) candidate.now.start candidate.now.limit 1000))
        (K.view sink.old) (K.view sink.new) }
{
    match stuck_values::<M>(alloc, &candidate.key, candidate.start, candidate.limit) {
        Ok(list) => written(write_values(sink, &list)),
        Err(Memory) => Status::Memory,
    }
}
