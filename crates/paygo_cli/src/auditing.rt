// An audit, whose findings are written.
ghost use Rattle.std.specs.Prelude.{◌≡◌, ◌≢◌, ◌≤◌, ◌++◌, codes, length, Some};
ghost use Rattle.std.specs.List.{flat_map};
ghost use Rattle.paygo_spec.specs.Flash.{FlashView};
ghost use Rattle.paygo_spec.specs.Faults.{Counted};
ghost use Rattle.paygo_spec.specs.Streams.{SourceView};
ghost use Rattle.paygo_spec.specs.Text.{with_number};
ghost use Rattle.ledger_spec.specs.Tables.{Tables};
ghost use Rattle.run_spec.specs.declared.Status.{Status};
ghost use Rattle.loan_ledger.specs.Audit.{audited, findings_of};
ghost use Rattle.loan_ledger.specs.AuditText.{wrong_line, text_of_findings};
ghost use Rattle.line_output.specs.Written.{Wrote};
ghost use Rattle.line_loop.specs.Outside.{outside, Causes};
ghost use Rattle.paygo_cli.specs.Ends.{WritesText, written_by};

use crate::writing::written;
use ledger_keeper::Keeper;
use ledger_spec::{LedgerFault, Name};
use line_output::write_line;
use line_text::Line;
use loan_ledger::{Audit, audit};
use paygo_ports::{Sink, WriteFault};
use run_spec::Status;
use std::alloc::Global;
use token_chain::Mixer;

// `wrong`, and the id of an order.
fn wrong_text(id: &Name) -> Line
    ensures text { result ≡ codes "wrong " ++ id.now }
    ensures size { length result ≤ 511 }
{
    let mut line = Line::new();
    line.push(b"wrong ");
    line.push(id.bytes());
    line
}

// `audited`, and the numbers of rows, orders and wrong orders.
fn numbers_text(audit: &Audit) -> Line
    ensures text { result ≡ with_number (with_number (with_number (codes "audited") audit.now.rows) audit.now.orders)
        (length audit.now.wrong.items) }
    ensures size { length result ≤ 511 }
{
    let mut line = Line::new();
    line.push(b"audited");
    line.push_number(audit.rows);
    line.push_number(audit.orders);
    line.push_number(audit.wrong.len() as u64);
    line
}

// Writes a line for each wrong order.
fn write_wrong<K: Sink>(sink: &mut K, wrong: &[Name]) -> Result<(), WriteFault>
    ensures wrote { Wrote (flat_map wrong_line wrong.now) result (K.view sink.old) (K.view sink.new) }
    ensures cause { Counted result (K.view sink.old).faults (K.view sink.new).faults }
{
    for id in wrong {
        match write_line(sink, wrong_text(id)) {
            Ok(()) => {}
            Err(fault) => return Err(fault),
        }
    }
    Ok(())
}

// Writes what an audit found.
fn write_findings<K: Sink>(sink: &mut K, audit: &Audit) -> Result<(), WriteFault>
    ensures wrote { Wrote (text_of_findings (findings_of audit.now)) result (K.view sink.old) (K.view sink.new) }
    ensures cause { Counted result (K.view sink.old).faults (K.view sink.new).faults }
{
    match write_wrong(sink, &audit.wrong) {
        Ok(()) => write_line(sink, numbers_text(audit)),
        Err(fault) => Err(fault),
    }
}

// Audits the tables of a keeper, and writes what was found.
pub(crate) fn run_audit<M: Mixer, K: Sink, D: Keeper>(
    alloc: Global,
    sink: &mut K,
    keeper: &mut D,
) -> Status
    ensures ends { (result ≢ Status.Usage) × (result ≢ Status.Read) × (result ≢ Status.Long) }
    ensures tables { (D.view keeper.new).tables ≡ (D.view keeper.old).tables }
    ensures causes { (source : SourceView) (flash : FlashView) → Causes (Some result)
        (outside source (K.view sink.old) (D.view keeper.old) flash)
        (outside source (K.view sink.new) (D.view keeper.new) flash) }
    ensures written { (tables : Tables) → (D.view keeper.old).tables ≡ Some tables →
        WritesText result (text_of_findings (audited M.next tables)) (K.view sink.old) (K.view sink.new) }
{
    match audit::<M, D>(alloc, keeper) {
        Ok(audit) => written(write_findings(sink, &audit)),
        Err(LedgerFault::Keeper) => Status::Keep,
        Err(LedgerFault::Memory) => Status::Memory,
    }
}
