// A run over the lines of agents.
ghost use Rattle.std.specs.Prelude.{◌≡◌, ◌≢◌, true, Some};
ghost use Rattle.line_loop.specs.Outside.{outside, Causes, IsLong, Reads};
ghost use Rattle.sheet_loop.specs.Sheets.{RunsSheets};

use crate::agency::Agency;
use ledger_keeper::Keeper;
use line_loop::run_lines;
use paygo_ports::{Flash, Sink, Source};
use run_spec::Status;
use std::alloc::Global;
use token_chain::Mixer;

/// Takes the lines of the source as those of agents. A line that asks for a sheet gives the ledger a payment for each of
/// its tokens, up to the first one that is refused, and each is answered as `serve` answers it; a line that reports a sale
/// is answered by the sale that counts for its token. Each answer is written before the next payment is made or the next
/// line is taken. Behind an input that has ended stands what all reports come to. The flash is left as it is.
///
/// It ends with `Ok` only where the source has told its end, and every line was answered; with `Read`, `Write` or `Keep`
/// where source, sink or keeper failed, once, and counted it; with `Memory` where there was none for a line; and with `Long`
/// exactly where 2^40 bytes were handed out, the source hasn't told its end, and every whole line was answered. It never
/// ends with `Usage`. No payment is made behind the one at which it ends.
///
/// Over tables that the keeper tells the answers are those of the ledger and of the reports (`sheets`). It takes memory.
pub fn run_sheets<M: Mixer, S: Source, K: Sink, D: Keeper, F: Flash>(
    alloc: Global,
    source: &mut S,
    sink: &mut K,
    keeper: &mut D,
    flash: &mut F,
) -> Status
    ensures usage { result ≢ Status.Usage }
    ensures unused { flash.new ≡ flash.old }
    ensures ended { result ≡ Status.Ok → (S.view source.new).ended ≡ true }
    ensures causes { Causes (Some result)
        (outside (S.view source.old) (K.view sink.old) (D.view keeper.old) (F.view flash.old))
        (outside (S.view source.new) (K.view sink.new) (D.view keeper.new) (F.view flash.new)) }
    ensures long { IsLong result (S.view source.old) (S.view source.new) }
    ensures read { Reads result (S.view source.old) (S.view source.new) }
    ensures sheets { RunsSheets M.next result
        (outside (S.view source.old) (K.view sink.old) (D.view keeper.old) (F.view flash.old))
        (outside (S.view source.new) (K.view sink.new) (D.view keeper.new) (F.view flash.new)) }
{
    let mut agency = Agency::<M>::new(alloc);
    run_lines(alloc, &mut agency, source, sink, keeper, flash)
}
