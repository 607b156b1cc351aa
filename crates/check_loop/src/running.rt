// A run over the lines of a log.
ghost use Rattle.std.specs.Prelude.{◌≡◌, ◌≢◌, true, Some};
ghost use Rattle.paygo_spec.specs.Flash.{FlashView};
ghost use Rattle.ledger_spec.specs.Keeper.{KeeperView};
ghost use Rattle.line_loop.specs.Outside.{outside, Causes, IsLong, Reads};
ghost use Rattle.check_loop.specs.Logs.{ChecksLog};

use crate::handler::LogLines;
use ledger_keeper::Keeper;
use line_loop::run_lines;
use paygo_ports::{Flash, Sink, Source};
use run_spec::Status;
use std::alloc::Global;
use token_chain::Mixer;

/// Hands the lines of the source to a check of a log, and writes its verdict on all of them, behind an input that has ended: `yes`
/// and how many lines there are, or `no`, `wide` or `unread` and the number of the line that decides. Keeper and flash are left
/// as they are.
///
/// It ends with `Ok` only where the source has told its end and the verdict was written; with `Read` or `Write` where source or
/// sink failed, once, and counted it; with `Memory` where there was none for a line; and with `Long` exactly where 2^40 bytes were
/// handed out and the source hasn't told its end. It never ends with `Usage` or `Keep`. It takes memory.
pub fn run_check<M: Mixer, S: Source, K: Sink, D: Keeper, F: Flash>(
    alloc: Global,
    source: &mut S,
    sink: &mut K,
    keeper: &mut D,
    flash: &mut F,
) -> Status
    ensures usage { (result ≢ Status.Usage) × (result ≢ Status.Keep) }
    ensures unused { (keeper.new ≡ keeper.old) × (flash.new ≡ flash.old) }
    ensures ended { result ≡ Status.Ok → (S.view source.new).ended ≡ true }
    ensures causes { Causes (Some result)
        (outside (S.view source.old) (K.view sink.old) (D.view keeper.old) (F.view flash.old))
        (outside (S.view source.new) (K.view sink.new) (D.view keeper.new) (F.view flash.new)) }
    ensures long { IsLong result (S.view source.old) (S.view source.new) }
    ensures read { Reads result (S.view source.old) (S.view source.new) }
    ensures checked { ChecksLog M.next result (S.view source.old) (S.view source.new)
        (K.view sink.old) (K.view sink.new) }
{
    match LogLines::<M>::new(alloc) {
        Ok(mut lines) => run_lines(alloc, &mut lines, source, sink, keeper, flash),
        Err(_) => Status::Memory,
    }
}
