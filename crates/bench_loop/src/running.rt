// A run over the lines of shop and device.
ghost use Rattle.std.specs.Prelude.{◌≡◌, ◌≢◌, true, Some};
ghost use Rattle.line_loop.specs.Outside.{outside, Causes, IsLong, Reads};
ghost use Rattle.bench_loop.specs.Runs.{RunsTold, RunsUnseen};

use crate::side::Side;
use ledger_keeper::Keeper;
use line_loop::run_lines;
use paygo_ports::{Flash, Sink, Source};
use run_spec::{Mode, Status};
use std::alloc::Global;
use token_chain::Mixer;

/// Runs the lines of the source over keeper and flash, of the side or sides that the mode takes, with a device that is off at
/// first. Each answer is written before the next event happens or the next line is taken.
///
/// It ends with `Ok` only where the source has told its end, and every line was answered; with `Read`, `Write` or `Keep` where
/// source, sink or keeper failed, once, and counted it, and no other of them has a fault; with `Long` exactly where 2^40 bytes were
/// handed out, the source hasn't told its end, and every whole line was answered; with `Memory` where there was none for a line of
/// the ledger. It never ends with `Usage`, and in `Mode::Device` neither with `Keep` nor with `Memory`.
///
/// What is written is the text of the answers to the lines that were handed out. Where keeper and flash tell what they hold, the
/// answers are those of the machine of shop and device (`run`); over a flash that tells no words, those of the device by what it
/// has in memory, a history that a device can have (`unseen`). Where a line failed, less than a block of 8,192 bytes was handed
/// out behind it. It takes memory, but not in `Mode::Device`.
pub fn run_bench<M: Mixer, S: Source, K: Sink, D: Keeper, F: Flash>(
    alloc: Global,
    mode: Mode,
    source: &mut S,
    sink: &mut K,
    keeper: &mut D,
    flash: &mut F,
) -> Status
    ensures usage { result ≢ Status.Usage }
    ensures keeper { mode ≡ Mode.Device →
        (keeper.new ≡ keeper.old) × (result ≢ Status.Keep) × (result ≢ Status.Memory) }
    ensures flash { mode ≡ Mode.Serve → flash.new ≡ flash.old }
    ensures ended { result ≡ Status.Ok → (S.view source.new).ended ≡ true }
    ensures causes { Causes (Some result)
        (outside (S.view source.old) (K.view sink.old) (D.view keeper.old) (F.view flash.old))
        (outside (S.view source.new) (K.view sink.new) (D.view keeper.new) (F.view flash.new)) }
    ensures long { IsLong result (S.view source.old) (S.view source.new) }
    ensures read { Reads result (S.view source.old) (S.view source.new) }
    ensures run { RunsTold M.next mode result
        (outside (S.view source.old) (K.view sink.old) (D.view keeper.old) (F.view flash.old))
        (outside (S.view source.new) (K.view sink.new) (D.view keeper.new) (F.view flash.new)) }
    ensures unseen { RunsUnseen M.next mode result
        (outside (S.view source.old) (K.view sink.old) (D.view keeper.old) (F.view flash.old))
        (outside (S.view source.new) (K.view sink.new) (D.view keeper.new) (F.view flash.new)) }
{
    let mut side = Side::<M>::start(mode);
    run_lines(alloc, &mut side, source, sink, keeper, flash)
}
