// What handles lines, and what came of a line.
ghost use Rattle.std.specs.Prelude.{◌≡◌, ◌≢◌, ◌<◌, ◌≤◌, ℕ, List, Result, Err, length};
ghost use Rattle.paygo_spec.specs.Faults.{Counted};
ghost use Rattle.paygo_spec.specs.Flash.{FlashView, KeepsPlan};
ghost use Rattle.paygo_spec.specs.Streams.{SinkView};
ghost use Rattle.ledger_spec.specs.Keeper.{KeeperView};
ghost use Rattle.line_loop.specs.declared.handler.LineFault.{LineFault as Broken};
ghost use Rattle.line_loop.specs.Handling.{Desk, desk, HasCauses, of_line};
ghost use Rattle.paygo_ports.specs.declared.sink.WriteFault.{WriteFault as Unwritten};

use ledger_keeper::Keeper;
use paygo_ports::{Flash, Sink, WriteFault};
use std::alloc::Global;

/// Why a line wasn't handled.
#[derive(Clone, Copy, Debug, PartialEq, Eq)]
pub enum LineFault {
    /// The keeper failed.
    Keep,
    /// There was no memory for the line.
    Memory,
    /// The sink failed.
    Write,
}

/// Something that handles lines, one after another, and may have a last word. What it works with beside its own state is a keeper
/// of tables, a flash and a sink, which it is handed for each line; it may leave out any of them.
pub trait LineHandler {
    /// What becomes of a line: the line, the outcome, and what is seen before and behind it.
    ghost handles: { List ℕ → Result (Unit {0}) Broken → Desk Self → Desk Self → Type 0 };

    /// What the last word is: the outcome, and what was written before and behind it.
    ghost concludes: { Self → Result (Unit {0}) Unwritten → SinkView → SinkView → Type 0 };

    /// What is asked of it and of its flash before each line: that it has the flash as it left it.
    ghost is_ready: { Self → FlashView → Type 0 };

    /// It leaves the keeper as it is.
    ghost spares_keeper: { Self → Type 0 };

    /// It leaves the flash as it is.
    ghost spares_flash: { Self → Type 0 };

    /// One line of at most 4,096 bytes, whose answers are written. It may take memory.
    ///
    /// # Errors
    ///
    /// `Write` where the sink failed, once, and counted it, `Keep` where the keeper failed, once, and counted it, and `Memory`
    /// where there was none. No other fault of keeper and sink was counted, and of the flash none but those that were planned.
    fn line<K: Sink, D: Keeper, F: Flash>(
        &mut self,
        alloc: Global,
        line: &[u8],
        keeper: &mut D,
        flash: &mut F,
        sink: &mut K,
    ) -> Result<(), LineFault>
        requires most { length line.now ≤ 4096 }
        requires is_ready { is_ready self.old (F.view flash.old) }
        ensures is_ready { is_ready self.new (F.view flash.new) }
        ensures causes { HasCauses result (D.view keeper.old).faults (D.view keeper.new).faults
            (K.view sink.old).faults (K.view sink.new).faults }
        ensures plan { KeepsPlan (F.view flash.old) (F.view flash.new) }
        ensures keeper { spares_keeper self.old → (keeper.new ≡ keeper.old) × spares_keeper self.new }
        ensures flash { spares_flash self.old → (flash.new ≡ flash.old) × spares_flash self.new }
        ensures handles { handles line.now result
            (desk self.old (D.view keeper.old) (F.view flash.old) (K.view sink.old))
            (desk self.new (D.view keeper.new) (F.view flash.new) (K.view sink.new)) };

    /// One line of more than 4,096 bytes, of which only the length is known. Keeper and flash are left out, and no memory is
    /// taken.
    ///
    /// # Errors
    ///
    /// `WriteFault` where the sink failed, once, and counted it.
    fn long<K: Sink>(&mut self, size: u64, sink: &mut K) -> Result<(), WriteFault>
        ensures is_ready { (flash : FlashView) → is_ready self.old flash → is_ready self.new flash }
        ensures cause { Counted result (K.view sink.old).faults (K.view sink.new).faults }
        ensures keeper { spares_keeper self.old → spares_keeper self.new }
        ensures flash { spares_flash self.old → spares_flash self.new }
        ensures handles { (line : List ℕ) (keeper : KeeperView) (flash : FlashView) → length line ≡ size → 4096 < size →
            handles line (of_line result) (desk self.old keeper flash (K.view sink.old))
            (desk self.new keeper flash (K.view sink.new)) };

    /// The last word, behind all lines of an input that has ended.
    ///
    /// # Errors
    ///
    /// `WriteFault` where the sink failed, once, and counted it.
    fn end<K: Sink>(&self, sink: &mut K) -> Result<(), WriteFault>
        ensures cause { Counted result (K.view sink.old).faults (K.view sink.new).faults }
        ensures concludes { concludes self.now result (K.view sink.old) (K.view sink.new) };
}

/// A fault of the sink as one of a line.
pub fn as_line_fault(outcome: Result<(), WriteFault>) -> Result<(), LineFault>
    ensures { result ≡ of_line outcome }
{
    match outcome {
        Ok(()) => Ok(()),
        Err(WriteFault) => Err(LineFault::Write),
    }
}
