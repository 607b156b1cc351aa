// A bench that handles the lines of one side or of both.
ghost use Rattle.std.specs.Prelude.{◌≡◌, Ok};
ghost use Rattle.run_spec.specs.declared.Mode.{Mode as Taken};
ghost use Rattle.run_spec.specs.declared.Mode.TheVariants as mode_is;
ghost use Rattle.device_core.specs.Memory.{Holds};
ghost use Rattle.bench_loop.specs.Side.{Side as SideView, DidLine};

use bench_run::{Bench, Mode};
use ledger_keeper::Keeper;
use line_loop::{LineFault, LineHandler};
use paygo_ports::{Flash, Sink, WriteFault};
use std::alloc::Global;
use std::marker::Model;
use token_chain::Mixer;

// A bench, and the side or sides whose lines it takes.
#[derive(Drop)]
pub(crate) struct Side<M: Mixer> {
    mode: Mode,
    bench: Bench<M>,
}

impl<M: Mixer> Model for Side<M> {
    ghost Value = { SideView };

    ghost view = { λ side. record { mode = side.mode; device = side.bench } };
}

impl<M: Mixer> Side<M> {
    ghost use Rattle.std.specs.Prelude.{◌≡◌, false};
    ghost use Rattle.paygo_spec.specs.Pad.{kept_of, no_keys};
    ghost use Rattle.device_core.specs.Memory.{is_on};

    // A bench that takes these lines, whose device is off.
    pub(crate) fn start(mode: Mode) -> Side<M>
        ensures mode { result.mode ≡ mode }
        ensures off { is_on result.device ≡ false }
        ensures pad { result.device.pad ≡ kept_of no_keys }
    {
        Side {
            mode,
            bench: Bench::start(),
        }
    }
}

impl<M: Mixer> LineHandler for Side<M> {
    ghost handles = { λ line outcome old new. DidLine M.next line outcome old new };

    ghost concludes = { λ side outcome old new. (outcome ≡ Ok tt) × (new ≡ old) };

    ghost is_ready = { λ side flash. Holds side.device flash };

    ghost spares_keeper = { λ side. side.mode ≡ mode_is.Device };

    ghost spares_flash = { λ side. side.mode ≡ mode_is.Serve };

    fn line<K: Sink, D: Keeper, F: Flash>(
        &mut self,
        alloc: Global,
        line: &[u8],
        keeper: &mut D,
        flash: &mut F,
        sink: &mut K,
    ) -> Result<(), LineFault> {
        self.bench.line(alloc, self.mode, line, keeper, flash, sink)
    }

    fn long<K: Sink>(&mut self, size: u64, sink: &mut K) -> Result<(), WriteFault> {
        self.bench.long(size, sink)
    }

    fn end<K: Sink>(&self, _sink: &mut K) -> Result<(), WriteFault> {
        Ok(())
    }
}
