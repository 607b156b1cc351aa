// The power of a device comes, or comes back.
ghost use Rattle.std.specs.Prelude.{◌≡◌};
ghost use Rattle.paygo_spec.specs.Machine.{Stored};
ghost use Rattle.device_core.specs.Changes.{Starts, greeting_of};
ghost use Rattle.device_core.specs.Memory.{Fits};

use crate::device::Phase;
use bank_journal::{JournalFault, load};
use paygo_ports::Flash;
use paygo_spec::Reply;

// Powers the flash up and reads it, and gives what the device does then: it is off where the flash failed.
pub(crate) fn start<F: Flash>(flash: &mut F) -> Phase
    ensures { Starts result (F.view flash.old) (F.view flash.new) }
{
    if flash.power_up().is_err() {
        return Phase::Off;
    }
    match load(flash) {
        Ok(journal) => Phase::Up(journal),
        Err(JournalFault::Unmade) => Phase::Unmade,
        Err(JournalFault::Damaged { place }) => Phase::Damaged(place),
        Err(_) => Phase::Off,
    }
}

// What a device answers when its power came. What it found stands for something.
pub(crate) fn greeting(phase: &Phase) -> Reply
    ensures says { result ≡ greeting_of phase.now }
    ensures fits { (stored : Stored) × Fits phase.now stored }
{
    match phase {
        Phase::Off => Reply::Down,
        Phase::Unmade => Reply::Unmade,
        Phase::Damaged(place) => Reply::Damaged { place: *place },
        Phase::Up(journal) => {
            let summary = journal.summary();
            let (count, _) = summary.window.parts();
            Reply::Up {
                count,
                left: summary.clock.left(),
                free: summary.clock.free(),
                block: summary.clock.block(),
            }
        }
    }
}
