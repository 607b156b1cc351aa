// What a device that isn't made, or whose flash is damaged, does at an event.
ghost use Rattle.std.specs.Prelude.{◌≡◌, ◌≢◌, true, IfSome};
ghost use Rattle.paygo_spec.specs.Machine.{Blank, IsConfig, keys_after, keys_after_key, only};
ghost use Rattle.paygo_spec.specs.Pad.{Keys, kept_of};
ghost use Rattle.paygo_spec.specs.Recovery.{Unmade, recover};
ghost use Rattle.device_core.specs.Changes.{Begins};

use crate::device::Phase;
use bank_journal::{JournalFault, make};
use keypad_entry::Pad;
use paygo_ports::Flash;
use paygo_spec::{Config, Event, Reply};

// Any event but `Power`, and but that such a device is made: it has this one reply. Of the keys it takes `#` alone,
// which clears the pad; a tick is told to the pad.
pub(crate) fn answer_only(pad: &mut Pad, event: Event, reply: Reply) -> Option<Reply>
    requires { event ≢ Event.Power }
    ensures reply { result ≡ only event reply }
    ensures pad { (keys : Keys) → pad.old ≡ kept_of keys → pad.new ≡ kept_of (keys_after Blank event keys) }
{
    match event {
        Event::Key(key) => press(pad, key, reply),
        Event::Tick(seconds) => {
            pad.idle(seconds);
            Some(reply)
        }
        _ => Some(reply),
    }
}

// A key is pressed.
fn press(pad: &mut Pad, key: u8, reply: Reply) -> Option<Reply>
    ensures reply { result ≡ only (Event.Key key) reply }
    ensures pad { (keys : Keys) → pad.old ≡ kept_of keys → pad.new ≡ kept_of (keys_after_key Blank key keys) }
{
    if key != b'#' {
        return None;
    }
    *pad = Pad::empty();
    Some(reply)
}

// Makes a device on a flash on which none was made, and gives what it does then, and its reply.
pub(crate) fn begin<F: Flash>(flash: &mut F, config: &Config) -> (Phase, Reply)
    requires config { IsConfig config.now }
    requires up { (F.view flash.old).up ≡ true }
    requires unmade { IfSome (F.view flash.old).words (λ words. recover words ≡ Unmade) }
    ensures { Begins config.now result.0 result.1 (F.view flash.old) (F.view flash.new) }
{
    match make(flash, config) {
        Ok(journal) => (
            Phase::Up(journal),
            Reply::Up {
                count: 0,
                left: 0,
                free: false,
                block: 0,
            },
        ),
        Err(JournalFault::Damaged { place }) => (Phase::Damaged(place), Reply::Damaged { place }),
        Err(JournalFault::Made { number }) => (Phase::Off, Reply::Made { number }),
        Err(_) => (Phase::Off, Reply::Down),
    }
}
