// The device: events come in, replies go out, and between them its journal is written.
#![tactic(auto)]

ghost use Rattle.std.specs.Prelude.{◌≡◌, ℕ, List};
ghost use Rattle.paygo_spec.specs.declared.Event.{Event as EventOf};
ghost use Rattle.paygo_spec.specs.Machine.{History, effect_of};
ghost use Rattle.paygo_spec.specs.Pad.{Keys};
ghost use Rattle.device_core.specs.Decided.{decision_of, forgotten};

mod decision;
mod device;
mod made;
mod power;
mod replies;
mod reply_text;
mod unmade;

pub use decision::{Decision, decide};
pub use device::Device;
pub use paygo_spec::{Config, Event, Reply};
pub use replies::reply_to;
pub use reply_text::{line, text};

/// The snapshot of a history decides every event, although the entries are forgotten: what is answered, which entry is
/// added, and whether the device is raised. A law on every history.
pub fn snapshots_decide_events()
    ensures { (next : List ℕ → ℕ → ℕ) (history : History) (keys : Keys) (event : EventOf) →
        decision_of (effect_of next (forgotten history) keys event) ≡ decision_of (effect_of next history keys event) }
{}
