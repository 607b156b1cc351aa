// A device and its events.
use crate::made::ask_made;
use crate::power::{greeting, start};
use crate::unmade::{answer_only, begin};
use bank_journal::Journal;
use keypad_entry::Pad;
use paygo_ports::Flash;
use paygo_spec::{Config, Event, Reply};
use token_chain::Mixer;

/// What a device is doing.
#[derive(Drop)]
pub enum Phase {
    /// It is off, and answers nothing until its power comes.
    Off,
    /// It is on, and wasn't made yet.
    Unmade,
    /// It is on, and its flash is damaged, as the word at this place shows.
    Damaged(u16),
    /// It is up.
    Up(Journal),
}

/// A device: what it holds in memory beside its flash.
#[derive(Drop)]
pub struct Device {
    phase: Phase,
    pad: Pad,
}

impl Device {
    ghost use Rattle.std.specs.Prelude.{◌≡◌, ◌≢◌, ℕ, List, true, false, Some, IfSome};
    ghost use Rattle.paygo_spec.specs.Pad.{kept_of, no_keys};
    ghost use Rattle.paygo_spec.specs.Flash.{KeepsPlan};
    ghost use Rattle.paygo_spec.specs.Machine.{IsEvent, IsConfig, FaultsBy};
    ghost use Rattle.device_core.specs.Memory.{is_on, Holds, IsDown, Does, CostsAsSaid, Remembers};
    ghost use Rattle.device_core.specs.Changes.{Handled, settled};

    /// A device before its first event: it is off.
    pub fn off() -> Device
        ensures off { is_on result ≡ false }
        ensures pad { result.pad ≡ kept_of no_keys }
    {
        Device {
            phase: Phase::Off,
            pad: Pad::empty(),
        }
    }

    /// One event. The reply, or that there is none, is what the machine of the specification may give, and what the
    /// device holds in memory and what its flash stands for afterwards is what that machine goes on to.
    ///
    /// A device that is off answers nothing but to `Power`. An entry at the keypad is judged in this order: its length,
    /// its digits, a block, whether it is old; then, where it changes the state, whether the flash has room, and
    /// whether the flash fails; then it is accepted or invalid. A tick is told to the pad before it does anything else.
    ///
    /// The caller sees to it that the event is one that may be asked for, and that a device that is on is handed the
    /// flash as it left it. An accepted, invalid or ticked reply comes only when the flash stands for the history with
    /// the event. `Down` is one fault of the flash, which counted it, and leaves the device off, with a cleared pad;
    /// any other reply, and none, is no fault. Where the flash tells its due, a failure that was planned came or is
    /// still to come, and no other came. Where it tells its words too, `Down` comes exactly where the due is below the
    /// number of calls that the event makes, which is said but for `Power` on a damaged flash. `Worn` leaves the
    /// history as it was: on a flash without room no event changes the clock, and no wrong entry blocks. `Power` leaves
    /// every word, also of a damaged flash.
    ///
    /// Over a flash that tells no words, as a file tells none, the replies still follow what the device has in memory:
    /// what it found when its power came, and what it did since then. Where such a flash was written by another in the
    /// meantime, a device that isn't made says at `Make` what it finds: that it is damaged, or that a device was made,
    /// and then it is off.
    pub fn event<M: Mixer, F: Flash>(&mut self, flash: &mut F, event: Event) -> Option<Reply>
        requires event { IsEvent event }
        requires holds { Holds self.old (F.view flash.old) }
        ensures holds { Holds self.new (F.view flash.new) }
        ensures faults { FaultsBy result (F.view flash.old).faults (F.view flash.new).faults }
        ensures plan { KeepsPlan (F.view flash.old) (F.view flash.new) }
        ensures down { result ≡ Some Reply.Down → IsDown self.new }
        ensures step { Does M.next event self.old (F.view flash.old) result self.new (F.view flash.new) }
        ensures calls { CostsAsSaid M.next event self.old (F.view flash.old) result (F.view flash.new) }
        ensures kept { event ≡ Event.Power → (F.view flash.new).words ≡ (F.view flash.old).words }
        ensures memory { Remembers M.next event self.old (F.view flash.old) result self.new (F.view flash.new) }
    {
        let reply = self.react::<M, F>(flash, event);
        self.settle(&reply);
        reply
    }

    // Does what an event asks for. Where the flash failed, the device has still to be settled.
    fn react<M: Mixer, F: Flash>(&mut self, flash: &mut F, event: Event) -> Option<Reply>
        requires event { IsEvent event }
        requires holds { Holds self.old (F.view flash.old) }
        ensures { Handled M.next event self.old (F.view flash.old) result (settled result self.new) (F.view flash.new) }
    {
        match event {
            Event::Power => Some(self.power(flash)),
            _ => self.ask::<M, F>(flash, event),
        }
    }

    // Is off after `Down`, with a cleared pad, and stays as it is after any other reply.
    fn settle(&mut self, reply: &Option<Reply>)
        ensures { self.new ≡ settled reply.now self.old }
    {
        if *reply == Some(Reply::Down) {
            *self = Device::off();
        }
    }

    // The power comes on, or comes back.
    fn power<F: Flash>(&mut self, flash: &mut F) -> Reply
        ensures { (next : List ℕ → ℕ → ℕ) →
            Handled next Event.Power self.old (F.view flash.old) (Some result)
            (settled (Some result) self.new) (F.view flash.new) }
    {
        let phase = start(flash);
        let reply = greeting(&phase);
        *self = Device {
            phase,
            pad: Pad::empty(),
        };
        reply
    }

    // Any event but `Power`.
    fn ask<M: Mixer, F: Flash>(&mut self, flash: &mut F, event: Event) -> Option<Reply>
        requires event { IsEvent event }
        requires other { event ≢ Event.Power }
        requires holds { Holds self.old (F.view flash.old) }
        ensures { Handled M.next event self.old (F.view flash.old) result (settled result self.new) (F.view flash.new) }
    {
        match &mut self.phase {
            Phase::Off => None,
            Phase::Unmade => self.ask_unmade(flash, event),
            Phase::Damaged(place) => {
                let place = *place;
                answer_only(&mut self.pad, event, Reply::Damaged { place })
            }
            Phase::Up(journal) => ask_made::<M, F>(journal, &mut self.pad, flash, event),
        }
    }

    // Any event but `Power`, where the device isn't made yet.
    fn ask_unmade<F: Flash>(&mut self, flash: &mut F, event: Event) -> Option<Reply>
        requires event { IsEvent event }
        requires other { event ≢ Event.Power }
        requires unmade { self.old.phase ≡ Phase.Unmade }
        requires holds { Holds self.old (F.view flash.old) }
        ensures { (next : List ℕ → ℕ → ℕ) →
            Handled next event self.old (F.view flash.old) result (settled result self.new) (F.view flash.new) }
    {
        match event {
            Event::Make(config) => Some(self.make(flash, &config)),
            _ => answer_only(&mut self.pad, event, Reply::Unmade),
        }
    }

    // The device is asked to be made, where it isn't yet.
    fn make<F: Flash>(&mut self, flash: &mut F, config: &Config) -> Reply
        requires config { IsConfig config.now }
        requires unmade { self.old.phase ≡ Phase.Unmade }
        requires holds { Holds self.old (F.view flash.old) }
        ensures { (next : List ℕ → ℕ → ℕ) →
            Handled next (Event.Make config.now) self.old (F.view flash.old) (Some result)
            (settled (Some result) self.new) (F.view flash.new) }
    {
        let (phase, reply) = begin(flash, config);
        self.phase = phase;
        reply
    }
}
