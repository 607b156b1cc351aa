// The states that a device may be in.
ghost use Rattle.std.specs.Prelude.{◌≡◌};
ghost use Rattle.log_check.specs.Keeping.{AreStandings};
ghost use Rattle.log_check.specs.KeptOnce.{standings_prop};

use crate::behind::{heard, is_first_made, standings_behind};
use crate::standing::Standing;
use keypad_entry::Pad;
use paygo_spec::{Event, Memory};
use std::alloc::Global;
use token_chain::Mixer;

/// The states that a device may be in, of which its answers tell no more. It is on in all of them or in none, and its
/// pad keeps the same in all. They differ in what its flash stands for, and each is kept once.
#[derive(Drop)]
pub(crate) struct States {
    on: bool,
    pad: Pad,
    standings: Vec<Standing>,
    ghost in_range: { AreStandings standings.items } by { standings_prop _ },
}

impl States {
    ghost use Rattle.std.specs.Prelude.{◌≡◌, ℕ, true, false, IfOk, IsErr, IsOk, is_none, length, List, [], ◌∷◌, if◌then◌else◌};
    ghost use Rattle.paygo_spec.specs.Machine.{State, Blank, IsEvent, starting, keys_after};
    ghost use Rattle.paygo_spec.specs.Pad.{Keys, kept_of, no_keys};
    ghost use Rattle.log_check.specs.Fits.{going_on, is_silent, says};
    ghost use Rattle.log_check.specs.Keeping.{AreStandings, storeds_of, first_of};
    ghost use Rattle.log_check.specs.Kept.{AreStates};

    /// A device that is off, on an erased flash. It takes memory.
    pub(crate) fn first(alloc: Global) -> Result<States, Memory>
        ensures { IfOk result (λ states. AreStates states (starting Blank 0 ∷ [])) }
    {
        match Vec::from_slice(alloc, &[Standing::Blank]) {
            Ok(standings) => Ok(States {
                on: false,
                pad: Pad::empty(),
                standings,
            }),
            Err(_) => Err(Memory),
        }
    }

    /// How many they are.
    pub(crate) fn count(&self) -> usize
        ensures { (states : List State) → AreStates self.now states → result ≡ length states }
    {
        self.standings.len()
    }

    /// Whether the device has no answer to the event in these states.
    pub(crate) fn is_silent(&self, event: Event) -> bool
        ensures { (states : List State) → AreStates self.now states → result ≡ is_silent event states }
    {
        if self.standings.is_empty() {
            return false;
        }
        match event {
            Event::Power => false,
            Event::Key(key) => !(self.on && key == b'#'),
            _ => !self.on,
        }
    }

    /// They stay where this is true, and else none is left.
    pub(crate) fn keep_if(&mut self, fits: bool)
        ensures { (states : List State) → AreStates self.old states →
            AreStates self.new (if fits then states else []) }
    {
        if !fits {
            self.standings.clear();
        }
    }

    /// An event happens that has no answer.
    pub(crate) fn pass(&mut self, event: Event)
        requires { IsEvent event }
        ensures { (next : List ℕ → ℕ → ℕ) (states : List State) → AreStates self.old states →
            is_silent event states ≡ true → AreStates self.new (going_on next is_none event states) }
    {
        if !self.on {
            return;
        }
        let made = is_first_made(&self.standings);
        self.pad = heard(self.pad, made, event);
    }

    /// An event happens that is answered with this text. It takes memory.
    pub(crate) fn answer<M: Mixer>(
        &mut self,
        alloc: Global,
        event: Event,
        text: &[u8],
    ) -> Result<(), Memory>
        requires { IsEvent event }
        ensures told { (states : List State) → IsOk result → AreStates self.old states →
            is_silent event states ≡ false → AreStates self.new (going_on M.next (says text.now) event states) }
        ensures memory { IsErr result → self.new ≡ self.old }
    {
        let behind = standings_behind::<M>(alloc, &self.standings, self.pad, event, text)?;
        if text == b"down".as_slice() {
            self.fall(behind);
            return Ok(());
        }
        self.stay(event, behind);
        Ok(())
    }

    // It is off, with a cleared pad, and its flash stands for one of these.
    fn fall(&mut self, behind: Vec<Standing>)
        requires { AreStandings behind.items }
        ensures off { self.new.on ≡ false }
        ensures pad { self.new.pad ≡ kept_of no_keys }
        ensures standings { self.new.standings.items ≡ behind.items }
    {
        self.on = false;
        self.pad = Pad::empty();
        self.standings = behind;
    }

    // It is on, its pad heard the event, and its flash stands for one of these.
    fn stay(&mut self, event: Event, behind: Vec<Standing>)
        requires event { IsEvent event }
        requires range { AreStandings behind.items }
        ensures on { self.new.on ≡ true }
        ensures pad { (keys : Keys) → self.old.pad ≡ kept_of keys →
            self.new.pad ≡ kept_of (keys_after (first_of (storeds_of self.old.standings.items)) event keys) }
        ensures standings { self.new.standings.items ≡ behind.items }
    {
        let made = is_first_made(&self.standings);
        self.pad = heard(self.pad, made, event);
        self.on = true;
        self.standings = behind;
    }
}
