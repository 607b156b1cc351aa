// What the flash of a device may stand for, where its history is known by its summary.
ghost use Rattle.std.specs.Prelude.{◌≡◌, ◌≢◌, ◌≤◌, ◌∷◌, [], ℕ, true};
ghost use Rattle.paygo_spec.specs.declared.Entry.{Entry as EntryOf};
ghost use Rattle.paygo_spec.specs.declared.Entry.TheVariants.{Raised};
ghost use Rattle.paygo_spec.specs.Lawful.{follows};
ghost use Rattle.paygo_spec.specs.Layout.{room, further, turned, last_bank};
ghost use Rattle.paygo_spec.specs.Machine.{IsConfig, new_device, Journal as JournalOf};
ghost use Rattle.bank_journal.specs.Summary.{summary_of};
ghost use Rattle.log_check.specs.After.{taken, moved};
ghost use Rattle.log_check.specs.Standing.{history_of, stored_of, IsMade};
ghost use Rattle.log_check.specs.declared.standing.Standing.TheVariants.{Made as MadeStanding};

use bank_journal::{Journal, Summary};
use paygo_spec::{Config, DAY, Entry};

/// A device that was made: its configuration, the number of the bank in use, the place of the next entry, and the
/// summary of its history.
#[derive(Clone, Copy, Debug, PartialEq, Eq)]
pub struct Made {
    /// The configuration.
    pub config: Config,
    /// The number of the bank in use, from 1 to 100,000.
    pub number: u32,
    /// The place of the next entry in its bank, from 12 to 512; at 512 the next one goes to the next bank.
    pub place: u16,
    /// The summary of its history.
    pub summary: Summary,
}

/// What a flash may stand for that was erased once: no device was made on it, or one was.
#[derive(Clone, Copy, Debug, PartialEq, Eq)]
pub enum Standing {
    /// No device was made on it.
    Blank,
    /// A device was made on it.
    Made(Made),
}

impl Made {
    // The device that was just made.
    pub(crate) fn new(config: &Config) -> Made
        requires { IsConfig config.now }
        ensures stands { history_of result ≡ new_device config.now }
        ensures range { IsMade result }
    {
        Made {
            config: *config,
            number: 1,
            place: 12,
            summary: Summary::fresh(),
        }
    }

    // Its journal, of which the flash isn't looked at.
    pub(crate) fn journal(&self) -> Journal
        requires { IsMade self.now }
        ensures { result ≡ record {
          bank = 0;
          at = record { number = self.now.number; place = self.now.place };
          config = self.now.config;
          summary = summary_of self.now.summary;
        } }
    {
        Journal::standing(self.number, self.place, &self.config, self.summary)
    }

    // The same device with the next entry at the next place.
    pub(crate) fn further(&self) -> Made
        requires range { IsMade self.now }
        requires room { room (history_of self.now).at ≢ 0 }
        ensures stands { JournalOf (history_of result) ≡
            moved (history_of self.now) (further (history_of self.now).at) }
        ensures range { IsMade result }
        ensures summary { result.summary ≡ self.now.summary }
        ensures config { result.config ≡ self.now.config }
    {
        let mut next = *self;
        if self.place == 512 {
            next.number += 1;
            next.place = 13;
        } else {
            next.place += 1;
        }
        next
    }

    // The same device in the next bank, which has no entry yet.
    pub(crate) fn turned(&self) -> Made
        requires range { IsMade self.now }
        requires last { self.now.number ≢ last_bank }
        ensures stands { JournalOf (history_of result) ≡
            moved (history_of self.now) (turned (history_of self.now).at) }
        ensures range { IsMade result }
        ensures summary { result.summary ≡ self.now.summary }
        ensures config { result.config ≡ self.now.config }
    {
        let mut next = *self;
        next.number += 1;
        next.place = 12;
        next
    }

    // The device with one entry more, at the next place.
    pub(crate) fn with(&self, entry: Entry) -> Made
        requires range { IsMade self.now }
        requires room { room (history_of self.now).at ≢ 0 }
        requires follows { follows (summary_of self.now.summary) entry ≡ true }
        ensures stands { JournalOf (history_of result) ≡
            taken (history_of self.now) entry (further (history_of self.now).at) }
        ensures range { IsMade result }
    {
        let mut next = self.further();
        next.summary
            .add(entry, DAY / u32::from(self.config.divider));
        next
    }

    // The device raised, in the next bank.
    pub(crate) fn raised(&self) -> Made
        requires range { IsMade self.now }
        requires last { self.now.number ≢ last_bank }
        ensures stands { JournalOf (history_of result) ≡
            taken (history_of self.now) Raised (turned (history_of self.now).at) }
        ensures range { IsMade result }
    {
        let mut next = self.turned();
        next.summary = next.summary.raised();
        next
    }
}
