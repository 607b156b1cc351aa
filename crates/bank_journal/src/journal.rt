// A journal in memory.
use crate::reading::ENTRIES;
use crate::summary::Summary;
use crate::writing::has_bytes;
use paygo_ports::BANK;
use paygo_spec::{Config, Form};
use std::marker::Model;
use thiserror::Error;

/// The number of the last bank: in the life of a device each bank is erased 50,000 times, but for
/// erases that are done again after a power cut.
pub(crate) const LAST_BANK: u32 = 100_000;

/// Why a call on a journal did nothing, or was cut off.
#[derive(Clone, Copy, Debug, PartialEq, Eq, Error)]
pub enum JournalFault {
    /// The flash failed. It is down, and the journal has to be loaded again once it is up.
    #[error("the flash failed")]
    Flash,
    /// No device was made on the flash.
    #[error("no device was made on this flash")]
    Unmade,
    /// A device was made on the flash before: the number of the bank in use, from 1 to 100,000.
    #[error("a device was made on this flash before, and is in bank {number}")]
    Made { number: u32 },
    /// The flash is damaged, as its word at this place, from 0 to 1,023, shows.
    #[error("the flash is damaged at word {place}")]
    Damaged { place: u16 },
    /// The flash has no room for one more entry.
    #[error("the flash has no room for one more entry")]
    Worn,
}

/// The journal of a device, as it stands on its flash: the bank in use, the number of that bank, the place of the next
/// entry, the configuration, and the summary of the history.
#[derive(Drop)]
pub struct Journal {
    pub(crate) bank: u8,
    pub(crate) number: u32,
    pub(crate) place: u16,
    pub(crate) config: Config,
    pub(crate) summary: Summary,
}

impl Model for Journal {
    ghost use Rattle.paygo_spec.specs.Recovery.{JournalView};
    ghost use Rattle.journal_laws.specs.Banks.{IsJournal};
    ghost use Rattle.bank_journal.specs.Summary.{summary_of};

    ghost Value = { JournalView };

    ghost view = { λ j. record {
      bank = j.bank;
      at = record { number = j.number; place = j.place };
      config = j.config;
      summary = summary_of j.summary;
    } };

    ghost invariant = { λ j. IsJournal (record {
      bank = j.bank;
      at = record { number = j.number; place = j.place };
      config = j.config;
      summary = summary_of j.summary;
    }) };
}

impl Journal {
    ghost use Rattle.std.specs.Prelude.{◌≡◌, ◌≤◌};
    ghost use Rattle.paygo_spec.specs.Lawful.{IsSummary};
    ghost use Rattle.paygo_spec.specs.Layout.{room};
    ghost use Rattle.paygo_spec.specs.Machine.{IsConfig};
    ghost use Rattle.bank_journal.specs.Summary.{summary_of};

    /// The journal of a device that stands so, in bank 0 of a flash that isn't looked at: the number of the bank in use,
    /// the place of the next entry, the configuration and the summary, all in range.
    pub fn standing(number: u32, place: u16, config: &Config, summary: Summary) -> Journal
        requires first { 1 ≤ number }
        requires last { number ≤ 100000 }
        requires behind_head { 12 ≤ place }
        requires within { place ≤ 512 }
        requires config { IsConfig config.now }
        ensures { result ≡ record {
          bank = 0;
          at = record { number = number; place = place };
          config = config.now;
          summary = summary_of summary;
        } }
    {
        has_bytes(&config.key);
        let (_last, _bits) = summary.window.parts();
        let _limit = summary.window.limit();
        let _left = summary.clock.left();
        Journal {
            bank: 0,
            number,
            place,
            config: *config,
            summary,
        }
    }

    /// How many more entries the flash has room for, from 0 to 50,000,000: the free places of the bank in use, and 500
    /// for each later bank up to the 100,000th.
    pub fn room(&self) -> u64
        ensures value { result ≡ room self.now.at }
        ensures most { result ≤ 50000000 }
    {
        (u64::from(BANK) - u64::from(self.place))
            + (u64::from(LAST_BANK) - u64::from(self.number)) * u64::from(ENTRIES)
    }

    /// What the device was made with.
    pub fn config(&self) -> &Config
        ensures value { result.now ≡ self.now.config }
        ensures range { IsConfig result.now }
    {
        &self.config
    }

    /// The summary of the history.
    pub fn summary(&self) -> &Summary
        ensures value { summary_of result.now ≡ self.now.summary }
        ensures rule { IsSummary self.now.summary }
    {
        &self.summary
    }

    /// The number of the bank in use, from 1 to 100,000.
    pub fn number(&self) -> u32
        ensures value { result ≡ self.now.at.number }
        ensures first { 1 ≤ result }
        ensures last { result ≤ 100000 }
    {
        self.number
    }
}
