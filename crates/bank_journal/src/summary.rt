// What a journal knows of the past, and the entries that come next, by their numbers.
ghost use Rattle.std.specs.Prelude.{◌≡◌, ◌≤◌, [], ◌∷◌, ℕ, true};
ghost use Rattle.std.specs.Option.{option_map};
ghost use Rattle.paygo_spec.specs.declared.Entry.TheVariants.{Raised};
ghost use Rattle.paygo_spec.specs.Clock.{divides_day, unit_of};
ghost use Rattle.paygo_spec.specs.History.{fresh};
ghost use Rattle.paygo_spec.specs.Lawful.{follows};
ghost use Rattle.paygo_spec.specs.Snapshot.{snapshot};
ghost use Rattle.paygo_spec.specs.EntryNumber.{HasNumber, number_of, entry_of, after_number};
ghost use Rattle.bank_journal.specs.Summary.{summary_of};

use count_window::Window;
use paid_clock::Clock;
use paygo_spec::{DAY, Entry};

/// The summary of a history: the window of its counts, and its clock.
#[derive(Clone, Copy, Debug, PartialEq, Eq)]
pub struct Summary {
    /// The last count, and which counts near it are spent.
    pub window: Window,
    /// Time left, whether the device is free, failures and block.
    pub clock: Clock,
}

impl Summary {
    /// The summary of a new device: no count is spent, and no time is paid for.
    pub fn fresh() -> Summary
        ensures { summary_of result ≡ fresh }
    {
        Summary {
            window: Window::fresh(),
            clock: Clock::fresh(),
        }
    }

    /// The summary with one entry more, which may follow it: a token's count is spent and its time given, a bad entry is
    /// one failure more, and seconds pass.
    ///
    /// The caller sees to it that the entry follows, and that a unit has at most 86,400 seconds.
    pub fn add(&mut self, entry: Entry, unit: u32)
        requires unit { unit ≤ 86400 }
        requires follows { follows (summary_of self.old) entry ≡ true }
        ensures { summary_of self.new ≡ snapshot unit (summary_of self.old) (entry ∷ []) }
    {
        // The rule on windows says that the bits are those of a history.
        let (_last, _bits) = self.window.parts();
        match entry {
            Entry::Accept { count, value } => {
                self.window.take(count, value);
                self.clock.credit(count, value, unit);
            }
            Entry::Bad => self.clock.bad(),
            Entry::Elapsed { seconds } => self.clock.pass(seconds),
            Entry::Raised => self.window.raise(),
        }
    }

    /// The summary of the device that is raised: the limit is the greater one.
    pub fn raised(mut self) -> Summary
        ensures { (unit : ℕ) → summary_of result ≡ snapshot unit (summary_of self) (Raised ∷ []) }
    {
        let (_last, _bits) = self.window.parts();
        self.window.raise();
        self
    }

    /// Whether an entry may come next: a token, accepted or bad, only where nothing is blocked, and an accepted one only
    /// where the window takes it; passed time from 1 to 999,999,999 seconds.
    fn may(&self, entry: &Entry) -> bool
        ensures { result ≡ follows (summary_of self.now) entry.now }
    {
        match *entry {
            Entry::Accept { count, value } => self.clock.block() == 0
                && self.window.may(count, value),
            Entry::Bad => self.clock.block() == 0,
            Entry::Elapsed { seconds } => 1 <= seconds && seconds <= 999_999_999,
            Entry::Raised => false,
        }
    }

    /// The summary after the entry of a number, with a unit of at most 86,400 seconds. None exactly where the number is
    /// that of no entry, or of one that may not come next.
    pub(crate) fn after_number(mut self, number: u32, unit: u32) -> Option<Summary>
        requires { unit ≤ 86400 }
        ensures { option_map summary_of result ≡ after_number unit (summary_of self) number }
    {
        let entry = read_entry(number)?;
        if !self.may(&entry) {
            return None;
        }
        self.add(entry, unit);
        Some(self)
    }
}

/// The seconds of one unit of time.
pub(crate) fn unit_of(divider: u8) -> u32
    requires { divides_day divider ≡ true }
    ensures value { result ≡ unit_of divider }
    ensures most { result ≤ 86400 }
{
    DAY / u32::from(divider)
}

/// The number of an entry: its kind in the two top bits, and its parts below them.
pub(crate) fn number_of(entry: Entry) -> u32
    requires { HasNumber entry }
    ensures { result ≡ number_of entry }
{
    match entry {
        Entry::Accept { count, value } => (u32::from(count) << 10) + u32::from(value),
        Entry::Bad => 1 << 30,
        Entry::Elapsed { seconds } => (2 << 30) + seconds,
        Entry::Raised => 3 << 30,
    }
}

/// The entry of a number, or none where it is the number of no entry. The two top bits say its kind: an accepted token has
/// its count in bits 23 to 10 and its value in bits 9 to 0, a bad one is 2^30, and passed time has its seconds in bits 29
/// to 0.
fn read_entry(number: u32) -> Option<Entry>
    ensures { result ≡ entry_of number }
{
    if number < 1 << 24 {
        return Some(Entry::Accept {
            count: (number >> 10) as u16,
            value: (number & 0x3FF) as u16,
        });
    }
    if number == 1 << 30 {
        return Some(Entry::Bad);
    }
    if number >> 30 == 2 {
        return Some(Entry::Elapsed {
            seconds: number & 0x3FFF_FFFF,
        });
    }
    None
}
