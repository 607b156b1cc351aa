// The pad of a device: it holds typed digits until they are handed over, cleared, or forgotten.
#![tactic(auto)]

ghost use Rattle.std.specs.Prelude.{◌≡◌, ◌≤◌};
ghost use Rattle.paygo_spec.specs.Pad.{Keys, IsKey, PadView, no_keys, with_digit, after_key, after_seconds, kept_of};
ghost use Rattle.keypad_entry.specs.Press.{press_of};

use std::marker::Model;

/// The number at which the length of an entry stops.
const MOST_HELD: u8 = 99;

/// The seconds without a key after which a pad clears itself.
const FORGETS_AFTER: u32 = 30;

/// What the press of a key did.
#[derive(Clone, Copy, Debug, PartialEq, Eq)]
pub enum Press {
    /// The digit is held.
    Held,
    /// The pad was cleared.
    Cleared,
    /// The pad was handed over and cleared: the first fifteen digits, with bytes 0 behind them where there are fewer,
    /// and how many digits were pressed, a number that stops at 99.
    Entry { digits: [u8; 15], length: u8 },
}

/// The digits pressed since the pad was last cleared, and the seconds since the last key.
///
/// It keeps the first fifteen digits and how many there were, up to 99.
#[derive(Clone, Copy, Debug, PartialEq, Eq)]
pub struct Pad {
    digits: [u8; 15],
    held: u8,
    seconds: u32,
}

impl Model for Pad {
    ghost use Rattle.std.specs.Prelude.{◌≤◌};
    ghost use Rattle.paygo_spec.specs.Pad.{PadView};

    ghost Value = { PadView };

    ghost view = { λ pad. record { digits = pad.digits; held = pad.held; seconds = pad.seconds } };

    ghost invariant = { λ pad. pad.held ≤ 99 };

    ghost inverse = { λ pad. record { digits = pad.digits; held = pad.held; seconds = pad.seconds } };
}

impl Pad {
    /// A pad that holds nothing.
    pub fn empty() -> Pad
        ensures { result ≡ kept_of no_keys }
    {
        Pad {
            digits: [0; 15],
            held: 0,
            seconds: 0,
        }
    }

    /// Takes a key: a byte from `0` to `9`, which is held, `*`, which clears the pad, or `#`, which hands the entry
    /// over and clears the pad. The seconds count anew.
    ///
    /// The caller sees to it that the byte is one of these.
    pub fn press(&mut self, key: u8) -> Press
        requires { IsKey key }
        ensures pad { (keys : Keys) → self.old ≡ kept_of keys → self.new ≡ kept_of (after_key key keys) }
        ensures press { (keys : Keys) → self.old ≡ kept_of keys → result ≡ press_of key keys }
    {
        match key {
            b'*' => self.clear(),
            b'#' => self.enter(),
            _ => self.hold(key),
        }
    }

    /// Counts so many seconds without a key. The pad clears itself when the seconds since the last key reach 30, and
    /// keeps its digits else.
    pub fn idle(&mut self, seconds: u32)
        ensures { (keys : Keys) → self.old ≡ kept_of keys → self.new ≡ kept_of (after_seconds seconds keys) }
    {
        self.seconds = self.seconds.saturating_add(seconds);
        if self.seconds >= FORGETS_AFTER {
            self.clear();
        }
    }

    /// How many digits were pressed since the pad was last cleared: a number that stops at 99.
    pub fn held(&self) -> u8
        ensures value { result ≡ self.now.held }
        ensures most { result ≤ 99 }
    {
        self.held
    }

    /// Forgets everything.
    fn clear(&mut self) -> Press
        ensures pad { self.new ≡ kept_of no_keys }
        ensures press { result ≡ Press.Cleared }
    {
        *self = Pad::empty();
        Press::Cleared
    }

    /// Hands the entry over, and forgets it.
    fn enter(&mut self) -> Press
        ensures pad { self.new ≡ kept_of no_keys }
        ensures press { result ≡ Press.Entry self.old.digits self.old.held }
    {
        let pad = std::mem::replace(self, Pad::empty());
        let digits = pad.digits;
        Press::Entry {
            digits,
            length: pad.held,
        }
    }

    /// Holds one digit more, and counts the seconds anew.
    fn hold(&mut self, digit: u8) -> Press
        ensures pad { (keys : Keys) → self.old ≡ kept_of keys → self.new ≡ kept_of (with_digit digit keys) }
        ensures press { result ≡ Press.Held }
    {
        let place = self.held as usize;
        if place < self.digits.len() {
            self.digits[place] = digit;
        }
        self.held = (self.held + 1).min(MOST_HELD);
        self.seconds = 0;
        Press::Held
    }
}

#[cfg(test)]
mod tests;
