// The clock of a device: how much time is paid for, whether the device is free, and how long entries are blocked.
#![tactic(auto)]

ghost use Rattle.std.specs.Prelude.{◌≡◌, ◌≤◌, ◌*◌, ◌^◌, true, false, ℕ, List, [], MatchOption, if◌then◌else◌};
ghost use Rattle.paygo_spec.specs.declared.Entry.{Entry};
ghost use Rattle.paygo_spec.specs.declared.Entry.TheVariants.{Accept, Bad, Elapsed};
ghost use Rattle.paygo_spec.specs.History.{Summary};
ghost use Rattle.paygo_spec.specs.Clock.{ClockView, clock_with, clock_after, clock_of, is_clock, IsClock, HasEffect, CameUnblocked};

use paygo_spec::{MOST_LEFT, TokenKind};
use std::marker::Model;

/// The number at which failures stop.
const MOST_FAILS: u8 = 10;

/// The clock of a device: the seconds left, whether it is free, the failures in a row, and the seconds for which
/// entries are blocked.
///
/// Time left is at most 1,000,000,000,000 seconds, and 0 on a free device, where time doesn't count any more. Failures
/// are at most 10. The block is 0 without a failure, and at most `60 * 2^failures` seconds else.
#[derive(Clone, Copy, Debug, PartialEq, Eq)]
pub struct Clock {
    left: u64,
    free: bool,
    fails: u8,
    block: u32,
}

impl Model for Clock {
    ghost use Rattle.paygo_spec.specs.Clock.{ClockView, clock_with, IsClock};

    ghost Value = { ClockView };

    ghost view = { λ clock. clock_with clock.left clock.free clock.fails clock.block };

    ghost invariant = { λ clock. IsClock (clock_with clock.left clock.free clock.fails clock.block) };

    ghost inverse = { λ clock. record { left = clock.left; free = clock.free; fails = clock.fails; block = clock.block } };
}

impl Clock {
    /// The clock of a new device: no time left, not free, no failure, no block.
    pub fn fresh() -> Clock
        ensures { result ≡ clock_with 0 false 0 0 }
    {
        Clock {
            left: 0,
            free: false,
            fails: 0,
            block: 0,
        }
    }

    /// The clock with these parts: seconds left, whether the device is free, failures, and seconds of block.
    ///
    /// None exactly where the parts break the rule of a [`Clock`].
    pub fn of_parts(left: u64, free: bool, fails: u8, block: u32) -> Option<Clock>
        ensures rule { MatchOption result
            (¬ IsClock (clock_with left free fails block))
            (λ clock. (clock ≡ clock_with left free fails block) × IsClock clock) }
        ensures test { let parts = clock_with left free fails block in result ≡
            (if is_clock parts then Some parts else None) }
    {
        if left > MOST_LEFT || fails > MOST_FAILS || (free && left > 0) {
            return None;
        }
        let longest = if fails == 0 { 0 } else { block_of(fails) };
        if block > longest {
            return None;
        }
        Some(Clock {
            left,
            free,
            fails,
            block,
        })
    }

    /// What an accepted token of this count and value does, with a unit of so many seconds.
    ///
    /// A set token gives `value` units in place of the time left, and the device isn't free; a disable token frees the
    /// device, and a sync token changes neither. An add token adds `value` units, but not on a free device, and a sum
    /// above 1,000,000,000,000 seconds becomes that number. Each sets the failures to 0. The caller sees to it that the
    /// token is of one of these kinds, that the unit is at most 86,400 seconds, and that entries aren't blocked.
    pub fn credit(&mut self, count: u16, value: u16, unit: u32)
        requires effect { HasEffect count value }
        requires unit { unit ≤ 86400 }
        requires unblocked { self.old.block ≡ 0 }
        ensures { self.new ≡ clock_after unit (Accept count value) self.old }
    {
        self.fails = 0;
        match TokenKind::of(count, value) {
            Some(TokenKind::Add) => {
                if !self.free {
                    self.left = (self.left + value as u64 * unit as u64).min(MOST_LEFT);
                }
            }
            Some(TokenKind::Set) => {
                self.free = false;
                self.left = value as u64 * unit as u64;
            }
            Some(TokenKind::Free) => {
                self.free = true;
                self.left = 0;
            }
            Some(TokenKind::Sync) | None => {}
        }
    }

    /// What an invalid token does: one failure more, up to 10, and a block of `60 * 2^failures` seconds.
    ///
    /// The caller sees to it that entries aren't blocked. Time left and the free state stay.
    pub fn bad(&mut self)
        requires { self.old.block ≡ 0 }
        ensures { (unit : ℕ) → self.new ≡ clock_after unit Bad self.old }
    {
        self.fails = (self.fails + 1).min(MOST_FAILS);
        self.block = block_of(self.fails);
    }

    /// What the passing of so many seconds does: time left and the block fall by them, each no further than 0.
    pub fn pass(&mut self, seconds: u32)
        ensures { (unit : ℕ) → self.new ≡ clock_after unit (Elapsed seconds) self.old }
    {
        self.left = self.left.saturating_sub(seconds as u64);
        self.block = self.block.saturating_sub(seconds);
    }

    /// The seconds left: 0 on a free device, where time doesn't count.
    pub fn left(&self) -> u64
        ensures value { result ≡ self.now.left }
        ensures rule { IsClock self.now }
    {
        self.left
    }

    /// Whether the device is free.
    pub fn free(&self) -> bool
        ensures value { result ≡ self.now.free }
        ensures rule { IsClock self.now }
    {
        self.free
    }

    /// The number of failures in a row, at most 10.
    pub fn fails(&self) -> u8
        ensures value { result ≡ self.now.fails }
        ensures rule { IsClock self.now }
    {
        self.fails
    }

    /// The seconds for which entries are still blocked.
    pub fn block(&self) -> u32
        ensures value { result ≡ self.now.block }
        ensures rule { IsClock self.now }
    {
        self.block
    }
}

/// The seconds that so many failures block, of which there are at most 10.
fn block_of(fails: u8) -> u32
    requires { fails ≤ 10 }
    ensures { result ≡ 60 * 2 ^ fails }
{
    60 << fails
}

/// The clock of a history keeps the rule of a clock, where its start does: a law on histories.
///
/// Each entry by a customer came while nothing was blocked, and each accepted token has an effect. The unit is at most
/// 86,400 seconds.
pub fn rule_is_kept()
    ensures { (unit : ℕ) (start : Summary) (entries : List Entry) → unit ≤ 86400 → IsClock (clock_of unit start []) →
        CameUnblocked unit start entries → IsClock (clock_of unit start entries) }
{}

#[cfg(test)]
mod tests;
