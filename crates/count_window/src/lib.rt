// The window of a device: the last count that it accepted, and which of the counts near it are spent. A device keeps
// this in place of all tokens that it ever accepted, and decides by it which token it takes next.
#![tactic(auto)]

ghost use Rattle.std.specs.Prelude.{◌≡◌, ◌≤◌, ◌<◌, ◌+◌, ◌-◌, ◌==◌, max, nat_lt, if◌then◌else◌, not, ◌&&◌, List, [], ◌∷◌, ℕ, ◌↔◌, IsTrue, IsSome, IfSome, is_some, true, false};
ghost use Rattle.std.specs.Int.{bit_at};
ghost use Rattle.paygo_spec.specs.declared.Entry.{Entry};
ghost use Rattle.paygo_spec.specs.declared.Entry.TheVariants.{Accept, Raised};
ghost use Rattle.paygo_spec.specs.History.{Summary, fresh as new_device, first_limit, raised_limit, IsLimit, is_odd, reach as reach_of, spent, Valid, is_valid};
ghost use Rattle.paygo_spec.specs.Window.{StandsFor, alone, IsWindow, is_window};
ghost use Rattle.paygo_spec.specs.Snapshot.{window_of};
ghost use Rattle.count_window.specs.Bits.{HasBits};

use paygo_spec::{GREAT, LAST, TokenKind};
use std::marker::Model;

/// What a device keeps of the tokens that it accepted: the greatest count that it ever takes, which is 4,095, or 16,383 on a
/// device that was raised; the last count, from 0 on a new device to that one; and sixteen bits, of which bit i says
/// whether the count i below the last one is spent. Older counts are all spent.
#[derive(Clone, Copy, Debug, PartialEq, Eq)]
pub struct Window {
    limit: u16,
    last: u16,
    bits: u16,
}

impl Model for Window {
    ghost use Rattle.paygo_spec.specs.Window.{WindowView, IsWindow};
    ghost use Rattle.paygo_spec.specs.History.{IsLimit};

    ghost Value = { WindowView };

    ghost view = { λ w. record { limit = w.limit; last = w.last; bits = w.bits } };

    ghost invariant = { λ w. IsLimit w.limit × IsWindow w.limit w.last w.bits };

    ghost inverse = { λ v. record { limit = v.limit; last = v.last; bits = v.bits } };
}

impl Window {
    /// The window of a new device: its limit is 4,095, its last count is 0, and no count is spent.
    pub fn fresh() -> Window
        ensures parts { result ≡ record { limit = first_limit; last = 0; bits = 0 } }
        ensures history { StandsFor result.limit result.last result.bits new_device [] }
    {
        Window {
            limit: LAST,
            last: 0,
            bits: 0,
        }
    }

    /// The greatest count that is taken next with a value: 64 above the last count, and 100 above it for the value 999
    /// of a sync token, but never above the limit.
    pub fn reach(&self, value: u16) -> u16
        ensures window { result ≡ reach_of (alone self.now.limit self.now.last self.now.bits) [] value }
        ensures history { (start : Summary) (entries : List Entry) →
            StandsFor self.now.limit self.now.last self.now.bits start entries →
            result ≡ reach_of start entries value }
    {
        let step = if value == 999 { 100 } else { 64 };
        self.limit.min(self.last + step)
    }

    /// Whether the token of this count and value is taken next, which must be of some kind. An add token is taken less
    /// than sixteen below the last count, and not twice. A token of another kind is taken above the last count. None is
    /// taken above the reach.
    pub fn may(&self, count: u16, value: u16) -> bool
        ensures window { result ≡ is_valid (alone self.now.limit self.now.last self.now.bits) [] count value }
        ensures history { (start : Summary) (entries : List Entry) →
            StandsFor self.now.limit self.now.last self.now.bits start entries →
            (IsTrue result ↔ Valid start entries count value) }
    {
        if count < 1 || count > self.reach(value) {
            return false;
        }
        match TokenKind::of(count, value) {
            Some(TokenKind::Add) => self.is_open(count),
            Some(_) => count > self.last,
            None => false,
        }
    }

    /// Whether a count is less than sixteen below the last one, and isn't spent.
    fn is_open(&self, count: u16) -> bool
        ensures { result ≡ (nat_lt self.now.last (count + 16) &&
            not (spent (alone self.now.limit self.now.last self.now.bits) [] count)) }
    {
        if count > self.last {
            return true;
        }
        let below = self.last - count;
        below < 16 && (self.bits >> below) & 1 == 0
    }

    /// Takes the token of this count and value, which `may` allows: the count is spent from now on, and with an odd
    /// count all counts below it.
    pub fn take(&mut self, count: u16, value: u16)
        requires may { is_valid (alone self.old.limit self.old.last self.old.bits) [] count value ≡ true }
        ensures window { self.new ≡ window_of (alone self.old.limit self.old.last self.old.bits)
            (Accept count value ∷ []) }
        ensures history { (start : Summary) (entries : List Entry) →
            StandsFor self.old.limit self.old.last self.old.bits start entries →
            StandsFor self.new.limit self.new.last self.new.bits start (Accept count value ∷ entries) }
    {
        let bits = bits_after(self.last, self.bits, count);
        *self = Window {
            limit: self.limit,
            last: self.last.max(count),
            bits,
        };
    }

    /// The greatest count that is ever taken: 4,095, or 16,383 where the window was raised.
    pub fn limit(&self) -> u16
        ensures value { result ≡ self.now.limit }
        ensures rule { IsLimit result }
    {
        self.limit
    }

    /// Raises the limit to 16,383. Nothing else changes.
    pub fn raise(&mut self)
        ensures window { self.new ≡ window_of (alone self.old.limit self.old.last self.old.bits) (Raised ∷ []) }
        ensures parts { self.new ≡ record { limit = raised_limit; last = self.old.last; bits = self.old.bits } }
        ensures history { (start : Summary) (entries : List Entry) →
            StandsFor self.old.limit self.old.last self.old.bits start entries →
            StandsFor self.new.limit self.new.last self.new.bits start (Raised ∷ entries) }
    {
        self.limit = GREAT;
    }

    /// The last count and the sixteen bits.
    pub fn parts(&self) -> (u16, u16)
        ensures last { result.0 ≡ self.now.last }
        ensures bits { result.1 ≡ self.now.bits }
        ensures rule { IsWindow self.now.limit result.0 result.1 }
    {
        (self.last, self.bits)
    }

    /// The window of a limit, which is 4,095 or 16,383, a last count and sixteen bits, or none where these break the rule on
    /// windows: the last count is at most the limit; bit 0 is set exactly where it is at least 1; no bit of a count below 1 is set; and below a spent odd
    /// count every count is spent.
    pub fn of_parts(limit: u16, last: u16, bits: u16) -> Option<Window>
        requires { IsLimit limit }
        ensures rule { IsSome result ↔ IsWindow limit last bits }
        ensures test { is_some result ≡ is_window limit last bits }
        ensures parts { IfSome result (λ w. w ≡ record { limit = limit; last = last; bits = bits }) }
    {
        if keeps_rule(limit, last, bits) {
            Some(Window { limit, last, bits })
        } else {
            None
        }
    }
}

/// The bits after one more accepted count: it is spent, and where it is odd all counts below it.
fn bits_after(last: u16, bits: u16, count: u16) -> u16
    requires counted { 1 ≤ count }
    requires near { last < count + 16 }
    requires even { count ≤ last → is_odd count ≡ false }
    ensures { (limit : ℕ) (start : Summary) (entries : List Entry) (value : ℕ) →
        StandsFor limit last bits start entries →
        StandsFor limit (max last count) result start (Accept count value ∷ entries) }
{
    if count <= last {
        marked(bits, last - count)
    } else if count % 2 == 1 {
        ones(count)
    } else {
        moved(bits, count - last)
    }
}

/// Ones below a place.
fn ones(n: u16) -> u16
    ensures { HasBits result (λ i. if nat_lt i n then 1 else 0) }
{
    if n >= 16 { 0xFFFF } else { (1 << n) - 1 }
}

/// The bits moved up, with a 1 at place 0.
fn moved(bits: u16, step: u16) -> u16
    requires { 1 ≤ step }
    ensures { HasBits result (λ i. if i == 0 then 1 else if nat_lt i step then 0 else bit_at bits (i - step)) }
{
    if step < 16 { (bits << step) | 1 } else { 1 }
}

/// The bits with one more.
fn marked(bits: u16, at: u16) -> u16
    requires { at < 16 }
    ensures { HasBits result (λ i. if i == at then 1 else bit_at bits i) }
{
    bits | (1 << at)
}

/// Whether a last count and sixteen bits keep the rule on windows under a limit.
fn keeps_rule(limit: u16, last: u16, bits: u16) -> bool
    ensures { IsTrue result ↔ IsWindow limit last bits }
{
    if last > limit || (bits & 1 == 1) != (last >= 1) {
        return false;
    }
    let mut overtaken = false;
    for i in 0..16u16 {
        let spent = (bits >> i) & 1 == 1;
        if i >= last {
            if spent {
                return false;
            }
        } else if spent {
            overtaken = overtaken || (last - i) % 2 == 1;
        } else if overtaken {
            return false;
        }
    }
    true
}

#[cfg(test)]
mod tests;
