//! The search for a token that a customer typed: which count of the device's own chain it is, and whether the device
//! takes it.
#![tactic(auto)]

ghost use Rattle.std.specs.Prelude.{◌≡◌, ◌↔◌, ℕ, true, ◌<◌, ◌+◌, ◌^◌, List, []};
ghost use Rattle.paygo_spec.specs.declared.Entry.{Entry};
ghost use Rattle.paygo_spec.specs.declared.Form.{Form};
ghost use Rattle.paygo_spec.specs.declared.Found.{Found};
ghost use Rattle.paygo_spec.specs.History.{Summary, reach as reach_of, is_valid};
ghost use Rattle.paygo_spec.specs.Window.{StandsFor, alone};
ghost use Rattle.paygo_spec.specs.Snapshot.{snapshot};
ghost use Rattle.paygo_spec.specs.Typed.{typed};
ghost use Rattle.paygo_spec.specs.Found.{is_match, is_raised, takes, answer, found, IfValid, IsAnswer};

use count_window::Window;
pub use paygo_spec::Found;
use paygo_spec::GREAT;
use token_chain::{Mixer, Walk, value_of};

/// What a device with this key, starting code and window makes of a typed token. The starting code is below
/// 1,000,000,000.
///
/// The token's last three digits say its value. Where it is the token of that value at a count which the window takes,
/// it is valid, with the least such count. Where it is the token of another count from 0 to the reach of that value,
/// it is old, with the least such count: it was used or overtaken, or it never gives anything. Else it is invalid. On a
/// device that was raised the least count whose token it is decides alone: it is valid where the window takes that count,
/// and else old.
///
/// It is one walk up the chain that ends at the first count at which the token is valid, or on a raised device the first
/// whose token it is: one step of the chain for each
/// count that it looks at, so at most one step more than the reach, which is 64 above the last count, or 100 for a sync
/// token, and never above the limit. It keeps no table.
#[tactic(auto, using(crate::proofs::Answers::window_answers, crate::proofs::Meaning::may_take))]
pub fn find<M: Mixer>(key: &[u8; 16], start: u32, window: &Window, token: u32) -> Found
    requires { start < 10 ^ 9 }
    ensures window { result ≡
        found (M.next key.now) start (alone window.now.limit window.now.last window.now.bits) [] token }
    ensures history { (origin : Summary) (entries : List Entry) →
        StandsFor window.now.limit window.now.last window.now.bits origin entries →
        result ≡ found (M.next key.now) start origin entries token }

    // So a valid token may be handed to `Window::take`.
    ensures may { IfValid result (λ count value.
        is_valid (alone window.now.limit window.now.last window.now.bits) [] count value ≡ true) }
{
    search::<M>(key, start, window, value_of(start, token), token)
}

/// The same, of a token with this value. The value is from 0 to 999.
#[tactic(auto, using(crate::proofs::Passed::passed_none, crate::proofs::Passed::answer_valid, crate::proofs::Passed::answer_first, crate::proofs::Passed::answer_old))]
fn search<M: Mixer>(key: &[u8; 16], start: u32, window: &Window, value: u16, token: u32) -> Found
    requires start { start < 10 ^ 9 }
    requires value { value < 1000 }
    ensures { let origin = alone window.now.limit window.now.last window.now.bits in
        result ≡ answer (is_raised window.now.limit) (is_match (M.next key.now) start token value)
        (takes origin [] value) value (reach_of origin [] value) }
{
    let reach = window.reach(value);
    let raised = window.limit() == GREAT;
    let mut walk = Walk::<M>::new(key, start, value);
    let mut old = None;
    'counts: for count in 0..reach + 1 {
        if is_at(&walk, token) {
            if window.may(count, value) {
                return Found::Valid { count, value };
            }
            if raised {
                return Found::Old { count };
            }
            old = old.or(Some(count));
        }
        walk.advance();
    }
    match old {
        Some(count) => Found::Old { count },
        None => Found::Invalid,
    }
}

/// Whether the walk is at this token.
fn is_at<M: Mixer>(walk: &Walk<M>, token: u32) -> bool
    ensures { result ≡
        is_match (M.next walk.now.key) walk.now.start token walk.now.value walk.now.count }
{
    walk.token() == token
}

/// What each answer says of a typed token, as facts that a reader can check: a law on every history.
pub fn answers_are_facts()
    ensures { (next : ℕ → ℕ) (start : ℕ) (origin : Summary) (entries : List Entry)
        (token : ℕ) (answer : Found) →
        ((answer ≡ found next start origin entries token) ↔
        IsAnswer next start origin entries token answer) }
{}

/// The snapshot of a history decides the answer to every token, although the entries are forgotten: a law on every
/// history.
pub fn snapshots_answer()
    ensures { (next : ℕ → ℕ) (unit start : ℕ) (origin : Summary) (entries : List Entry)
        (token : ℕ) →
        found next start (snapshot unit origin entries) [] token ≡
        found next start origin entries token }
{}

/// The snapshot of a history decides what becomes of every entry at the keypad, and the clock after it, although the
/// entries of the history are forgotten: a law on every history.
pub fn snapshots_decide_entries()
    ensures { (next : ℕ → ℕ) (unit start : ℕ) (form : Form) (origin : Summary)
        (entries : List Entry) (digits : List ℕ) →
        typed next start unit form (snapshot unit origin entries) [] digits ≡
        typed next start unit form origin entries digits }
{}

#[cfg(test)]
mod tests;
