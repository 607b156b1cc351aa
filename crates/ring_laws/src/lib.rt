//! Laws on a flash of two to sixteen banks that is used in turn: what a device's journal does to it keeps it orderly,
//! wherever the power is cut, so that nothing is lost where the ring's own memory is (`Ring::restart` of `bank_ring`);
//! and its banks wear evenly. Each function does nothing: its clause is the law.
#![tactic(auto)]

ghost use Rattle.std.specs.Prelude.{◌≡◌, ◌<◌, ◌^◌, ◌+◌, ◌-◌, ◌*◌, ℕ, ◌≤◌, List, slice_index};
ghost use Rattle.paygo_spec.specs.Flash.{erased_word};
ghost use Rattle.paygo_spec.specs.Layout.{last_bank};
ghost use Rattle.paygo_spec.specs.Rail.{railed};
ghost use Rattle.paygo_spec.specs.Recovery.{JournalView, Made, Unmade, recover, word_at};
ghost use Rattle.bank_ring.specs.View.{header, shown_words};
ghost use Rattle.bank_ring.specs.Orderly.{IsOrderly};
ghost use Rattle.ring_laws.specs.Calls.{RingState, RingCall, Program, IsRing, IsMake, Lives, MayCall, MayRun, MayTurn, RunsOrCut, WearsEvenly, turn_calls};

/// A media that is orderly stays so under the calls of a journal, whether they are all made or one of them is cut: at
/// every place of a fault. What stands orderly is found again after a restart of the ring.
pub fn a_media_stays_orderly()
    ensures { (calls : List RingCall) (old new : RingState) → IsRing old →
        IsOrderly old.banks (header old.words) old.pair → MayRun calls old → RunsOrCut calls old new →
        IsOrderly new.banks (header new.words) new.pair }
{}

/// The calls by which a journal begins a bank, as it is made, is full or is raised, are such calls: an erase, eleven
/// words of the head, and the header last.
pub fn a_journal_turns_orderly()
    ensures { (state : RingState) (slot : ℕ) (head : ℕ → ℕ) (number : ℕ) → IsRing state →
        MayTurn state slot head number → MayRun (turn_calls slot head number) state }
{}

/// What a journal does on an orderly ring are such calls. Where a device was made, the bank that isn't in use may be
/// begun with the next number (`turns`), and an entry be programmed behind the head (`enters`); where none was made,
/// bank 0 may be begun with the number 1 (`makes`).
pub fn a_journal_does_such_calls()
    ensures turns { (state : RingState) (journal : JournalView) → IsRing state →
        IsOrderly state.banks (header state.words) state.pair →
        recover (shown_words state.words state.pair) ≡ Made journal →
        (head : ℕ → ℕ) → ((place : ℕ) → head place < 2 ^ 32) → journal.at.number < last_bank →
        MayTurn state (1 - journal.bank) head (journal.at.number + 1) }
    ensures enters { (state : RingState) (journal : JournalView) → IsRing state →
        IsOrderly state.banks (header state.words) state.pair →
        recover (shown_words state.words state.pair) ≡ Made journal →
        (place number : ℕ) → 12 ≤ place → place < 512 → number < 2 ^ 32 →
        word_at (shown_words state.words state.pair) journal.bank place ≡ erased_word →
        MayCall (Program (512 * journal.bank + place) (railed number)) state }
    ensures makes { (state : RingState) → IsRing state →
        IsOrderly state.banks (header state.words) state.pair →
        recover (shown_words state.words state.pair) ≡ Unmade →
        (head : ℕ → ℕ) → ((place : ℕ) → head place < 2 ^ 32) → MayTurn state 0 head 1 }
{}

/// From a media whose banks were erased equally often, after a device was made, and any number of entries and of turns
/// of the bank of which none failed, any two banks' numbers of erases differ by at most one.
pub fn banks_wear_evenly()
    ensures { (start made now : RingState) → IsRing start →
        ((a b : ℕ) → a < start.banks → b < start.banks →
        slice_index start.erases a ≡ slice_index start.erases b) →
        ((a : ℕ) → slice_index start.erases a < 2 ^ 64) → IsMake start made → Lives made now → WearsEvenly now }
{}
