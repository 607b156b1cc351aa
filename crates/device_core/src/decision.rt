// What an event comes to on a device that was made. Nothing here touches the flash.
ghost use Rattle.std.specs.Prelude.{◌≡◌, ◌≢◌, ◌≤◌, Some, IfSome};
ghost use Rattle.paygo_spec.specs.Digits.{value_of};
ghost use Rattle.paygo_spec.specs.Machine.{IsEvent, History, Journal as JournalOf, effect_of_raise, effect_of_seconds, keys_after};
ghost use Rattle.paygo_spec.specs.Pad.{Keys, IsKey, after_key, handed_over, held_of, kept_of};
ghost use Rattle.device_core.specs.Decided.{MayDo, decided, decision_of, history_from};

use crate::replies::{reply_to_time, show_same, shown};
use bank_journal::Journal;
use digit_set::{DigitFault, read};
use keypad_entry::{Pad, Press};
use paygo_spec::{Entry, Event, Found, GREAT, Reply};
use token_chain::Mixer;
use token_decode::find;

/// What an event comes to on a device that was made.
#[derive(Clone, Copy, Debug, PartialEq, Eq)]
pub enum Decision {
    /// It is answered, and takes no word of the flash.
    Answers(Reply),
    /// It adds this entry to the history.
    Adds(Entry),
    /// It raises the device.
    Raises,
}

/// Decides what an event comes to, and tells the pad of it first: a key is pressed on it, and a tick lets it forget.
pub fn decide<M: Mixer>(journal: &Journal, pad: &mut Pad, event: Event) -> Option<Decision>
    requires { IsEvent event }
    ensures decision { (keys : Keys) → pad.old ≡ kept_of keys → result ≡ decided M.next journal.now keys event }
    ensures pad { (keys : Keys) (history : History) → pad.old ≡ kept_of keys → event ≢ Event.Power →
        pad.new ≡ kept_of (keys_after (JournalOf history) event keys) }
    ensures may { IfSome result (MayDo journal.now) }
{
    match event {
        Event::Power => None,
        Event::Make(_) => Some(Decision::Answers(Reply::Made {
            number: journal.number(),
        })),
        Event::Key(key) => decide_key::<M>(journal, pad, key),
        Event::Tick(seconds) => {
            pad.idle(seconds);
            Some(decide_seconds(journal, seconds))
        }
        Event::Show => Some(Decision::Answers(shown(journal, pad.held()))),
        Event::Raise => Some(decide_raise(journal)),
    }
}

// A key is pressed. `#` hands the entry over.
fn decide_key<M: Mixer>(journal: &Journal, pad: &mut Pad, key: u8) -> Option<Decision>
    requires { IsKey key }
    ensures decision { (keys : Keys) → pad.old ≡ kept_of keys →
        result ≡ decided M.next journal.now keys (Event.Key key) }
    ensures pad { (keys : Keys) → pad.old ≡ kept_of keys → pad.new ≡ kept_of (after_key key keys) }
    ensures may { IfSome result (MayDo journal.now) }
{
    match pad.press(key) {
        Press::Entry { digits, length } => Some(decide_entry::<M>(journal, &digits, length)),
        _ => None,
    }
}

// Judges an entry: first its length, then its digits, then what `decide_token` looks at. Where a pad hands it over,
// that is what is decided of the keys at `#`.
fn decide_entry<M: Mixer>(journal: &Journal, digits: &[u8; 15], held: u8) -> Decision
    ensures decision { (keys : Keys) → digits.now ≡ handed_over keys.pressed → held ≡ held_of keys →
        Some result ≡ decided M.next journal.now keys (Event.Key 35) }
    ensures may { MayDo journal.now result }
{
    let form = journal.config().form;
    let count = usize::from(held);
    if count != form.length() {
        return Decision::Answers(Reply::Length { n: held });
    }
    match read(form, &digits[..count]) {
        Ok(token) => decide_token::<M>(journal, token),
        Err(DigitFault::Length(_)) => Decision::Answers(Reply::Length { n: held }),
        Err(DigitFault::Digit(place)) => Decision::Answers(Reply::Digits { place: place as u8 }),
    }
}

// Judges a token, which the pressed keys say: a block is told before it is searched for.
fn decide_token<M: Mixer>(journal: &Journal, token: u32) -> Decision
    ensures decision { (keys : Keys) → value_of journal.now.config.form keys.pressed ≡ Some token →
        Some result ≡ decided M.next journal.now keys (Event.Key 35) }
    ensures may { MayDo journal.now result }
{
    let block = journal.summary().clock.block();
    if block > 0 {
        return Decision::Answers(Reply::Blocked { block });
    }
    search::<M>(journal, token)
}

// Searches for a token, where entries aren't blocked.
fn search<M: Mixer>(journal: &Journal, token: u32) -> Decision
    requires { journal.now.summary.block ≡ 0 }
    ensures decision { (keys : Keys) → value_of journal.now.config.form keys.pressed ≡ Some token →
        Some result ≡ decided M.next journal.now keys (Event.Key 35) }
    ensures may { MayDo journal.now result }
{
    let config = journal.config();
    match find::<M>(&config.key, config.start, &journal.summary().window, token) {
        Found::Valid { count, value } => Decision::Adds(Entry::Accept { count, value }),
        Found::Old { .. } => Decision::Answers(Reply::Old),
        Found::Invalid => Decision::Adds(Entry::Bad),
    }
}

// The device is to be raised. Once it was, nothing changes.
fn decide_raise(journal: &Journal) -> Decision
    ensures decision { Some result ≡ decision_of (effect_of_raise (history_from journal.now)) }
    ensures may { MayDo journal.now result }
{
    if journal.summary().window.limit() == GREAT {
        Decision::Answers(Reply::Raised)
    } else {
        Decision::Raises
    }
}

// Seconds pass.
fn decide_seconds(journal: &Journal, seconds: u32) -> Decision
    requires { seconds ≤ 999999999 }
    ensures decision { Some result ≡ decision_of (effect_of_seconds (history_from journal.now) seconds) }
    ensures may { MayDo journal.now result }
{
    let before = journal.summary().clock;
    let mut clock = before;
    clock.pass(seconds);
    if show_same(&clock, &before) {
        return Decision::Answers(reply_to_time(&clock));
    }
    Decision::Adds(Entry::Elapsed { seconds })
}
