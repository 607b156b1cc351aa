// What the flash of a device may stand for behind an answer.
ghost use Rattle.std.specs.Prelude.{◌≡◌, ℕ, [], ◌∷◌, map, IfOk};
ghost use Rattle.paygo_spec.specs.Machine.{Stored, IsEvent, keys_after};
ghost use Rattle.paygo_spec.specs.Pad.{Keys, kept_of, IsKey};
ghost use Rattle.log_check.specs.Standing.{stored_of, outcome_of, IsStanding};
ghost use Rattle.log_check.specs.Keeping.{AreStandings, AreForetold, storeds_of, put_storeds, outcomes_at, told_by, told_from, is_made, first_is_made};

use crate::outcomes::{Foreseen, foretell, says};
use crate::same::put;
use crate::standing::Standing;
use keypad_entry::Pad;
use paygo_spec::{Event, Memory};
use std::alloc::Global;
use token_chain::Mixer;

// What the flash stands for then, where the reply has this text.
fn put_told(standings: &mut Vec<Standing>, foreseen: &Foreseen, text: &[u8]) -> Result<(), Memory>
    requires { IsStanding foreseen.now.standing }
    ensures puts { IfOk result (λ _. storeds_of standings.new.items ≡
        put_storeds (storeds_of standings.old.items) (told_by text.now (outcome_of foreseen.now ∷ []))) }
    ensures range { AreStandings standings.old.items → AreStandings standings.new.items }
{
    if says(&foreseen.reply, text) {
        return put(standings, &foreseen.standing);
    }
    Ok(())
}

// The same of all that may be answered.
fn put_all_told(standings: &mut Vec<Standing>, list: &[Foreseen], text: &[u8]) -> Result<(), Memory>
    requires { AreForetold list.now }
    ensures puts { IfOk result (λ _. storeds_of standings.new.items ≡
        put_storeds (storeds_of standings.old.items) (told_by text.now (map outcome_of list.now))) }
    ensures range { AreStandings standings.old.items → AreStandings standings.new.items }
{
    for foreseen in list {
        put_told(standings, foreseen, text)?;
    }
    Ok(())
}

// What the flash of a device that stands so stands for behind an answer with this text.
fn put_from<M: Mixer>(
    alloc: Global,
    standings: &mut Vec<Standing>,
    standing: &Standing,
    pad: Pad,
    event: Event,
    text: &[u8],
) -> Result<(), Memory>
    requires range { IsStanding standing.now }
    requires event { IsEvent event }
    ensures puts { (keys : Keys) → pad ≡ kept_of keys → IfOk result (λ _. storeds_of standings.new.items ≡
        put_storeds (storeds_of standings.old.items)
        (told_by text.now (outcomes_at M.next event keys (stored_of standing.now)))) }
    ensures range { AreStandings standings.old.items → AreStandings standings.new.items }
{
    let list = foretell::<M>(alloc, standing, pad, event)?;
    put_all_told(standings, &list, text)
}

/// What the flash may stand for behind an answer with this text, where it may stand for one of these before. Each is
/// kept once.
pub(crate) fn standings_behind<M: Mixer>(
    alloc: Global,
    standings: &[Standing],
    pad: Pad,
    event: Event,
    text: &[u8],
) -> Result<Vec<Standing>, Memory>
    requires range { AreStandings standings.now }
    requires event { IsEvent event }
    ensures told { (keys : Keys) → pad ≡ kept_of keys → IfOk result (λ list. storeds_of list.items ≡
        put_storeds [] (told_from M.next text.now event keys (storeds_of standings.now))) }
    ensures range { IfOk result (λ list. AreStandings list.items) }
{
    let mut behind = Vec::new(alloc);
    for standing in standings {
        put_from::<M>(alloc, &mut behind, standing, pad, event, text)?;
    }
    Ok(behind)
}

/// Whether a device was made on the first of these.
pub(crate) fn is_first_made(standings: &[Standing]) -> bool
    ensures { result ≡ first_is_made (storeds_of standings.now) }
{
    if standings.is_empty() {
        return false;
    }
    match standings[0] {
        Standing::Blank => false,
        Standing::Made(_) => true,
    }
}

// The pad behind a key, on a device that was made, or not.
fn after_key(pad: Pad, made: bool, key: u8) -> Pad
    requires { IsKey key }
    ensures { (keys : Keys) (stored : Stored) → pad ≡ kept_of keys → is_made stored ≡ made →
        result ≡ kept_of (keys_after stored (Event.Key key) keys) }
{
    let mut pad = pad;
    if made || key == b'#' {
        pad.press(key);
    }
    pad
}

/// The pad behind an event but a cut, on a device that was made, or not.
pub(crate) fn heard(pad: Pad, made: bool, event: Event) -> Pad
    requires { IsEvent event }
    ensures { (keys : Keys) (stored : Stored) → pad ≡ kept_of keys → is_made stored ≡ made →
        result ≡ kept_of (keys_after stored event keys) }
{
    match event {
        Event::Power => Pad::empty(),
        Event::Key(key) => after_key(pad, made, key),
        Event::Tick(seconds) => {
            let mut pad = pad;
            pad.idle(seconds);
            pad
        }
        _ => pad,
    }
}
