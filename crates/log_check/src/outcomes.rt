// What may be answered to an event, and what the flash stands for then.
ghost use Rattle.std.specs.Prelude.{◌≡◌, ◌≢◌, ◌∷◌, [], ℕ, true, map, IfOk, IfSome, Some};
ghost use Rattle.paygo_spec.specs.Lawful.{follows};
ghost use Rattle.paygo_spec.specs.Machine.{IsEvent, IsConfig, Journal as JournalOf, only as only_of, reply_to_power};
ghost use Rattle.paygo_spec.specs.Pad.{Keys, kept_of};
ghost use Rattle.bank_journal.specs.Summary.{summary_of};
ghost use Rattle.log_check.specs.After.{adding as adding_of, raising as raising_of, making as making_of, powering as powering_of, outcomes as outcomes_of};
ghost use Rattle.device_core.specs.Decided.{MayDo};
ghost use Rattle.log_check.specs.Fits.{says as says_of};
ghost use Rattle.log_check.specs.declared.standing.Standing.TheVariants.{Made as MadeStanding};
ghost use Rattle.log_check.specs.Keeping.{AreForetold};
ghost use Rattle.log_check.specs.Standing.{history_of, journal_of, stored_of, outcome_of, by_decision, IsMade, IsStanding};

use crate::standing::{Made, Standing};
use device_core::{Decision, decide, line, reply_to};
use keypad_entry::Pad;
use paygo_spec::{Config, Entry, Event, Memory, Reply};
use std::alloc::Global;
use token_chain::Mixer;

/// A reply, or none, and what the flash stands for then.
#[derive(Clone, Copy, Debug)]
pub struct Foreseen {
    /// The reply; None where the device answers nothing.
    pub reply: Option<Reply>,
    /// What the flash stands for then.
    pub standing: Standing,
}

// A reply, or none.
fn foresee(reply: Option<Reply>, standing: Standing) -> Foreseen
    ensures { result ≡ record { reply = reply; standing = standing } }
{
    Foreseen { reply, standing }
}

// A reply of a device that was made, and what it is then.
fn of_made(reply: Reply, made: &Made) -> Foreseen
    ensures { result ≡ record { reply = Some reply; standing = MadeStanding made.now } }
{
    Foreseen {
        reply: Some(reply),
        standing: Standing::Made(*made),
    }
}

// These outcomes.
fn listed(alloc: Global, outcomes: &[Foreseen]) -> Result<Vec<Foreseen>, Memory>
    requires { AreForetold outcomes.now }
    ensures same { IfOk result (λ list. list.items ≡ outcomes.now) }
    ensures range { IfOk result (λ list. AreForetold list.items) }
{
    match Vec::from_slice(alloc, outcomes) {
        Ok(list) => Ok(list),
        Err(_) => Err(Memory),
    }
}

// An entry is added.
fn adding(alloc: Global, made: &Made, entry: Entry) -> Result<Vec<Foreseen>, Memory>
    requires range { IsMade made.now }
    requires follows { follows (summary_of made.now.summary) entry ≡ true }
    ensures outcomes { IfOk result (λ list. map outcome_of list.items ≡ adding_of (history_of made.now) entry) }
    ensures range { IfOk result (λ list. AreForetold list.items) }
{
    if made.journal().room() == 0 {
        return listed(alloc, &[foresee(Some(Reply::Worn), Standing::Made(*made))]);
    }
    let with = made.with(entry);
    let answered = foresee(
        Some(reply_to(entry, &with.summary.clock)),
        Standing::Made(with),
    );
    let counted = foresee(Some(Reply::Down), Standing::Made(with));
    let before = foresee(Some(Reply::Down), Standing::Made(*made));
    let passed = foresee(Some(Reply::Down), Standing::Made(made.further()));
    if made.place == 512 {
        let turned = foresee(Some(Reply::Down), Standing::Made(made.turned()));
        return listed(alloc, &[answered, counted, before, passed, turned]);
    }
    listed(alloc, &[answered, counted, before, passed])
}

// A device is raised.
fn raising(alloc: Global, made: &Made) -> Result<Vec<Foreseen>, Memory>
    requires range { IsMade made.now }
    ensures outcomes { IfOk result (λ list. map outcome_of list.items ≡ raising_of (history_of made.now)) }
    ensures range { IfOk result (λ list. AreForetold list.items) }
{
    if made.number == 100_000 {
        return listed(alloc, &[foresee(Some(Reply::Worn), Standing::Made(*made))]);
    }
    let raised = made.raised();
    let answered = of_made(Reply::Raised, &raised);
    let before = of_made(Reply::Down, made);
    let counted = of_made(Reply::Down, &raised);
    listed(alloc, &[answered, before, counted])
}

// A device is made.
fn making(alloc: Global, config: &Config) -> Result<Vec<Foreseen>, Memory>
    requires { IsConfig config.now }
    ensures outcomes { IfOk result (λ list. map outcome_of list.items ≡ making_of config.now) }
    ensures range { IfOk result (λ list. AreForetold list.items) }
{
    let made = Made::new(config);
    let up = Reply::Up {
        count: 0,
        left: 0,
        free: false,
        block: 0,
    };
    let answered = of_made(up, &made);
    let before = foresee(Some(Reply::Down), Standing::Blank);
    let counted = of_made(Reply::Down, &made);
    listed(alloc, &[answered, before, counted])
}

// A reply of a device that isn't made: of the keys it answers `#` alone.
fn only(event: Event, reply: Reply) -> Option<Reply>
    ensures { result ≡ only_of event reply }
{
    match event {
        Event::Key(key) => { if key == b'#' { Some(reply) } else { None } }
        _ => Some(reply),
    }
}

// What a decision comes to.
fn decided(alloc: Global, made: &Made, decision: Option<Decision>) -> Result<Vec<Foreseen>, Memory>
    requires range { IsMade made.now }
    requires may { IfSome decision (MayDo (journal_of made.now)) }
    ensures outcomes { IfOk result (λ list. map outcome_of list.items ≡ by_decision (history_of made.now) decision) }
    ensures range { IfOk result (λ list. AreForetold list.items) }
{
    match decision {
        None => listed(alloc, &[foresee(None, Standing::Made(*made))]),
        Some(Decision::Answers(reply)) => listed(
            alloc,
            &[foresee(Some(reply), Standing::Made(*made))],
        ),
        Some(Decision::Adds(entry)) => adding(alloc, made, entry),
        Some(Decision::Raises) => raising(alloc, made),
    }
}

// A device that was made, and is on.
fn made_outcomes<M: Mixer>(
    alloc: Global,
    made: &Made,
    pad: Pad,
    event: Event,
) -> Result<Vec<Foreseen>, Memory>
    requires range { IsMade made.now }
    requires event { IsEvent event }
    ensures outcomes { (keys : Keys) → pad ≡ kept_of keys →
        IfOk result (λ list. map outcome_of list.items ≡
        outcomes_of M.next (JournalOf (history_of made.now)) keys event) }
    ensures range { IfOk result (λ list. AreForetold list.items) }
{
    let journal = made.journal();
    let mut pad = pad;
    let decision = decide::<M>(&journal, &mut pad, event);
    decided(alloc, made, decision)
}

// What a device that is on may answer to an event but `Power`, and what its flash stands for then, in the order of the
// specification.
pub(crate) fn outcomes<M: Mixer>(
    alloc: Global,
    standing: &Standing,
    pad: Pad,
    event: Event,
) -> Result<Vec<Foreseen>, Memory>
    requires range { IsStanding standing.now }
    requires event { IsEvent event }
    ensures outcomes { (keys : Keys) → pad ≡ kept_of keys →
        IfOk result (λ list. map outcome_of list.items ≡ outcomes_of M.next (stored_of standing.now) keys event) }
    ensures range { IfOk result (λ list. AreForetold list.items) }
{
    match standing {
        Standing::Blank => match event {
            Event::Make(config) => making(alloc, &config),
            _ => listed(
                alloc,
                &[foresee(only(event, Reply::Unmade), Standing::Blank)],
            ),
        },
        Standing::Made(made) => made_outcomes::<M>(alloc, made, pad, event),
    }
}

// The reply when the power comes.
fn powered(standing: &Standing) -> Reply
    ensures { result ≡ reply_to_power (stored_of standing.now) }
{
    match standing {
        Standing::Blank => Reply::Unmade,
        Standing::Made(made) => {
            let (count, _) = made.summary.window.parts();
            Reply::Up {
                count,
                left: made.summary.clock.left(),
                free: made.summary.clock.free(),
                block: made.summary.clock.block(),
            }
        }
    }
}

// What may be answered when the power comes.
fn powering(alloc: Global, standing: &Standing) -> Result<Vec<Foreseen>, Memory>
    requires { IsStanding standing.now }
    ensures outcomes { IfOk result (λ list. map outcome_of list.items ≡ powering_of (stored_of standing.now)) }
    ensures range { IfOk result (λ list. AreForetold list.items) }
{
    let up = foresee(Some(powered(standing)), *standing);
    let down = foresee(Some(Reply::Down), *standing);
    listed(alloc, &[up, down])
}

/// What a device that is on may answer to an event, or one that is off to `Power`, and what its flash stands for then:
/// at most five pairs, the one without a power cut first. It takes memory.
///
/// The caller sees to it that what the flash stands for is in range, and that the event may be asked for.
///
/// # Errors
///
/// `Memory` where there is none.
pub fn foretell<M: Mixer>(
    alloc: Global,
    standing: &Standing,
    pad: Pad,
    event: Event,
) -> Result<Vec<Foreseen>, Memory>
    requires range { IsStanding standing.now }
    requires event { IsEvent event }
    ensures power { event ≡ Event.Power →
        IfOk result (λ list. map outcome_of list.items ≡ powering_of (stored_of standing.now)) }
    ensures other { (keys : Keys) → pad ≡ kept_of keys → event ≢ Event.Power →
        IfOk result (λ list. map outcome_of list.items ≡ outcomes_of M.next (stored_of standing.now) keys event) }
    ensures range { IfOk result (λ list. AreForetold list.items) }
{
    match event {
        Event::Power => powering(alloc, standing),
        _ => outcomes::<M>(alloc, standing, pad, event),
    }
}

/// Whether this text is that of the reply.
pub fn says(reply: &Option<Reply>, text: &[u8]) -> bool
    ensures { result ≡ says_of text.now reply.now }
{
    match reply {
        Some(reply) => line(reply).as_bytes() == text,
        None => false,
    }
}
