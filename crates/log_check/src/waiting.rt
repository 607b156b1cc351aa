// The steps of a line that wait for their answers.
ghost use Rattle.std.specs.Prelude.{◌≡◌, ◌≤◌, ℕ, true, length, drop, List, [], ◌∷◌, ◌++◌, IfOk};
ghost use Rattle.paygo_spec.specs.Machine.{IsEvent, State};
ghost use Rattle.ledger_spec.specs.Tables.{Tables};
ghost use Rattle.run_spec.specs.DeviceLines.{are_key_text, is_key_text, presses};
ghost use Rattle.run_spec.specs.Meaning.{steps_of_line, steps_of_ledger, steps_of_device};
ghost use Rattle.run_spec.specs.Run.{Act};
ghost use Rattle.log_check.specs.Kept.{AreStates};
ghost use Rattle.log_check.specs.Waiting.{AreEvents, IsWaiting, IsFirst, acts_from, some_wait, steps_of, SettledTo};

use crate::states::States;
use bench_run::{Request, request_in, trimmed};
use ledger_spec::{Command, TextFault};
use ledger_text::read;
use paygo_spec::{Event, Memory};
use run_spec::Mode;
use std::alloc::Global;

/// What waits for an answer.
#[derive(Drop)]
pub(crate) enum Waiting {
    /// A line of a device that has no form of one.
    Unread,
    /// A line of the ledger that has no command.
    Fault(TextFault),
    /// A command.
    Command(Command),
    /// These events, from this place on.
    Events { events: Vec<Event>, at: usize },
}

/// The first step that waits.
#[derive(Clone, Copy)]
pub(crate) enum First {
    /// None waits.
    Nothing,
    /// A line of a device that has no form of one.
    Unread,
    /// A line of the ledger that has no command.
    Fault(TextFault),
    /// A command.
    Command(Command),
    /// An event.
    Event(Event),
}

/// Nothing waits.
pub(crate) fn nothing(alloc: Global) -> Waiting
    ensures steps { steps_of result ≡ [] }
    ensures range { IsWaiting result }
{
    Waiting::Events {
        events: Vec::new(alloc),
        at: 0,
    }
}

// One key more, unless it is a space.
fn press(events: &mut Vec<Event>, key: u8) -> Result<(), Memory>
    requires { is_key_text key ≡ true }
    ensures events { IfOk result (λ _. events.new.items ≡ events.old.items ++ presses (key ∷ [])) }
    ensures range { AreEvents events.old.items → AreEvents events.new.items }
{
    if key == b' ' {
        return Ok(());
    }
    match events.push(Event::Key(key)) {
        Ok(()) => Ok(()),
        Err(_) => Err(Memory),
    }
}

// The keys of a text.
fn keys_in(alloc: Global, text: &[u8]) -> Result<Vec<Event>, Memory>
    requires { are_key_text text.now ≡ true }
    ensures events { IfOk result (λ list. list.items ≡ presses text.now) }
    ensures range { IfOk result (λ list. AreEvents list.items) }
{
    let mut events = Vec::new(alloc);
    for key in text {
        press(&mut events, *key)?;
    }
    Ok(events)
}

// One event waits.
fn one(alloc: Global, event: Event) -> Result<Waiting, Memory>
    requires { IsEvent event }
    ensures steps { IfOk result (λ waiting. steps_of waiting ≡ Act event ∷ []) }
    ensures range { IfOk result IsWaiting }
{
    match Vec::from_slice(alloc, &[event]) {
        Ok(events) => Ok(Waiting::Events { events, at: 0 }),
        Err(_) => Err(Memory),
    }
}

// The steps of a line of a device.
fn of_device(alloc: Global, text: &[u8]) -> Result<Waiting, Memory>
    ensures steps { IfOk result (λ waiting. steps_of waiting ≡ steps_of_device Mode.Both text.now) }
    ensures range { IfOk result IsWaiting }
{
    match request_in(text) {
        Some(Request::One(event)) => one(alloc, event),
        Some(Request::Keys(keys)) => {
            let events = keys_in(alloc, keys)?;
            Ok(Waiting::Events { events, at: 0 })
        }
        None => Ok(Waiting::Unread),
    }
}

// The step of a line of the ledger.
fn of_ledger(alloc: Global, text: &[u8]) -> Result<Waiting, Memory>
    ensures steps { IfOk result (λ waiting. steps_of waiting ≡ steps_of_ledger Mode.Both text.now) }
    ensures range { IfOk result IsWaiting }
{
    match read(alloc, text) {
        Ok(command) => Ok(Waiting::Command(command)),
        Err(TextFault::Memory) => Err(Memory),
        Err(fault) => Ok(Waiting::Fault(fault)),
    }
}

/// The steps of a line of at most 4,096 bytes. It takes memory.
pub(crate) fn waiting_of(alloc: Global, line: &[u8]) -> Result<Waiting, Memory>
    requires { length line.now ≤ 4096 }
    ensures steps { IfOk result (λ waiting. steps_of waiting ≡ steps_of_line Mode.Both line.now) }
    ensures range { IfOk result IsWaiting }
{
    let text = trimmed(line);
    if text.is_empty() {
        return Ok(nothing(alloc));
    }
    if text[0] == b'{' {
        return of_ledger(alloc, text);
    }
    of_device(alloc, text)
}

// The place of the first event, from this one on, that is answered. Those before it happen.
fn settled_at(events: &[Event], from: usize, states: &mut States) -> usize
    requires { AreEvents events.now }
    ensures { (next : List ℕ → ℕ → ℕ) (tables : Tables) (old : List State) → AreStates states.old old →
        SettledTo next tables old (acts_from from events.now) states.new (acts_from result events.now) }
{
    let mut at = from;
    while at < events.len() {
        let event = events[at];
        if !states.is_silent(event) {
            return at;
        }
        states.pass(event);
        at += 1;
    }
    at
}

/// The first events that have no answer happen at once.
pub(crate) fn settle(waiting: Waiting, states: &mut States) -> Waiting
    requires { IsWaiting waiting }
    ensures range { IsWaiting result }
    ensures settled { (next : List ℕ → ℕ → ℕ) (tables : Tables) (old : List State) → AreStates states.old old →
        SettledTo next tables old (steps_of waiting) states.new (steps_of result) }
{
    match waiting {
        Waiting::Events { events, at } => {
            let at = settled_at(&events, at, states);
            Waiting::Events { events, at }
        }
        Waiting::Unread => Waiting::Unread,
        Waiting::Fault(fault) => Waiting::Fault(fault),
        Waiting::Command(command) => Waiting::Command(command),
    }
}

/// The first step that waits.
pub(crate) fn first_of(waiting: &Waiting) -> First
    requires { IsWaiting waiting.now }
    ensures { IsFirst result (steps_of waiting.now) }
{
    match waiting {
        Waiting::Unread => First::Unread,
        Waiting::Fault(fault) => First::Fault(*fault),
        Waiting::Command(command) => First::Command(*command),
        Waiting::Events { events, at } => first_event(events, *at),
    }
}

// The event at this place, if there is one.
fn first_event(events: &[Event], at: usize) -> First
    requires { AreEvents events.now }
    ensures { IsFirst result (acts_from at events.now) }
{
    if at < events.len() {
        First::Event(events[at])
    } else {
        First::Nothing
    }
}

/// What waits behind the first step.
pub(crate) fn behind_first(alloc: Global, waiting: Waiting) -> Waiting
    requires { IsWaiting waiting }
    ensures range { IsWaiting result }
    ensures steps { steps_of result ≡ drop 1 (steps_of waiting) }
{
    match waiting {
        Waiting::Events { events, at } => {
            if at < events.len() {
                Waiting::Events { events, at: at + 1 }
            } else {
                nothing(alloc)
            }
        }
        _ => nothing(alloc),
    }
}

/// Whether a step waits.
pub(crate) fn is_waiting(waiting: &Waiting) -> bool
    ensures { result ≡ some_wait (steps_of waiting.now) }
{
    match waiting {
        Waiting::Events { events, at } => *at < events.len(),
        _ => true,
    }
}
