// What a device that was made does at an event.
ghost use Rattle.std.specs.Prelude.{◌≡◌, true, IfSome};
ghost use Rattle.paygo_spec.specs.Machine.{IsEvent};
ghost use Rattle.paygo_spec.specs.Recovery.{Made, recover};
ghost use Rattle.device_core.specs.Decided.{MayDo};
ghost use Rattle.device_core.specs.Changes.{AddsAs, Asked, Carried, RaisesAs};

use crate::decision::{Decision, decide};
use crate::replies::reply_to;
use bank_journal::{Journal, JournalFault};
use keypad_entry::Pad;
use paygo_ports::Flash;
use paygo_spec::{Entry, Event, Reply};
use token_chain::Mixer;

// An event but `Power`: what it comes to is decided first, and then carried out.
pub(crate) fn ask_made<M: Mixer, F: Flash>(
    journal: &mut Journal,
    pad: &mut Pad,
    flash: &mut F,
    event: Event,
) -> Option<Reply>
    requires event { IsEvent event }
    requires up { (F.view flash.old).up ≡ true }
    requires holds { IfSome (F.view flash.old).words (λ words. recover words ≡ Made journal.old) }
    ensures { Asked M.next event journal.old pad.old (F.view flash.old) result journal.new pad.new (F.view flash.new) }
{
    match decide::<M>(journal, pad, event) {
        Some(decision) => Some(carry_out(journal, flash, decision)),
        None => None,
    }
}

// Carries a decision out.
fn carry_out<F: Flash>(journal: &mut Journal, flash: &mut F, decision: Decision) -> Reply
    requires up { (F.view flash.old).up ≡ true }
    requires holds { IfSome (F.view flash.old).words (λ words. recover words ≡ Made journal.old) }
    requires may { MayDo journal.old decision }
    ensures { Carried decision journal.old (F.view flash.old) result journal.new (F.view flash.new) }
{
    match decision {
        Decision::Answers(reply) => reply,
        Decision::Adds(entry) => add(journal, flash, entry),
        Decision::Raises => raise(journal, flash),
    }
}

// Adds an entry to the history. It is accepted only once its word stands on the flash.
fn add<F: Flash>(journal: &mut Journal, flash: &mut F, entry: Entry) -> Reply
    requires up { (F.view flash.old).up ≡ true }
    requires holds { IfSome (F.view flash.old).words (λ words. recover words ≡ Made journal.old) }
    requires may { MayDo journal.old (Decision.Adds entry) }
    ensures { AddsAs entry journal.old (F.view flash.old) result journal.new (F.view flash.new) }
{
    match journal.append(flash, entry) {
        Ok(()) => reply_to(entry, &journal.summary().clock),
        Err(JournalFault::Worn) => Reply::Worn,
        Err(_) => Reply::Down,
    }
}

// Raises the device. It is raised only once the header of the next bank stands on the flash.
fn raise<F: Flash>(journal: &mut Journal, flash: &mut F) -> Reply
    requires up { (F.view flash.old).up ≡ true }
    requires holds { IfSome (F.view flash.old).words (λ words. recover words ≡ Made journal.old) }
    requires may { MayDo journal.old Decision.Raises }
    ensures { RaisesAs journal.old (F.view flash.old) result journal.new (F.view flash.new) }
{
    match journal.raise(flash) {
        Ok(()) => Reply::Raised,
        Err(JournalFault::Worn) => Reply::Worn,
        Err(_) => Reply::Down,
    }
}
