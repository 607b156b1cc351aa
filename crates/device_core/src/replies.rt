// The replies of a device that was made, by what its journal says.
ghost use Rattle.std.specs.Prelude.{◌≡◌, ◌≢◌};
ghost use Rattle.paygo_spec.specs.History.{kind_of};
ghost use Rattle.paygo_spec.specs.Machine.{reply_to_entry, reply_to_token, shown as shown_of, shows_same};
ghost use Rattle.paygo_spec.specs.Pad.{Keys, held_of};
ghost use Rattle.device_core.specs.Decided.{history_from};

use bank_journal::Journal;
use paid_clock::Clock;
use paygo_spec::{Entry, Reply, TokenKind};

// Whether two clocks show the same time left and block.
pub(crate) fn show_same(now: &Clock, before: &Clock) -> bool
    ensures { result ≡ shows_same now.now before.now }
{
    now.left() == before.left() && now.block() == before.block()
}

// The reply to seconds that passed, by the clock after them.
pub(crate) fn reply_to_time(clock: &Clock) -> Reply
    ensures { result ≡ Reply.Ticked clock.now.left clock.now.free clock.now.block }
{
    Reply::Ticked {
        left: clock.left(),
        free: clock.free(),
        block: clock.block(),
    }
}

// The reply to an accepted token of this count and value, by the clock after it.
fn reply_to_accepted(count: u16, value: u16, clock: &Clock) -> Reply
    ensures { result ≡ reply_to_token (kind_of count value) count value clock.now }
{
    match TokenKind::of(count, value) {
        Some(TokenKind::Add) => Reply::Added {
            count,
            value,
            left: clock.left(),
            free: clock.free(),
        },
        Some(TokenKind::Set) => Reply::Set {
            count,
            value,
            left: clock.left(),
        },
        Some(TokenKind::Free) => Reply::Free { count },
        Some(TokenKind::Sync) | None => Reply::Synced { count },
    }
}

/// The reply to an entry that was added to the history, by the clock after it.
pub fn reply_to(entry: Entry, clock: &Clock) -> Reply
    ensures { result ≡ reply_to_entry entry clock.now }
{
    match entry {
        Entry::Accept { count, value } => reply_to_accepted(count, value, clock),
        Entry::Bad => Reply::Invalid {
            block: clock.block(),
        },
        Entry::Elapsed { .. } => reply_to_time(clock),
        Entry::Raised => Reply::Raised,
    }
}

// What the device shows, with so many digits on its pad.
pub(crate) fn shown(journal: &Journal, held: u8) -> Reply
    ensures says { (keys : Keys) → held ≡ held_of keys → result ≡ shown_of (history_from journal.now) keys }
    ensures fair { result ≢ Reply.Down }
{
    let summary = journal.summary();
    let (count, _) = summary.window.parts();
    Reply::Shown {
        count,
        left: summary.clock.left(),
        free: summary.clock.free(),
        fails: summary.clock.fails(),
        block: summary.clock.block(),
        held,
        room: journal.room(),
    }
}
