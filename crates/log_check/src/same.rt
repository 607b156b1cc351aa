// Whether two standings are one, and a list in which each is kept once.
ghost use Rattle.std.specs.Prelude.{◌≡◌, IfOk};
ghost use Rattle.std.specs.List.{list_any};
ghost use Rattle.paygo_spec.specs.Machine.{Journal as JournalOf};
ghost use Rattle.bank_journal.specs.Summary.{summary_of};
ghost use Rattle.ledger_spec.specs.Ledger.{same_form};
ghost use Rattle.log_check.specs.Same.{same_config, same_summary, same_stored};
ghost use Rattle.log_check.specs.Standing.{history_of, stored_of, IsStanding};
ghost use Rattle.log_check.specs.Keeping.{AreStandings, storeds_of, put_stored};

use crate::standing::{Made, Standing};
use bank_journal::Summary;
use paygo_spec::{Config, Form, Memory};

// Whether two forms are one.
fn is_same_form(a: Form, b: Form) -> bool
    ensures { result ≡ same_form a b }
{
    match (a, b) {
        (Form::Nine, Form::Nine) => true,
        (Form::Fifteen, Form::Fifteen) => true,
        _ => false,
    }
}

// Whether two configurations are one.
fn is_same_config(a: &Config, b: &Config) -> bool
    ensures { result ≡ same_config a.now b.now }
{
    a.key == b.key && a.start == b.start && a.divider == b.divider && is_same_form(a.form, b.form)
}

// Whether two summaries are one.
fn is_same_summary(a: &Summary, b: &Summary) -> bool
    ensures { result ≡ same_summary (summary_of a.now) (summary_of b.now) }
{
    let (last, bits) = a.window.parts();
    let (other_last, other_bits) = b.window.parts();
    a.window.limit() == b.window.limit()
        && last == other_last
        && bits == other_bits
        && a.clock.left() == b.clock.left()
        && a.clock.free() == b.clock.free()
        && a.clock.fails() == b.clock.fails()
        && a.clock.block() == b.clock.block()
}

// Whether two devices that were made stand alike.
fn is_same_made(a: &Made, b: &Made) -> bool
    ensures { result ≡ same_stored (JournalOf (history_of a.now)) (JournalOf (history_of b.now)) }
{
    is_same_config(&a.config, &b.config)
        && is_same_summary(&a.summary, &b.summary)
        && a.number == b.number
        && a.place == b.place
}

// Whether two flashes stand for the same.
fn is_same(a: &Standing, b: &Standing) -> bool
    ensures { result ≡ same_stored (stored_of a.now) (stored_of b.now) }
{
    match (a, b) {
        (Standing::Blank, Standing::Blank) => true,
        (Standing::Made(a), Standing::Made(b)) => is_same_made(a, b),
        _ => false,
    }
}

// Whether this one is among these.
fn is_among(standings: &[Standing], standing: &Standing) -> bool
    ensures { result ≡
        list_any (λ other. same_stored (stored_of standing.now) (stored_of other)) standings.now }
{
    standings.iter().any(|other| is_same(standing, other))
}

/// One more, unless it is among them.
pub(crate) fn put(standings: &mut Vec<Standing>, standing: &Standing) -> Result<(), Memory>
    ensures puts { IfOk result (λ _.
        storeds_of standings.new.items ≡ put_stored (storeds_of standings.old.items) (stored_of standing.now)) }
    ensures range { AreStandings standings.old.items → IsStanding standing.now → AreStandings standings.new.items }
{
    if is_among(standings, standing) {
        return Ok(());
    }
    match standings.push(*standing) {
        Ok(()) => Ok(()),
        Err(_) => Err(Memory),
    }
}
