// What was found, in words.
ghost use Rattle.std.specs.Prelude.{◌≡◌, ◌≤◌, ◌++◌, length, codes};
ghost use Rattle.table_flaws.specs.FlawText.{flaw_text as words_of_flaw, twins_text as words_of_twins, numbers_text as words_of_numbers};

use crate::findings::{Findings, Twins};
use crate::flaw::Flaw;
use ledger_spec::Name;
use line_text::Line;

// A word or two, and a name.
fn worded(words: &[u8], name: &Name) -> Line
    requires { length words.now ≤ 32 }
    ensures text { result ≡ words.now ++ name.now }
    ensures size { length result ≤ 64 }
{
    let mut line = Line::new();
    line.push(words);
    line.push(name.bytes());
    line
}

/// The line of a flaw, without its end: `flaw`, what is wrong, and the id of the order or the serial of the device.
pub fn flaw_text(flaw: &Flaw) -> Line
    ensures text { result ≡ words_of_flaw flaw.now }
    ensures size { length result ≤ 511 }
{
    match flaw {
        Flaw::Count(id) => worded(b"flaw count ", id),
        Flaw::Parity(id) => worded(b"flaw parity ", id),
        Flaw::Token(id) => worded(b"flaw token ", id),
        Flaw::Shared(id) => worded(b"flaw shared ", id),
        Flaw::Booked(id) => worded(b"flaw booked ", id),
        Flaw::Price(serial) => worded(b"flaw price ", serial),
        Flaw::Account(serial) => worded(b"flaw account ", serial),
    }
}

/// The line of two devices that take each other's tokens, without its end: `twins`, and their serials.
pub fn twins_text(twins: &Twins) -> Line
    ensures text { result ≡ words_of_twins twins.now }
    ensures size { length result ≤ 511 }
{
    let mut line = worded(b"twins ", &twins.first);
    line.push(b" ");
    line.push(twins.second.bytes());
    line
}

/// The last line, without its end: `sound`, and how many devices there are, how many orders, how many flaws, and how
/// many pairs of devices that take each other's tokens.
pub fn numbers_text(findings: &Findings) -> Line
    ensures text { result ≡ words_of_numbers findings.now.rows findings.now.orders (length findings.now.flaws.items)
        (length findings.now.twins.items) }
    ensures size { length result ≤ 511 }
{
    let mut line = Line::new();
    line.push(b"sound");
    line.push_number(findings.rows);
    line.push_number(findings.orders);
    line.push_number(findings.flaws.len() as u64);
    line.push_number(findings.twins.len() as u64);
    line
}
