// The lines of the ledger's answers.
ghost use Rattle.std.specs.Prelude.{◌≡◌, ◌+◌, ◌≤◌, ◌<◌, ◌^◌, ◌++◌, [], ◌∷◌, false, length, take, drop, codes};
ghost use Rattle.ledger_spec.specs.Ledger.{AnswerIsInRange};
ghost use Rattle.ledger_spec.specs.AnswerText.{number, with_members, order_members, row_members, change_members, quote_members, refused_text, text_of_answer, text_of_fault};
ghost use Rattle.ledger_text.specs.Refusals.{is_refusal};

use crate::orders::{push_order, push_quote};
use crate::pieces::{done, push_number, refused};
use crate::rows::{push_change, push_row};
use ledger_spec::{Answer, Order, PriceChange, Quote, Row, TextFault};
use line_text::Line;
use paygo_spec::Form;

// The line with an order behind its beginning.
fn with_order(beginning: Line, order: &Order, form: Form) -> Line
    requires { length beginning ≤ 60 }
    ensures text { result ≡ with_members beginning (order_members order.now form) ++ codes "}" }
    ensures len { length result ≤ 511 }
{
    let mut line = beginning;
    push_order(&mut line, order, form);
    line.push(b"}");
    line
}

// The line with a row behind its beginning.
fn with_row(beginning: Line, row: &Row) -> Line
    requires { length beginning ≤ 60 }
    ensures text { result ≡ with_members beginning (row_members row.now) ++ codes "}" }
    ensures len { length result ≤ 511 }
{
    let mut line = beginning;
    push_row(&mut line, row);
    line.push(b"}");
    line
}

// The line with a change of a price behind its beginning.
fn with_change(beginning: Line, change: &PriceChange) -> Line
    requires { length beginning ≤ 60 }
    ensures text { result ≡ with_members beginning (change_members change.now) ++ codes "}" }
    ensures len { length result ≤ 511 }
{
    let mut line = beginning;
    push_change(&mut line, change);
    line.push(b"}");
    line
}

// The line with a quote behind its beginning.
fn with_quote(beginning: Line, quote: &Quote) -> Line
    requires { length beginning ≤ 60 }
    ensures text { result ≡ with_members beginning (quote_members quote.now) ++ codes "}" }
    ensures len { length result ≤ 511 }
{
    let mut line = beginning;
    push_quote(&mut line, quote);
    line.push(b"}");
    line
}

// A refusal that tells nothing more.
fn bare(refusal: u64, why: &[u8]) -> Line
    requires { length why.now ≤ 12 }
    ensures text { result ≡ refused_text refusal why.now [] }
    ensures len { length result ≤ 511 }
{
    let mut line = refused(refusal, why);
    line.push(b"}");
    line
}

/// The line of a refusal that tells a number: the number of the refusal, why, and the name of the number and itself. It has no
/// end of a line.
pub fn numbered(refusal: u64, why: &[u8], name: &[u8], n: u64) -> Line
    requires short { (length why.now ≤ 12) × (length name.now ≤ 10) }
    ensures text { result ≡ refused_text refusal why.now (number name.now n ∷ []) }
    ensures len { length result ≤ 511 }
{
    let mut line = refused(refusal, why);
    push_number(&mut line, name, n);
    line.push(b"}");
    line
}

// Too small a payment: the money at hand, and the price of one unit.
#[tactic(auto, unfolding(ledger_spec::specs::AnswerText::text_of_answer))]
fn small(have: u64, price: u64) -> Line
    ensures text { result ≡ text_of_answer (Answer.Small have price) }
    ensures len { length result ≤ 511 }
{
    let mut line = refused(5, b"small");
    push_number(&mut line, b"have", have);
    push_number(&mut line, b"price", price);
    line.push(b"}");
    line
}

// The line of a refusal. The last of them is `NoOrder`.
#[tactic(auto, unfolding(ledger_spec::specs::AnswerText::text_of_answer))]
fn refusal_line(answer: &Answer) -> Line
    requires { is_refusal answer.now }
    ensures text { result ≡ text_of_answer answer.now }
    ensures len { length result ≤ 511 }
{
    match answer {
        Answer::NoDevice => bare(1, b"no device"),
        Answer::IdUsed(order, form) => with_order(refused(2, b"id used"), order, *form),
        Answer::SerialUsed(row) => with_row(refused(3, b"serial used"), row),
        Answer::Closed { paid } => numbered(4, b"closed", b"paid", *paid),
        Answer::Small { have, price } => small(*have, *price),
        Answer::Large { units } => numbered(6, b"large", b"units", *units),
        Answer::NoCount { last } => numbered(7, b"no count", b"last", u64::from(*last)),
        Answer::PriceUsed { price } => numbered(11, b"price used", b"price", *price),
        Answer::Stale { last } => numbered(12, b"stale", b"last", u64::from(*last)),
        Answer::Beyond { limit } => numbered(13, b"beyond", b"limit", u64::from(*limit)),
        _ => bare(8, b"no order"),
    }
}

/// The line of an answer, without the end of the line, for which there is room: it has at most 511 bytes, whatever the answer
/// holds.
///
/// An order's token stands in the digits that the device's customer types. A device's key isn't written.
#[tactic(auto, unfolding(ledger_spec::specs::AnswerText::text_of_answer))]
pub fn answer_line(answer: &Answer) -> Line
    ensures text { result ≡ text_of_answer answer.now }
    ensures len { length result ≤ 511 }
{
    match answer {
        Answer::Order(order, form) => with_order(done(b"order"), order, *form),
        Answer::Row(row) => with_row(done(b"row"), row),
        Answer::Price(change) => with_change(done(b"price"), change),
        Answer::Quote(quote) => with_quote(done(b"quote"), quote),
        _ => refusal_line(answer),
    }
}

/// The line of the refusal of a line that has no command, without the end of the line. Want of memory has an empty one,
/// which is never written.
#[tactic(auto, unfolding(ledger_spec::specs::AnswerText::text_of_fault))]
pub fn fault_line(fault: &TextFault) -> Line
    ensures text { result ≡ text_of_fault fault.now }
    ensures len { length result ≤ 511 }
{
    match *fault {
        TextFault::Json => bare(9, b"json"),
        TextFault::Shape { rule } => numbered(10, b"shape", b"rule", u64::from(rule)),
        TextFault::Memory => Line::new(),
    }
}

/// Writes the text of an answer into the front of `out`, whose rest stays as it was, and answers its length.
pub fn write(answer: &Answer, out: &mut [u8; 512]) -> usize
    ensures text { take result out.new ≡ text_of_answer answer.now }
    ensures len { result ≡ length (text_of_answer answer.now) }
    ensures rest { drop result out.new ≡ drop result out.old }
{
    answer_line(answer).copy_to(out)
}
