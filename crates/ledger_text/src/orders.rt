// What is told of an order, and of a quote.
ghost use Rattle.std.specs.Prelude.{◌≡◌, ◌+◌, ◌≤◌, ◌<◌, ◌^◌, length, codes};
ghost use Rattle.ledger_spec.specs.AnswerText.{text, with_member, with_members, kind_name, number_asked, order_members, quote_members};
ghost use Rattle.paygo_spec.specs.Digits.{digits_of};

use crate::pieces::{push_number, push_text, push_truth};
use ledger_spec::{Ask, Kind, Order, Quote};
use line_text::Line;
use paygo_spec::Form;

/// The word of a kind: `add`, `set`, `disable` or `sync`.
pub fn kind_word(kind: Kind) -> &'static [u8]
    ensures word { result.now ≡ kind_name kind }
    ensures len { length result.now ≤ 10 }
{
    match kind {
        Kind::Add => b"add",
        Kind::Set => b"set",
        Kind::Disable => b"disable",
        Kind::Sync => b"sync",
    }
}

// The number that was asked.
fn asked(ask: Ask) -> u64
    ensures { result ≡ number_asked ask }
{
    match ask {
        Ask::Pay(amount) => amount,
        Ask::Set(units) => u64::from(units),
        Ask::Disable | Ask::Sync => 0,
    }
}

// Puts the token in the digits that the customer types at the end.
fn push_token(line: &mut Line, form: Form, token: u32)
    requires { length line.old + 48 ≤ 511 }
    ensures text { line.new ≡ with_member line.old (text (codes "token") (digits_of form token)) }
    ensures len { length line.new ≤ length line.old + 48 }
{
    let mut digits = [0; 15];
    let count = digit_set::write(form, token, &mut digits);
    push_text(line, b"token", &digits[..count]);
}

// Puts the members of an order at the end.
pub(crate) fn push_order(line: &mut Line, order: &Order, form: Form)
    requires { length line.old ≤ 60 }
    ensures text { line.new ≡ with_members line.old (order_members order.now form) }
    ensures len { length line.new ≤ 354 }
{
    push_text(line, b"id", order.id.bytes());
    push_text(line, b"serial", order.serial.bytes());
    push_text(line, b"kind", kind_word(order.kind));
    push_number(line, b"asked", asked(order.ask));
    push_number(line, b"count", u64::from(order.count));
    push_number(line, b"value", u64::from(order.value));
    push_token(line, form, order.token);
}

// Puts the members of a quote at the end.
pub(crate) fn push_quote(line: &mut Line, quote: &Quote)
    requires { length line.old ≤ 60 }
    ensures text { line.new ≡ with_members line.old (quote_members quote.now) }
    ensures len { length line.new ≤ 433 }
{
    push_text(line, b"serial", quote.serial.bytes());
    push_text(line, b"kind", kind_word(quote.kind));
    push_number(line, b"count", u64::from(quote.count));
    push_number(line, b"value", u64::from(quote.value));
    push_number(line, b"rest", quote.rest);
    push_truth(line, b"near", quote.near);
}
