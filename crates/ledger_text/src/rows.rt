// What is told of a row, and of a change of a price.
ghost use Rattle.std.specs.Prelude.{◌≡◌, ◌+◌, ◌≤◌, length};
ghost use Rattle.ledger_spec.specs.AnswerText.{with_members, limit_members, row_members, change_members};

use crate::pieces::{push_number, push_text, push_truth};
use ledger_spec::{PriceChange, Row};
use line_text::Line;
use paygo_spec::GREAT;

// Puts the limit at the end where it was raised.
fn push_limit(line: &mut Line, limit: u16)
    requires { length line.old + 34 ≤ 511 }
    ensures text { line.new ≡ with_members line.old (limit_members limit) }
    ensures len { length line.new ≤ length line.old + 34 }
{
    if limit == GREAT {
        push_number(line, b"limit", u64::from(GREAT));
    }
}

// Puts the members of a row at the end. The key isn't one of them.
pub(crate) fn push_row(line: &mut Line, row: &Row)
    requires { length line.old ≤ 60 }
    ensures text { line.new ≡ with_members line.old (row_members row.now) }
    ensures len { length line.new ≤ 433 }
{
    push_text(line, b"serial", row.serial.bytes());
    push_number(line, b"start", u64::from(row.start));
    push_number(line, b"divider", u64::from(row.divider));
    push_number(line, b"form", row.form.length() as u64);
    push_number(line, b"price", row.price);
    push_number(line, b"total", row.total);
    push_number(line, b"paid", row.paid);
    push_number(line, b"rest", row.rest);
    push_number(line, b"last", u64::from(row.last));
    push_truth(line, b"closed", row.closed);
    push_limit(line, row.limit);
}

// Puts the members of a change of a price at the end.
pub(crate) fn push_change(line: &mut Line, change: &PriceChange)
    requires { length line.old ≤ 60 }
    ensures text { line.new ≡ with_members line.old (change_members change.now) }
    ensures len { length line.new ≤ 176 }
{
    push_text(line, b"serial", change.serial.bytes());
    push_number(line, b"from", u64::from(change.from));
    push_number(line, b"price", change.price);
}
