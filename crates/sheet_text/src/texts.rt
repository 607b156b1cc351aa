// The lines of the answers, without the end of a line.
ghost use Rattle.std.specs.Prelude.{◌≡◌, ◌+◌, ◌≤◌, length};
ghost use Rattle.paygo_spec.specs.Text.{with_number};
ghost use Rattle.sheet_text.specs.Texts.{sold_text, sales_text};

use ledger_spec::Name;
use ledger_text::pieces::{done, push_number, push_text};
use line_text::Line;

/// The line of the report that is kept of a place: the sheet, the place, and the sale with its money. It has no end of
/// a line, for which there is room.
pub fn sold_line(sheet: &Name, place: u8, sale: &Name, money: u64) -> Line
    ensures text { result ≡ sold_text sheet.now place sale.now money }
    ensures len { length result ≤ 511 }
{
    let mut line = done(b"sold");
    push_text(&mut line, b"sheet", sheet.bytes());
    push_number(&mut line, b"place", u64::from(place));
    push_text(&mut line, b"sale", sale.bytes());
    push_number(&mut line, b"money", money);
    line.push(b"}");
    line
}

// Puts a space and a sum in decimal digits at the end: at most 40 bytes.
fn push_sum(line: &mut Line, sum: u128)
    requires { length line.old + 40 ≤ 512 }
    ensures text { line.new ≡ with_number line.old sum }
    ensures len { length line.new ≤ length line.old + 40 }
{
    let mut buffer = itoa::Buffer::new();
    let digits = buffer.format(sum).as_bytes();
    line.push(b" ");
    line.push(digits);
}

/// The last line: how many tokens were sold, the sum of the money that was taken for them in smallest coins, and of how
/// many places two reports differ. It has no end of a line, for which there is room.
pub fn sales_line(tokens: u64, money: u128, disputes: u64) -> Line
    ensures text { result ≡ sales_text tokens money disputes }
    ensures len { length result ≤ 511 }
{
    let mut line = Line::new();
    line.push(b"sales");
    line.push_number(tokens);
    push_sum(&mut line, money);
    line.push_number(disputes);
    line
}
