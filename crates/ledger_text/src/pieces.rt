// The pieces of an answer: its beginning, and one member of each kind.
ghost use Rattle.std.specs.Prelude.{◌≡◌, ◌+◌, ◌≤◌, ◌++◌, length, codes};
ghost use Rattle.std.specs.Fmt.{decimal};
ghost use Rattle.ledger_spec.specs.AnswerText.{number, text, truth, with_name, with_member};

use line_text::Line;

// Puts a number in decimal digits at the end.
fn push_digits(line: &mut Line, n: u64)
    requires { length line.old + 20 ≤ 511 }
    ensures text { line.new ≡ line.old ++ decimal n }
    ensures len { length line.new ≤ length line.old + 20 }
{
    let mut buffer = itoa::Buffer::new();
    let digits = buffer.format(n).as_bytes();
    line.push(digits);
}

// Puts a comma and the name of a member at the end.
fn push_name(line: &mut Line, name: &[u8])
    requires short { length name.now ≤ 10 }
    requires room { length line.old + 14 ≤ 511 }
    ensures text { line.new ≡ with_name line.old name.now }
    ensures len { length line.new ≤ length line.old + 14 }
{
    line.push(b",\"");
    line.push(name);
    line.push(b"\":");
}

/// Puts a member with a number at the end.
pub fn push_number(line: &mut Line, name: &[u8], n: u64)
    requires short { length name.now ≤ 10 }
    requires room { length line.old + 34 ≤ 511 }
    ensures text { line.new ≡ with_member line.old (number name.now n) }
    ensures len { length line.new ≤ length line.old + 34 }
{
    push_name(line, name);
    push_digits(line, n);
}

/// Puts a member with a text of at most 32 bytes at the end, of which none needs an escape.
pub fn push_text(line: &mut Line, name: &[u8], bytes: &[u8])
    requires short { (length name.now ≤ 10) × (length bytes.now ≤ 32) }
    requires room { length line.old + 48 ≤ 511 }
    ensures text { line.new ≡ with_member line.old (text name.now bytes.now) }
    ensures len { length line.new ≤ length line.old + 48 }
{
    push_name(line, name);
    line.push(b"\"");
    line.push(bytes);
    line.push(b"\"");
}

// Puts a member that is so or not at the end.
pub(crate) fn push_truth(line: &mut Line, name: &[u8], so: bool)
    requires short { length name.now ≤ 10 }
    requires room { length line.old + 19 ≤ 511 }
    ensures text { line.new ≡ with_member line.old (truth name.now so) }
    ensures len { length line.new ≤ length line.old + 19 }
{
    push_name(line, name);
    if so {
        line.push(b"true");
    } else {
        line.push(b"false");
    }
}

/// The beginning of the answer to a line whose command was done: what it was about.
pub fn done(what: &[u8]) -> Line
    requires { length what.now ≤ 12 }
    ensures text { result ≡ (codes "{\"ok\":\"" ++ what.now) ++ codes "\"" }
    ensures len { length result ≤ 60 }
{
    let mut line = Line::new();
    line.push(b"{\"ok\":\"");
    line.push(what);
    line.push(b"\"");
    line
}

// The beginning of the answer to a command that was refused.
pub(crate) fn refused(refusal: u64, why: &[u8]) -> Line
    requires { length why.now ≤ 12 }
    ensures text { result ≡ (((codes "{\"no\":" ++ decimal refusal) ++ codes ",\"why\":\"") ++ why.now) ++ codes "\"" }
    ensures len { length result ≤ 60 }
{
    let mut line = Line::new();
    line.push(b"{\"no\":");
    push_digits(&mut line, refusal);
    line.push(b",\"why\":\"");
    line.push(why);
    line.push(b"\"");
    line
}
