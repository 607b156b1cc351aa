// The texts of the replies: each is a word, numbers, and in some the time left.
ghost use Rattle.std.specs.Prelude.{◌≡◌, ◌+◌, ◌≤◌, false, length, take, drop};
ghost use Rattle.paygo_spec.specs.Text.{text_of, with_number, with_left};
ghost use Rattle.device_core.specs.Texts.{is_of_entry};

use line_text::Line;
use paygo_spec::Reply;

// A word alone.
fn word(letters: &[u8]) -> Line
    requires { length letters.now ≤ 10 }
    ensures text { result ≡ letters.now }
    ensures len { length result ≤ 10 }
{
    let mut line = Line::new();
    line.push(letters);
    line
}

// The line with a space and a number at its end.
fn number(mut line: Line, n: u64) -> Line
    requires { length line + 21 ≤ 512 }
    ensures text { result ≡ with_number line n }
    ensures len { length result ≤ length line + 21 }
{
    line.push_number(n);
    line
}

// The line with a space and the seconds left at its end, or the word `free`.
fn time(mut line: Line, left: u64, free: bool) -> Line
    requires { length line + 21 ≤ 512 }
    ensures text { result ≡ with_left line left free }
    ensures len { length result ≤ length line + 21 }
{
    if free {
        line.push(b" free");
    } else {
        line.push_number(left);
    }
    line
}

// A word and a number.
fn numbered(letters: &[u8], n: u64) -> Line
    requires { length letters.now ≤ 10 }
    ensures text { result ≡ with_number letters.now n }
    ensures len { length result ≤ 31 }
{
    number(word(letters), n)
}

// The line of a reply that isn't one to an entry at the keypad. The last of them is `Unmade`.
fn state_line(reply: &Reply) -> Line
    requires { is_of_entry reply.now ≡ false }
    ensures text { result ≡ text_of reply.now }
    ensures len { length result ≤ 200 }
{
    match *reply {
        Reply::Worn => word(b"worn"),
        Reply::Down => word(b"down"),
        Reply::Raised => word(b"raised"),
        Reply::Up {
            count,
            left,
            free,
            block,
        } => number(
            time(numbered(b"up", u64::from(count)), left, free),
            u64::from(block),
        ),
        Reply::Ticked { left, free, block } => number(
            time(word(b"ticked"), left, free),
            u64::from(block),
        ),
        Reply::Made { number } => numbered(b"made", u64::from(number)),
        Reply::Damaged { place } => numbered(b"damaged", u64::from(place)),
        Reply::Shown {
            count,
            left,
            free,
            fails,
            block,
            held,
            room,
        } => {
            let line = time(numbered(b"shown", u64::from(count)), left, free);
            let line = number(number(line, u64::from(fails)), u64::from(block));
            number(number(line, u64::from(held)), room)
        }
        _ => word(b"unmade"),
    }
}

/// The line of a reply, at most 200 bytes.
pub fn line(reply: &Reply) -> Line
    ensures text { result ≡ text_of reply.now }
    ensures len { length result ≤ 200 }
{
    match *reply {
        Reply::Set { count, value, left } => number(
            number(numbered(b"set", u64::from(count)), u64::from(value)),
            left,
        ),
        Reply::Added {
            count,
            value,
            left,
            free,
        } => time(
            number(numbered(b"added", u64::from(count)), u64::from(value)),
            left,
            free,
        ),
        Reply::Free { count } => numbered(b"free", u64::from(count)),
        Reply::Synced { count } => numbered(b"synced", u64::from(count)),
        Reply::Old => word(b"old"),
        Reply::Invalid { block } => numbered(b"invalid", u64::from(block)),
        Reply::Blocked { block } => numbered(b"blocked", u64::from(block)),
        Reply::Length { n } => numbered(b"length", u64::from(n)),
        Reply::Digits { place } => numbered(b"digits", u64::from(place)),
        _ => state_line(reply),
    }
}

/// Writes the text of a reply into the front of `out`, whose rest stays as it was, and answers its length.
pub fn text(reply: &Reply, out: &mut [u8; 512]) -> usize
    ensures text { take result out.new ≡ text_of reply.now }
    ensures len { result ≡ length (text_of reply.now) }
    ensures rest { drop result out.new ≡ drop result out.old }
{
    line(reply).copy_to(out)
}
