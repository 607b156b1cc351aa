//! The serials of devices, and the ids of their payments.

ghost use Rattle.std.specs.Prelude.{◌≡◌, ◌+◌, ◌≤◌, ◌++◌, length};
ghost use Rattle.std.specs.Fmt.{decimal};
ghost use Rattle.fleet_spec.specs.Script.{serial_of, id_of};

use ledger_spec::Name;
use line_text::Line;

// A number in decimal digits at the end of a line: at most ten bytes.
fn push_digits(line: &mut Line, n: u32)
    requires { length line.old + 10 ≤ 512 }
    ensures text { line.new ≡ line.old ++ decimal n }
    ensures len { length line.new ≤ length line.old + 10 }
{
    let mut buffer = itoa::Buffer::new();
    line.push(buffer.format(n).as_bytes());
}

/// The serial of a device: `f` and its number.
pub(crate) fn serial(device: u32) -> Name
    ensures { result ≡ serial_of device }
{
    let mut text = Line::new();
    text.push(b"f");
    push_digits(&mut text, device);
    Name::of(text.as_bytes(), 16).unwrap()
}

/// The id of a device's payment of a week, by the day of that payment: `f`, the device, `-` and the day.
pub(crate) fn id(device: u32, day: u32) -> Name
    ensures { result ≡ id_of device day }
{
    let mut text = Line::new();
    text.push(b"f");
    push_digits(&mut text, device);
    text.push(b"-");
    push_digits(&mut text, day);
    Name::of(text.as_bytes(), 32).unwrap()
}
