//! Scripts that were reckoned by another program from the definition of the generator.

ghost use Rattle.std.specs.Prelude.{◌≤◌, ◌+◌, length};

use super::generate;
use fleet_spec::Step;
use ledger_spec::{Command, Enrol};
use line_text::Line;
use paygo_spec::Form;
use std::process::Abort;
use std::test::Fail;

/// What happens before the hours of each day: one device of the number 42, five days.
const ONE_DEVICE: [&[&str]; 5] = [
    &[
        "pay f0-0 f0 350",
        "plan 0 13 6148914691236517205",
        "wrong 0",
        "enter 0 f0-0",
        "enter 0 f0-0",
    ],
    &[],
    &[],
    &[
        "plan 0 14 18446744073709551615",
        "enter 0 f0-0",
        "enter 0 f0-0",
    ],
    &["plan 0 8 18446744073709551615", "enter 0 f0-0"],
];

/// Two devices of the number 3138, nine days: the first device's day, and then the second one's.
const TWO_DEVICES: [&[&str]; 18] = [
    // the first day of a week, which both customers pay twice
    &[
        "pay f0-0 f0 350",
        "pay f0-0 f0 350",
        "wrong 0",
        "enter 0 f0-0",
        "enter 0 f0-0",
    ],
    &["pay f1-0 f1 350", "pay f1-0 f1 350", "enter 1 f1-0"],
    &["plan 0 8 6148914691236517205"],
    &["plan 1 11 0", "enter 1 f1-0", "enter 1 f1-0"],
    &["enter 0 f0-0", "enter 0 f0-0"],
    &["plan 1 10 0", "enter 1 f1-0", "enter 1 f1-0"],
    &["enter 0 f0-0"],
    &["enter 1 f1-0", "enter 1 f1-0"],
    &[],
    &["enter 1 f1-0", "enter 1 f1-0"],
    &["wrong 0"],
    &["plan 1 6 4294967295"],
    &["enter 0 f0-0"],
    &["wrong 1", "enter 1 f1-0"],
    // the first day of the next week, on which the first customer types the token of the week before too
    &["pay f0-7 f0 350", "enter 0 f0-7", "enter 0 f0-0"],
    &[
        "pay f1-7 f1 350",
        "pay f1-7 f1 350",
        "enter 1 f1-7",
        "enter 1 f1-7",
    ],
    &[
        "plan 0 13 18446744073709551615",
        "enter 0 f0-7",
        "enter 0 f0-7",
    ],
    &["wrong 1", "enter 1 f1-7", "enter 1 f1-0"],
];

// A device and its number, in a line.
fn push_device(line: &mut Line, word: &[u8], device: u32)
    requires { length line.old + length word.now + 21 ≤ 512 }
    ensures { length line.new ≤ length line.old + length word.now + 21 }
{
    line.push(word);
    line.push_number(u64::from(device));
}

// A step in words.
fn line_of(step: &Step) -> Line {
    let mut line = Line::new();
    match step {
        Step::Ledger(Command::Pay { id, serial, amount }) => {
            line.push(b"pay ");
            line.push(id.bytes());
            line.push(b" ");
            line.push(serial.bytes());
            line.push_number(*amount);
        }
        Step::Ledger(_) => line.push(b"another command"),
        Step::Plan { device, cut } => {
            push_device(&mut line, b"plan", *device);
            line.push_number(u64::from(cut.after));
            line.push_number(cut.keep);
        }
        Step::Wrong { device } => push_device(&mut line, b"wrong", *device),
        Step::Enter { device, id } => {
            push_device(&mut line, b"enter", *device);
            line.push(b" ");
            line.push(id.bytes());
        }
        Step::Tick { device, seconds } => {
            push_device(&mut line, b"tick", *device);
            line.push_number(u64::from(*seconds));
        }
        Step::Power { device } => push_device(&mut line, b"power", *device),
    }
    line
}

// The first of these steps is this. Answers the others.
fn first_is<'a>(rt: &impl Abort, steps: &'a [Step], want: &[u8]) -> &'a [Step] {
    let (first, others) = steps.split_first().expect(rt, "one step more");
    assert_eq!(rt; line_of(first).as_bytes(), want);
    others
}

// The first of these steps are these, and then the device's hours pass and it is powered. Answers the others.
fn day_is<'a>(rt: &impl Abort, steps: &'a [Step], device: u32, wants: &[&str]) -> &'a [Step] {
    let mut others = steps;
    for want in wants {
        others = first_is(rt, others, want.as_bytes());
    }
    let mut hour = Line::new();
    push_device(&mut hour, b"tick", device);
    hour.push_number(3600);
    for _ in 0..24 {
        others = first_is(rt, others, hour.as_bytes());
    }
    let mut power = Line::new();
    push_device(&mut power, b"power", device);
    first_is(rt, others, power.as_bytes())
}

// A device was enrolled so: with the number of the fleet and its own as its key.
fn enrol_is(rt: &impl Abort, enrol: &Enrol, serial: &[u8], key: [u8; 16], start: u32, form: Form) {
    assert_eq!(rt; enrol.serial.bytes(), serial);
    assert_eq!(rt; enrol.key, key);
    assert_eq!(rt; enrol.start, start);
    assert_eq!(rt; enrol.form, form);
    assert_eq!(rt; (enrol.divider, enrol.price, enrol.total), (1, 50, 18_000));
}

#[test]
fn one_device(rt: HostRuntime) -> Result<(), Fail> {
    let script = generate(rt.alloc(), 42, 1, 5)?;
    assert_eq!(rt; script.devices.len(), 1);
    let key = [0, 0, 0, 0, 0, 0, 0, 42, 0, 0, 0, 0, 0, 0, 0, 0];
    enrol_is(&rt, &script.devices[0], b"f0", key, 707_161_783, Form::Nine);
    let mut steps = script.steps.as_slice();
    for wants in ONE_DEVICE {
        steps = day_is(&rt, steps, 0, wants);
    }
    assert_eq!(rt; steps.len(), 0);
    Ok(())
}

#[test]
fn two_devices(rt: HostRuntime) -> Result<(), Fail> {
    let script = generate(rt.alloc(), 3138, 2, 9)?;
    assert_eq!(rt; script.devices.len(), 2);
    let mut key = [0, 0, 0, 0, 0, 0, 0x0c, 0x42, 0, 0, 0, 0, 0, 0, 0, 0];
    enrol_is(&rt, &script.devices[0], b"f0", key, 800_850_856, Form::Nine);
    key[15] = 1;
    enrol_is(
        &rt,
        &script.devices[1],
        b"f1",
        key,
        256_313_341,
        Form::Fifteen,
    );
    let mut steps = script.steps.as_slice();
    for i in 0..18 {
        steps = day_is(&rt, steps, i % 2, TWO_DEVICES[i as usize]);
    }
    assert_eq!(rt; steps.len(), 0);
    Ok(())
}

#[test]
fn largest_fleet(rt: HostRuntime) -> Result<(), Fail> {
    let script = generate(rt.alloc(), 2026, 200, 400)?;
    assert_eq!(rt; script.devices.len(), 200);
    assert_eq!(rt; script.steps.len(), 2_134_192);
    Ok(())
}
