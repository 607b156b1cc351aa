// Fleets of one and two devices, whose totals were reckoned by hand. The codes of their chains are 7,000 apart.
ghost use Rattle.std.specs.Prelude.{◌<◌, ◌≤◌, ◌^◌, All, length};
ghost use Rattle.ledger_spec.specs.Ledger.{EnrolIsInRange, IsCommand};
ghost use Rattle.fleet_spec.specs.Fleet.{StepIsInRange};

use super::*;
use ledger_spec::{Command, Enrol, Name};
use paygo_spec::{Cut, Form};
use std::alloc::Global;
use std::process::Abort;
use token_chain::Stride;

/// The key of device 0 of the fleet that is drawn from 42.
const KEY: [u8; 16] = [0, 0, 0, 0, 0, 0, 0, 42, 0, 0, 0, 0, 0, 0, 0, 0];

/// A day of device 0: the power cut that is planned, whether wrong digits are typed, and how often the week's token is.
#[derive(Clone, Copy)]
struct Day {
    cut: Option<Cut>,
    wrong: bool,
    entries: u32,
}

/// The first five days of the fleet of one device that is drawn from 42.
const DAYS: [Day; 5] = [
    Day {
        cut: Some(Cut {
            after: 13,
            keep: 0x5555_5555_5555_5555,
        }),
        wrong: true,
        entries: 2,
    },
    QUIET,
    QUIET,
    Day {
        cut: Some(Cut {
            after: 14,
            keep: u64::MAX,
        }),
        wrong: false,
        entries: 2,
    },
    Day {
        cut: Some(Cut {
            after: 8,
            keep: u64::MAX,
        }),
        wrong: false,
        entries: 1,
    },
];

/// A day on which only the hours pass.
const QUIET: Day = Day {
    cut: None,
    wrong: false,
    entries: 0,
};

// The name that these bytes say.
fn name(rt: &impl Abort, bytes: &[u8]) -> Name {
    Name::of(bytes, 16).expect(rt, "a name")
}

// What a device is enrolled with: whole days, a price of 50 and a total of 18,000.
fn enrol(rt: &impl Abort, serial: &[u8], start: u32, form: Form) -> Enrol
    requires { start < 10 ^ 9 }
    ensures { EnrolIsInRange result }
{
    Enrol {
        serial: Name::of(serial, 16).expect(rt, "a name"),
        key: KEY,
        start,
        divider: 1,
        form,
        price: 50,
        total: 18_000,
    }
}

// A payment for a device.
fn pay(rt: &impl Abort, id: &[u8], serial: &[u8], amount: u64) -> Command
    requires { (1 ≤ amount) × (amount ≤ 10 ^ 12) }
    ensures { IsCommand result }
{
    Command::Pay {
        id: name(rt, id),
        serial: name(rt, serial),
        amount,
    }
}

// One more step of a script of so many devices.
fn add(rt: &impl Abort, devices: usize, steps: &mut Vec<Step>, step: Step)
    requires old { All (StepIsInRange devices) steps.old.items }
    requires step { StepIsInRange devices step }
    ensures { All (StepIsInRange devices) steps.new.items }
{
    steps.push(step).expect(rt, "memory");
}

// The token of an order is typed on a device, once more.
fn add_entry(rt: &impl Abort, devices: usize, steps: &mut Vec<Step>, device: u32, id: &[u8])
    requires device { device < devices }
    requires old { All (StepIsInRange devices) steps.old.items }
    ensures { All (StepIsInRange devices) steps.new.items }
{
    let id = name(rt, id);
    add(rt, devices, steps, Step::Enter { device, id });
}

// So many seconds pass on a device.
fn add_tick(rt: &impl Abort, devices: usize, steps: &mut Vec<Step>, device: u32, seconds: u32)
    requires device { device < devices }
    requires seconds { seconds ≤ 3600 }
    requires old { All (StepIsInRange devices) steps.old.items }
    ensures { All (StepIsInRange devices) steps.new.items }
{
    add(rt, devices, steps, Step::Tick { device, seconds });
}

// The steps of a day of device 0.
fn add_day(rt: &impl Abort, steps: &mut Vec<Step>, day: Day)
    requires { All (StepIsInRange 1) steps.old.items }
    ensures { All (StepIsInRange 1) steps.new.items }
{
    if let Some(cut) = day.cut {
        add(rt, 1, steps, Step::Plan { device: 0, cut });
    }
    if day.wrong {
        add(rt, 1, steps, Step::Wrong { device: 0 });
    }
    'entries: for _entry in 0..day.entries {
        add_entry(rt, 1, steps, 0, b"f0-0");
    }
    'hours: for _hour in 0..24 {
        add_tick(rt, 1, steps, 0, 3600);
    }
    add(rt, 1, steps, Step::Power { device: 0 });
}

// The totals of a script of these steps.
fn totals(rt: &impl Abort, alloc: Global, devices: Vec<Enrol>, steps: Vec<Step>) -> Totals
    requires devices { All EnrolIsInRange devices.items }
    requires steps { All (StepIsInRange (length devices.items)) steps.items }
{
    let script = Script { devices, steps };
    run_fleet::<Stride<7>>(alloc, &script).expect(rt, "memory")
}

#[test]
fn five_days_of_one_device(rt: HostRuntime) {
    let alloc = rt.alloc();
    let mut devices = Vec::new(alloc);
    devices
        .push(enrol(&rt, b"f0", 707_161_783, Form::Nine))
        .expect(&rt, "memory");
    let mut steps = Vec::new(alloc);
    add(
        &rt,
        1,
        &mut steps,
        Step::Ledger(pay(&rt, b"f0-0", b"f0", 350)),
    );
    for day in DAYS {
        add_day(&rt, &mut steps, day);
    }
    let want = Totals {
        orders: 1,
        accepted: 1,
        old: 2,
        invalid: 1,
        blocked: 2,
        down: 3,
        left: 529_200,
    };
    assert_eq!(rt; totals(&rt, alloc, devices, steps), want);
}

// What two customers do on a day without a power cut.
fn add_customers(rt: &impl Abort, steps: &mut Vec<Step>)
    requires { All (StepIsInRange 2) steps.old.items }
    ensures { All (StepIsInRange 2) steps.new.items }
{
    // The first receipt is sent twice: there is one order.
    add(rt, 2, steps, Step::Ledger(pay(rt, b"f0-0", b"f0", 350)));
    add(rt, 2, steps, Step::Ledger(pay(rt, b"f0-0", b"f0", 350)));
    add(rt, 2, steps, Step::Ledger(pay(rt, b"f1-0", b"f1", 100)));
    // Seven days are bought on the one device, and two on the other, which is typed in fifteen digits.
    add_entry(rt, 2, steps, 0, b"f0-0");
    add_entry(rt, 2, steps, 1, b"f1-0");
    // Nobody paid for this one, so nothing is typed.
    add_entry(rt, 2, steps, 1, b"f1-7");
    add(rt, 2, steps, Step::Wrong { device: 1 });
    add_tick(rt, 2, steps, 0, 60);
    add_tick(rt, 2, steps, 1, 3600);
    add_entry(rt, 2, steps, 0, b"f0-0");
    add(rt, 2, steps, Step::Power { device: 0 });
}

#[test]
fn a_day_of_two_devices(rt: HostRuntime) {
    let alloc = rt.alloc();
    let mut devices = Vec::new(alloc);
    devices
        .push(enrol(&rt, b"f0", 123_456_789, Form::Nine))
        .expect(&rt, "memory");
    devices
        .push(enrol(&rt, b"f1", 987_654_321, Form::Fifteen))
        .expect(&rt, "memory");
    let mut steps = Vec::new(alloc);
    add_customers(&rt, &mut steps);
    let want = Totals {
        orders: 2,
        accepted: 2,
        old: 1,
        invalid: 1,
        blocked: 0,
        down: 0,
        left: 7 * 86_400 - 60 + 2 * 86_400 - 3600,
    };
    assert_eq!(rt; totals(&rt, alloc, devices, steps), want);
}
