//! The script of a fleet.

ghost use Rattle.std.specs.Prelude.{◌≡◌, ◌+◌, ◌*◌, ◌<◌, ◌≤◌, ◌^◌, ◌++◌, IfOk, OnOk};
ghost use Rattle.fleet_spec.specs.Script.{enrols_of, steps_of_day, steps_of};
ghost use Rattle.fleet_spec.specs.Fleet.{IsInRange};

use crate::device_day::put_device_day;
use crate::enrolling::enrols;
use crate::words::Words;
use fleet_spec::{Script, Step};
use paygo_spec::Memory;
use std::alloc::Global;

// Puts the steps of a day behind these, device by device, for each of which the next word is drawn.
fn put_day(steps: &mut Vec<Step>, words: &mut Words, devices: u32, day: u32) -> Result<(), Memory>
    requires turn { words.old.drawn ≡ devices * (day + 1) }
    requires few { words.old.drawn + devices < 2 ^ 32 }
    ensures steps { OnOk result (steps.new.items ≡ steps.old.items ++ steps_of_day words.old.seed devices day) }
    ensures seed { words.new.seed ≡ words.old.seed }
    ensures drawn { OnOk result (words.new.drawn ≡ words.old.drawn + devices) }
{
    for device in 0..devices {
        put_device_day(steps, words.draw(), day, device)?;
    }
    Ok(())
}

// Puts the steps of all days behind these, day by day. One word was drawn for each device before.
fn put_days(steps: &mut Vec<Step>, words: &mut Words, devices: u32, days: u32) -> Result<(), Memory>
    requires turn { words.old.drawn ≡ devices }
    requires devices { devices ≤ 200 }
    requires days { days ≤ 400 }
    ensures { OnOk result (steps.new.items ≡ steps.old.items ++ steps_of words.old.seed devices days) }
{
    for day in 0..days {
        put_day(steps, words, devices, day)?;
    }
    Ok(())
}

/// Draws what happens in a fleet of so many devices, from 1 to 200, on so many days, from 1 to 400: what each device is
/// enrolled with, and the steps of each day, device by device. The same number always draws the same script, and its
/// devices and steps are in range.
///
/// # Errors
///
/// `Memory` where there is no memory for the script, and never else.
pub fn generate(alloc: Global, seed: u64, devices: u32, days: u32) -> Result<Script, Memory>
    requires devices { (1 ≤ devices) × (devices ≤ 200) }
    requires days { (1 ≤ days) × (days ≤ 400) }
    ensures devices { IfOk result (λ script. script.devices.items ≡ enrols_of seed devices) }
    ensures steps { IfOk result (λ script. script.steps.items ≡ steps_of seed devices days) }
    ensures in_range { IfOk result (λ script. IsInRange script.devices.items script.steps.items) }
{
    let mut words = Words::new(seed);
    let sold = enrols(alloc, &mut words, devices)?;
    let mut steps = Vec::new(alloc);
    put_days(&mut steps, &mut words, devices, days)?;
    Ok(Script {
        devices: sold,
        steps,
    })
}
