//! The devices that are sold.

ghost use Rattle.std.specs.Prelude.{◌≡◌, ◌+◌, ◌<◌, ◌≤◌, ◌^◌, ◌++◌, IfOk, OnOk};
ghost use Rattle.std.specs.Int.{w64, to_be_bytes};
ghost use Rattle.fleet_spec.specs.Script.{form_of_device, enrol_of, enrols_of};

use crate::naming::serial;
use crate::words::Words;
use ledger_spec::Enrol;
use paygo_spec::{Form, Memory};
use std::alloc::Global;

// The price of a day, and that of the device itself.
const DAY_PRICE: u64 = 50;

const DEVICE_PRICE: u64 = 18_000;

// The form in which the customer of a device types tokens.
fn form(device: u32) -> Form
    ensures { result ≡ form_of_device device }
{
    if device % 2 == 0 {
        Form::Nine
    } else {
        Form::Fifteen
    }
}

// The key of a device: the number that the fleet is drawn from, and the device's own.
fn key(seed: u64, device: u32) -> [u8; 16]
    ensures { result ≡ to_be_bytes w64 seed ++ to_be_bytes w64 device }
{
    let mut key = [0; 16];
    key[..8].copy_from_slice(&seed.to_be_bytes());
    key[8..].copy_from_slice(&u64::from(device).to_be_bytes());
    key
}

// What the next device is enrolled with, for which the next word is drawn.
fn enrol(words: &mut Words, device: u32) -> Enrol
    requires turn { words.old.drawn ≡ device }
    requires few { device + 1 < 2 ^ 32 }
    ensures enrol { result ≡ enrol_of words.old.seed device }
    ensures seed { words.new.seed ≡ words.old.seed }
    ensures drawn { words.new.drawn ≡ device + 1 }
{
    Enrol {
        serial: serial(device),
        key: key(words.seed(), device),
        start: words.draw() % 1_000_000_000,
        divider: 1,
        form: form(device),
        price: DAY_PRICE,
        total: DEVICE_PRICE,
    }
}

/// What so many devices are enrolled with, device by device, for each of which the next word is drawn. They are the
/// first words that are drawn.
pub(crate) fn enrols(alloc: Global, words: &mut Words, devices: u32) -> Result<Vec<Enrol>, Memory>
    requires first { words.old.drawn ≡ 0 }
    requires few { devices + 1 < 2 ^ 32 }
    ensures enrols { IfOk result (λ enrols. enrols.items ≡ enrols_of words.old.seed devices) }
    ensures seed { words.new.seed ≡ words.old.seed }
    ensures drawn { OnOk result (words.new.drawn ≡ devices) }
{
    let mut enrols = Vec::new(alloc);
    for device in 0..devices {
        if enrols.push(enrol(words, device)).is_err() {
            return Err(Memory);
        }
    }
    Ok(enrols)
}
