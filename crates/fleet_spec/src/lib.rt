// A fleet of devices and their shop, whose days are drawn from a number: its plain types and, in specs/, the definitions that
// the contracts of the crates above cite.
#![tactic(auto)]

use ledger_spec::{Command, Enrol, Name};
use paygo_spec::Cut;

/// One thing that happens in a fleet. Devices are counted from 0.
#[derive(Clone, Copy, Debug)]
pub enum Step {
    /// The shop is given this command.
    Ledger(Command),
    /// A power cut is planned for the flash of the device, in place of one that was planned before.
    Plan { device: u32, cut: Cut },
    /// A customer types wrong digits: as many as the device's form has, each the least, and `#`.
    Wrong { device: u32 },
    /// A customer types the token of the order with this id, and `#`; or nothing, where there is no such order.
    Enter { device: u32, id: Name },
    /// So many seconds pass on the device, at most 999,999,999.
    Tick { device: u32, seconds: u32 },
    /// The device's power is switched off and on.
    Power { device: u32 },
}

/// What happens in a fleet: which devices are sold, and the steps behind that, in their order.
#[derive(Drop)]
pub struct Script {
    /// What each device is enrolled with, from device 0 on.
    pub devices: Vec<Enrol>,
    /// The steps, in their order.
    pub steps: Vec<Step>,
}

/// What became of a fleet. Each number stands still at 2^64 - 1.
#[derive(Clone, Copy, Debug, PartialEq, Eq)]
pub struct Totals {
    /// How many orders the shop keeps at the end.
    pub orders: u64,
    /// How many entries were accepted: answered `set`, `added`, `free` or `synced`.
    pub accepted: u64,
    /// How many entries were answered `old`.
    pub old: u64,
    /// How many entries were answered `invalid`.
    pub invalid: u64,
    /// How many entries were answered `blocked`.
    pub blocked: u64,
    /// How many events were answered `down`.
    pub down: u64,
    /// The seconds left on all devices together, as their flashes stand for at the end.
    pub left: u64,
}
