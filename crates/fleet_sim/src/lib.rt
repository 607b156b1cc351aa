//! A fleet in memory: the shop and the devices of a script, run step by step.
#![tactic(auto)]

mod fleet;
mod run;
mod site;
mod tally;

pub use fleet_spec::{Script, Step, Totals};
pub use paygo_spec::Memory;
pub use run::run_fleet;

#[cfg(test)]
mod tests;
