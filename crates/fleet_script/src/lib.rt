//! What happens in a fleet, drawn from a number: what its devices are enrolled with, and the steps of each of its days.
//! The definitions are those of `fleet_spec`.
#![tactic(auto)]

mod bits;
mod device_day;
mod enrolling;
mod generating;
mod naming;
mod words;

pub use generating::generate;

#[cfg(test)]
mod tests;
