//! The shop's ledger: each command is answered over a keeper of the tables, and an audit checks every kept token again.
#![tactic(auto)]

mod applying;
mod auditing;
mod changing;
mod deciding;
mod enrolling;
mod findings;
mod issuing;
mod quoting;
mod telling;

pub use applying::apply;
pub use auditing::{audit, every_order_is_audited};
pub use findings::Audit;

#[cfg(test)]
mod tests;
