//! What is wrong in a shop's tables, as a list: nothing exactly where they are sound, and so where what the ledger's
//! laws promise of sound tables holds. The tables of a whole shop are checked over a keeper, and the lines say what was
//! found.
#![tactic(auto)]

mod booking;
mod checking;
mod finding;
mod findings;
mod flaw;
mod laws;
mod looking;
mod pairing;
mod telling;

pub use finding::flaws_of;
pub use findings::{Findings, Twins};
pub use flaw::Flaw;
pub use laws::{no_twins_no_shared_chain, sound_tables_have_no_flaw};
pub use looking::sound;
pub use telling::{flaw_text, numbers_text, twins_text};

#[cfg(test)]
mod tests;
