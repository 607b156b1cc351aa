//! The lines of sheets of tokens: what agents ask for and report, and the texts of the answers.
#![tactic(auto)]

mod asks;
mod ids;
mod lines;
mod members;
mod texts;

pub use asks::{Ask, Sheet, Sold};
pub use ids::{id_of, ids_differ};
pub use ledger_spec::TextFault;
pub use lines::read;
pub use texts::{sales_line, sold_line};

#[cfg(test)]
mod tests;
