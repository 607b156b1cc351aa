//! The lines of the ledger: what they ask for, and the texts of its answers.
#![tactic(auto)]

mod answers;
mod commands;
mod laws;
mod lines;
pub mod members;
mod one_line;
mod orders;
pub mod pieces;
mod rows;

pub use answers::{answer_line, fault_line, numbered, write};
pub use commands::need;
pub use laws::{key_is_never_written, refused_lines};
pub use ledger_spec::{Answer, Command, Enrol, TextFault};
pub use lines::read;
pub use one_line::{each_answer_is_one_line, each_fault_is_one_line, token_is_digits};
pub use orders::kind_word;

#[cfg(test)]
mod tests;
