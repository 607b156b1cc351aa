//! The words of the command line: what they ask for, which of them is wrong where they ask for nothing, and what is said of
//! them and of the status of a run.
#![tactic(auto)]

mod help;
mod words;
mod wrong;

pub use help::{HELP, Told, VERSION, asks_of_program};
pub use words::{Behind, Candidate, Work, banks_in, message, work_in};
pub use wrong::{Form, forms_of, wrong_word};

#[cfg(test)]
mod tests;
