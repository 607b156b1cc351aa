// The lines of a log through the loop over lines: a check is handed each of them, and what it says is its last word.
#![tactic(auto)]

mod handler;
mod running;

pub use running::run_check;
