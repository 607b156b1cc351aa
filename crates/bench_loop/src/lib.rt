// The lines of shop and device: a bench handles each line of the input, and its answers are those of the machine of both ends.
#![tactic(auto)]

mod running;
mod side;

pub use running::run_bench;
