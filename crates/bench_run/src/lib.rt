// What stands between the lines of a program and its ledger and device: each line is taken to the one or the other, and its
// answers are written.
#![tactic(auto)]

mod bench;
mod device_lines;

pub use bench::Bench;
pub use device_lines::{Request, request_in, trimmed};
pub use run_spec::Mode;
