//! Whether a log is one of a run of shop and device.
#![tactic(auto)]

mod behind;
mod check;
mod fit;
mod laws;
mod outcomes;
mod progress;
mod same;
mod serving;
mod standing;
mod states;
mod sure_keeper;
mod waiting;

pub use check::Check;
pub use laws::{
    checks_give_verdicts, choices_are_allowed, fits_are_exact, logs_are_runs, logs_fit,
    verdicts_mean,
};
pub use outcomes::{Foreseen, foretell, says};
pub use standing::{Made, Standing};

/// What is said of a log. Lines are counted from 1, and each number stands still at 2^64 - 1.
#[derive(Clone, Copy, Debug, PartialEq, Eq)]
pub enum Verdict {
    /// It is the whole log of a run, and has so many lines.
    Yes { lines: u64 },
    /// The lines before this one are the first ones of the log of some run, and with this one they aren't. Where only
    /// answers are missing at the end, it is the line behind the last one.
    No { line: u64 },
    /// Behind this line the device may be in more than 64 states.
    Wide { line: u64 },
    /// This line is longer than 4,096 bytes, or has neither mark.
    Unread { line: u64 },
}

#[cfg(test)]
mod tests;
