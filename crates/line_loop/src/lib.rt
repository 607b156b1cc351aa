// The loop over lines: each line of the input is handed to what handles lines, and handled before the next one is read, until the
// run ends.
#![tactic(auto)]

mod handler;
mod lines;
mod running;

pub use handler::{LineFault, LineHandler, as_line_fault};
pub use lines::{LINE_SIZE, Lines, LinesFault, Next};
pub use running::run_lines;
