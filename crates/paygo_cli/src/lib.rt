// The top call of the program: the words of the command line, and what they do to the input, the output, the keeper of the
// tables and the flash.
#![tactic(auto)]

mod advising;
mod auditing;
mod listing;
mod simulating;
mod sounding;
mod top_call;
mod writing;

pub use command_words::{Behind, Candidate, Work, banks_in, message, work_in};
pub use run_spec::Status;
pub use top_call::run;
