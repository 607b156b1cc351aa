// The lines of agents: sheets of tokens are sold ahead, sales are reported, and what all reports come to is the last
// word.
#![tactic(auto)]

mod agency;
mod laws;
mod running;

pub use laws::{no_token_is_counted_twice, order_and_repeats_do_not_matter};
pub use running::run_sheets;
