//! Which values can't be sold in a device's reach, for a maker who chooses its starting code, and for a shop whose quote
//! is far. The codes of a value may fall into a short loop, in which no count has a token of its own: then the next count
//! that is sold is beyond the device's reach, or there is none.
#![tactic(auto)]

mod finding;
mod listing;
mod stuck_value;

pub use listing::stuck_values;
pub use stuck_value::StuckValue;

#[cfg(test)]
mod tests;
