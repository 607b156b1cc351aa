//! Work that is done on several numbers side by side: how often a token stands in a list, eight places at a time, and
//! four steps up four chains at once.
#![tactic(auto)]

mod counting;
mod four;
mod lanes;

pub use counting::count_equal;
pub use lanes::Lanes;

#[cfg(test)]
mod tests;
