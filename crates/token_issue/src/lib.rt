//! Which count is issued next. A token is nine digits, and the customer types no count: so the shop issues a token only
//! at a count whose digits no other count has, of those up to 4,095 and up to its own. Such a count is called clean. A
//! greater count may have the same digits.
//!
//! The tokens of all counts of a chain up to the limit are reckoned as a list, which is kept for later calls, and a
//! count is clean where its token stands once among those up to 4,095 and up to its own. The token that is issued is
//! read from that list.
//!
//! Whether issued tokens are right is told of one device's tokens by `DeviceTokens`, which reckons a list for each value
//! and asks it for all tokens of that value.
#![tactic(auto)]

mod chosen;
mod device_tokens;
mod four_lists;
mod issuing;
mod listing;
mod searching;
mod table_key;
mod tables;

pub use chosen::Chosen;
pub use device_tokens::DeviceTokens;
pub use issuing::{IssueFault, clean, next_count, next_token};
pub use table_key::TableKey;
pub use tables::Tables;

#[cfg(test)]
mod tests;
