//! The shop's tables in a database: which tables of the ledger a database holds, and what each statement of the shop makes of them.
#![tactic(auto)]

mod listing;
mod query;
mod reading;
mod statements;
mod values;
mod writing;

pub use listing::{find_orders, find_orders_back, find_prices, find_rows};
pub use reading::{find_device, find_order};
pub use writing::{add_device, add_order, add_price, raise, skip};
