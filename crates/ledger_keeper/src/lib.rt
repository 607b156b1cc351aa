//! Keepers of the shop's tables: the trait, and a keeper in memory.
#![tactic(auto)]

mod answers;
mod keeper;
mod mem_keeper;
mod sorting;

pub use answers::{are_all_of, are_changes_of, are_orders_of, do_rows_rise};
pub use keeper::Keeper;
pub use mem_keeper::{MemKeeper, Plan};
