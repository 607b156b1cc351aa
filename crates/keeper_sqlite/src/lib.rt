//! The shop's tables in a SQLite file that other tools read.
#![tactic(auto)]

mod beside;
mod cause;
mod copying;
mod found;
mod keeper;
mod opening;
mod tables;
mod unread;

pub use cause::{Cause, Fault};
pub use keeper::SqliteKeeper;
pub use tables::TablesOver;
