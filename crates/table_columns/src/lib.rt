// The columns of the shop's database, read as rows, orders and changes of a price. Whatever another program put there is
// tested: what is read is in range.
#![tactic(auto)]

mod changes;
mod columns;
mod orders;
mod rows;

pub use changes::{change_at, changes_of};
pub use orders::{ask_number, asked_number, kind_number, order_at, orders_of};
pub use rows::{form_at, row_at, rows_of};
