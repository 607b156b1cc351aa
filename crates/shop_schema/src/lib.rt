//! The tables of the shop's database: their texts, the form that they must have, and how they are made.
#![tactic(auto)]

mod form;
mod judging;
mod listing;
mod making;
mod misfit;
#[cfg(test)]
mod tests;
mod texts;

pub use form::ShopTable;
pub use making::make;
pub use misfit::{Misfit, SchemaError, Wrong};
