//! The token chain of OpenPAYGO Token, the scheme of EnAccess for pay-as-you-go solar: the codes that
//! a key makes out of a starting code, and the tokens of nine digits that the shop sells and the device
//! takes.
//!
//! A token is the code of its count with other last three digits, which say its value. Each count is
//! one step up the chain, and a `Mixer` says what a step is: `Plain` is the chain of the scheme.
#![tactic(auto)]

mod codes;
mod mixers;
mod walks;

pub use codes::{base, fold, put, token_base, value_of};
pub use mixers::{Mixer, Plain, Stride};
pub use walks::{Walk, token};

/// The greatest count of a token of a device that wasn't raised.
pub const LAST: u16 = 4095;

/// The greatest count of a token of a device that was raised.
pub const GREAT: u16 = 16_383;

#[cfg(test)]
mod tests;
