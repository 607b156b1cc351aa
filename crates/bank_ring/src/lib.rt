//! A flash of two to sixteen banks as the flash of a device: two of its banks are shown at a time, in turn, so that all
//! of them wear evenly. A device over `Ring` is a device over a flash, and all that is proved of one holds.
#![tactic(auto)]

mod pair;
mod ring;

pub use media_ports::Media;
pub use pair::Pair;
pub use ring::Ring;

#[cfg(test)]
mod tests;
