//! What the programs of `paygo` stand on and don't control, as traits: the source of their input, the sink of their output,
//! and the flash of a device. Who writes one of their own needs this crate alone.
#![tactic(auto)]

mod counts;
mod flash;
mod sink;
mod source;

pub use counts::{count_fault, count_taken};
pub use flash::{Flash, FlashFault};
pub use sink::{Sink, WriteFault};
pub use source::{ReadFault, Source};

/// How many words a flash has.
pub const WORDS: u16 = 1024;

/// How many words a bank of the flash has. Bank 0 is words 0 to 511, bank 1 is words 512 to 1,023.
pub const BANK: u16 = 512;
