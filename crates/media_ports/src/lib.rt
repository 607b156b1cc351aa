//! A flash of two to sixteen banks, as a trait, and one in memory whose power cut is planned. Who has such a flash and
//! wants all of its banks used meets `Media`, and hands it to `Ring` of the crate `bank_ring`.
#![tactic(auto)]

mod media;
mod mem_media;

pub use media::Media;
pub use mem_media::MemMedia;

#[cfg(test)]
mod tests;
