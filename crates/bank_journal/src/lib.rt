// The journal of a device on the two banks of its flash: each entry of its history is one word, and a full bank is left for
// the other one with a snapshot of all that came before. Whatever a power cut leaves of a word or of a bank, the flash
// stands for the history as it was, or with the entry.
#![tactic(auto)]

mod head;
mod journal;
mod reading;
mod summary;
mod words;
mod writing;

pub use journal::{Journal, JournalFault};
pub use paygo_spec::{Config, Entry};
pub use reading::load;
pub use summary::Summary;
pub use writing::make;

#[cfg(test)]
mod tests;
