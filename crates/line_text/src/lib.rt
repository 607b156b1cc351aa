// Lines of text in fixed arrays: written piece by piece and read word by word, with no memory taken.
#![tactic(auto)]

mod line;
mod words;

pub use line::{LINE_ROOM, Line};
pub use words::{after_prefix, first_word, key, number};
