//! What is issued.

/// The count at which a token is issued, and that token.
#[derive(Clone, Copy, Debug, PartialEq, Eq)]
pub struct Chosen {
    /// The count, from 0 to 16,383.
    pub count: u16,
    /// The token of this count and of the value that was asked, below 1,000,000,000.
    pub token: u32,
}
