// What an audit found.
use ledger_spec::Name;

/// What an audit of the tables found.
#[derive(Drop)]
pub struct Audit {
    /// How many rows there are.
    pub rows: u64,
    /// How many orders there are, or 2^64 - 1 where there are more.
    pub orders: u64,
    /// The ids of the wrong orders: by serial, then by count, then by id.
    pub wrong: Vec<Name>,
}
