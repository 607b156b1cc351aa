//! A source, a sink and a flash in memory, whose faults are planned: for tests, and for runs that last no longer than the
//! program.
#![tactic(auto)]

mod mem_flash;
mod mem_sink;
mod mem_source;
mod watched;

pub use mem_flash::MemFlash;
pub use mem_sink::MemSink;
pub use mem_source::MemSource;
pub use watched::{WatchedSink, WatchedSource};

#[cfg(test)]
mod tests;
