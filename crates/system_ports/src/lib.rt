//! The adapters of the system: standard input as a source, standard output as a sink, and a file as a flash, of two
//! banks or of more. Here the proof ends and the operating system begins.
#![tactic(auto)]

mod bank_file;
mod bytes;
mod flash_file;
mod locks;
mod media_file;
mod record;
mod settling;
mod stdin_source;
mod stdout_sink;

pub use flash_file::FlashFile;
pub use locks::Locks;
pub use media_file::MediaFile;
pub use stdin_source::StdinSource;
pub use stdout_sink::StdoutSink;
