// Which system can keep a file to one run. What it does is trusted, as all that it does with files.
use std::fs::TryLockError;
use std::io;
use std::rt::Files;

/// A system of files that keeps an open file to one holder.
///
/// [`HostRuntime`] does it by the advisory lock on the whole file, which ends when the file is closed or the run ends,
/// in whichever way it ends. Programs that ask for no lock are not kept out.
pub trait Locks: Files {
    /// Takes the file for as long as it is open. An error says that another open file holds it. A system that has no
    /// locks for this file is no error: then nothing is kept out.
    fn claim(&self, file: &Self::File) -> io::Result<()>;
}

impl Locks for HostRuntime {
    fn claim(&self, file: &Self::File) -> io::Result<()> {
        match file.try_lock() {
            Err(TryLockError::WouldBlock) => Err(io::Error::from(io::ErrorKind::WouldBlock)),
            _ => Ok(()),
        }
    }
}
