// The files that lie beside a database, by their names.
use std::fs;
use std::io::{self, Read};

// Whether the database takes this text as the path of a file.
pub(crate) fn is_path(path: &str) -> bool {
    !path.is_empty() && path != ":memory:" && !path.starts_with("file:")
}

// The path of what lies beside the file to which this path leads, with this at its end.
pub(crate) fn beside(rt: &HostRuntime, path: &str, end: &str) -> io::Result<String> {
    let real = fs::canonicalize(rt, path)?;
    Ok(format!(in rt.alloc(); "{}{}", real.as_str(), end)?)
}

// Whether a rollback journal lies beside it that is to be played back. One that is empty or begins with a zero isn't.
pub(crate) fn has_journal(rt: &HostRuntime, path: &str) -> bool {
    first_byte(rt, path).is_ok_and(|byte| byte != 0)
}

// The first byte of the journal beside it, 0 where the journal is empty.
fn first_byte(rt: &HostRuntime, path: &str) -> io::Result<u8> {
    let path = beside(rt, path, "-journal")?;
    let mut journal = fs::open(rt, path.as_str())?;
    let mut first = [0];
    let _ = journal.read(&mut first)?;
    Ok(first[0])
}

// Whether its log lies beside it.
pub(crate) fn has_log(rt: &HostRuntime, path: &str) -> bool {
    match beside(rt, path, "-wal") {
        Ok(log) => fs::metadata(rt, log.as_str()).is_ok(),
        Err(_) => false,
    }
}
