// The adapters of the system, tried over made-up files and streams that count calls, fail and record what was written.
#![tactic(auto)]

#[cfg(test)]
mod tests;
