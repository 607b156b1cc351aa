//! A device over a ring of banks, as tests: whole runs, as in `worked_rows`.
#![tactic(auto)]

#[cfg(test)]
mod tests;
