// Whole runs of the shop over a real database, in memory and in a file.
#![tactic(auto)]

#[cfg(test)]
mod tests;
