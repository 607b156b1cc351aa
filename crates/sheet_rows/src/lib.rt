// Sheets of tokens for agents: runs of `sheets DB` over tables in memory.
#![tactic(auto)]

#[cfg(test)]
mod tests;
