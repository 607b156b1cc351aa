// What the keeper keeps in a real database, in memory and in a file.
#![tactic(auto)]

#[cfg(test)]
mod tests;
