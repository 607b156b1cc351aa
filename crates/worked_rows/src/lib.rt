// The worked runs of the product: what its lines are answered, over a source, a sink and a flash in memory.
#![tactic(auto)]

#[cfg(test)]
mod tests;
