// The shop's tables on a disk that fails or loses its power at any call.
#![tactic(auto)]

#[cfg(test)]
mod tests;
