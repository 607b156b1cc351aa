// What `check` says of logs: those of runs of shop and device, with power cuts, and the same with one answer changed.
#![tactic(auto)]

#[cfg(test)]
mod tests;
