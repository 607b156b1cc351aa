// The way back for a device that fell behind: runs of `advise DB SERIAL FLOOR` over tables in memory.
#![tactic(auto)]

#[cfg(test)]
mod tests;
