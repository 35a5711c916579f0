//! Trials of the formats and of the rules: keys, devices, snapshots, batches, records, states, fees,
//! rent and logs. All of it is tests.
#![tactic(auto)]

#[cfg(test)]
mod tests;
