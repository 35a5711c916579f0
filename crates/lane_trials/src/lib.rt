//! Trials of lanes: the worked examples of waves and desks, by threads that really run. All of it
//! is tests.
#![tactic(auto)]

#[cfg(test)]
mod tests;
