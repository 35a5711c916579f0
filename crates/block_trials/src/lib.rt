//! Trials of blocks: lanes and senders that run at once, devices that fail, and arguments. All of it is
//! tests.
#![tactic(auto)]

#[cfg(test)]
mod tests;
