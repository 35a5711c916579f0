//! Trials of chains on disk: crashes at each step, and files that are damaged. All of it is tests.
#![tactic(auto)]

#[cfg(test)]
mod tests;
