//! Trials of programs: verified texts, memory and the machine; the input region, system calls,
//! requests of cross-program calls, images and whole instructions; the native programs. All of it is
//! tests.
#![tactic(auto)]

#[cfg(test)]
mod tests;
