//! The system calls by their numbers (the project's own).

/// The number of the cross-program call. Every number from 1 on below it is that of a system call
/// that is served at once.
pub const INVOKE_CALL: u32 = 17;
