//! The whole standard input.
use command_parts::{Given, INPUT_LIMIT, given_of};
use sol_base::{Blob, OutOfMemory};
use sol_io::{StdSource, read_all};

/// The whole standard input.
pub(crate) fn standard_input<R: Input + AllocGlobal>(rt: &R) -> Result<Given<Blob>, OutOfMemory> {
    let mut source = StdSource::new(rt.reader());
    given_of(rt.alloc(), read_all(rt.alloc(), &mut source, INPUT_LIMIT))
}
