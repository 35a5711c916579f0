//! What a wire is read as.
ghost use Rattle.std.specs.Prelude.{◌≡◌, IfOk};
ghost use Rattle.message_codec.specs.Parsing.{IsParsed, parsed_of};

use crate::fault::WireFault;
use crate::message::Tx;
use crate::reading::read_signed;
use sol_base::{Hash32, OutOfMemory, hash};
use std::alloc::Global;

/// What the bytes of a wire are: a transaction with the name of its message, or why there is none.
#[derive(Drop)]
pub enum Parsed {
    Good { tx: Tx, name: Hash32 },
    /// The refusal, which is never out of memory.
    Bad(WireFault),
}

/// Reads the wire, and names its message by the bytes that are in the wire.
pub fn parse(alloc: Global, wire: &[u8]) -> Result<Parsed, OutOfMemory>
    ensures exact { IfOk result (λ parsed. parsed ≡ parsed_of wire.now) }
    ensures meaning { IfOk result (λ parsed. IsParsed wire.now parsed) }
{
    match read_signed(alloc, wire) {
        Ok((tx, message)) => Ok(Parsed::Good {
            tx,
            name: hash(message),
        }),
        Err(WireFault::OutOfMemory) => Err(OutOfMemory),
        Err(fault) => Ok(Parsed::Bad(fault)),
    }
}
