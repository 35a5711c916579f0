//! Reading and writing whole.
ghost use Rattle.std.specs.Prelude.{◌≡◌, ◌≤◌, length, take, OnOk, IfErr};
ghost use Rattle.sol_io.specs.Counts.{ReadCounts, WriteCounts, written_of};
ghost use Rattle.sol_io.specs.Bytes.{ReadsAll, LosesFront, Appends, IsAtEnd};

use crate::device::{Sink, Source};
use crate::fault::{ReadFault, SinkFault, WriteFault};
use sol_base::Blob;
use std::alloc::Global;

/// How many bytes one read asks for.
const PIECE: usize = 65_536;

/// All bytes up to the end of the source, at most `limit`. After a refusal some bytes have been
/// taken from the source.
pub fn read_all<S: Source>(alloc: Global, source: &mut S, limit: usize) -> Result<Blob, ReadFault>
    ensures bytes { ReadsAll (S.left source.old) limit result }
    ensures taken { LosesFront (S.left source.old) (S.left source.new) }
    ensures end { OnOk result (IsAtEnd (S.left source.new)) }
    ensures counts { ReadCounts result (S.faults source.old) (S.faults source.new) }
{
    let mut bytes = Blob::new(alloc);
    let mut piece = [0u8; PIECE];
    loop {
        let n = source.read(&mut piece)?;
        if n == 0 {
            return Ok(bytes);
        }
        if n > limit - bytes.len() {
            return Err(ReadFault::TooLong);
        }
        bytes.append(&piece[..n])?;
    }
}

/// Writes the bytes whole. After a refusal the sink has taken the first `written` of them.
#[tactic(auto, using(crate::proofs::Transfers::append_more))]
pub fn write_all<O: Sink>(_alloc: Global, out: &mut O, bytes: &[u8]) -> Result<(), WriteFault>
    ensures ok { OnOk result (Appends (O.held out.old) (O.held out.new) bytes.now) }
    ensures err { IfErr result (λ e. (written_of e ≤ length bytes.now)
        × Appends (O.held out.old) (O.held out.new) (take (written_of e) bytes.now)) }
    ensures counts { WriteCounts result (O.faults out.old) (O.faults out.new) }
{
    let mut written = 0;
    while written < bytes.len() {
        match out.write(&bytes[written..]) {
            Ok(n) => written += n,
            Err(SinkFault::Failed) => return Err(WriteFault::Failed { written }),
            Err(SinkFault::OutOfMemory) => return Err(WriteFault::OutOfMemory { written }),
        }
    }
    Ok(())
}
