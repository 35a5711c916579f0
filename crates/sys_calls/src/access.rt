//! Reads and writes of calls.
ghost use Rattle.std.specs.Prelude.{◌≡◌, ◌-◌, ◌<◌, min, false, length, take, drop, None, OnOk, OnErr, MatchResult};
ghost use Rattle.spec_base.specs.Reading.{Gives};
ghost use Rattle.sbpf_memory.specs.Memory.{KeepsBytes, IsPrepared, violation_of, write_refusal};
ghost use Rattle.sbpf_memory.specs.Plain.{plain_memory};
ghost use Rattle.sys_calls.specs.Access.{is_sys_memory, bytes_read, bytes_written, violated_by, IsReadable, held, refused_read, write_checked};

use crate::fault::SysFault;
use sbpf_memory::{AccessViolation, MemFault, Memory};

/// The bytes of a piece, in which long ranges are read and written.
pub(crate) const PIECE: usize = 1024;

/// Writes the bytes at an address.
#[tactic(auto, using(sbpf_memory::proofs::Plain::plain))]
pub(crate) fn write(memory: &mut Memory, addr: u64, bytes: &[u8]) -> Result<(), SysFault>
    ensures answer { Gives is_sys_memory (λ _. plain_memory memory.new) result
        (bytes_written (plain_memory memory.old) addr bytes.now) }
    ensures refused { OnErr result (plain_memory memory.new ≡ plain_memory memory.old) }
    ensures lent { memory.new.input.lent ≡ memory.old.input.lent }
{
    memory.write(addr, bytes)?;
    Ok(())
}

/// Makes ready for writes that take no memory. It is refused where a write is.
pub(crate) fn prepare(memory: &mut Memory, addr: u64, len: u64) -> Result<(), SysFault>
    ensures free { OnOk result
        ((write_refusal memory.old addr len ≡ None) × IsPrepared memory.new addr len) }
    ensures refused { Gives is_sys_memory (λ _. tt) result (write_checked memory.old addr len) }
    ensures bytes { KeepsBytes memory.old memory.new }
{
    memory.prepare(addr, len)?;
    Ok(())
}

/// Whether a read is refused. A copy of a range onto itself that is to be apart is refused in
/// any case, and its refusal tells whether the read is.
#[tactic(auto, using(sbpf_memory::proofs::Plain::plain))]
pub(crate) fn check_read(memory: &mut Memory, addr: u64, len: u64) -> Result<(), SysFault>
    ensures answer { MatchResult result
        (λ _. IsReadable (plain_memory memory.old) addr len)
        (λ fault. (fault ≡ violated_by (violation_of addr len false))
        × (bytes_read (plain_memory memory.old) addr len ≡ Err fault)) }
    ensures memory { memory.new ≡ memory.old }
{
    if len == 0 {
        return Ok(());
    }
    read_refusal(memory.copy(addr, addr, len, true))
}

/// The refusal of the read of a copy.
fn read_refusal(copied: Result<(), MemFault>) -> Result<(), SysFault>
    ensures { result ≡ refused_read copied }
{
    match copied {
        Err(MemFault::AccessViolation { addr, len, write }) => {
            if write {
                Ok(())
            } else {
                Err(SysFault::AccessViolation(AccessViolation { addr, len, write }))
            }
        }
        _ => Ok(()),
    }
}

/// The piece from a place on of a range that may be read.
#[tactic(auto, using(sbpf_memory::proofs::Plain::plain))]
pub(crate) fn read_piece<'a>(
    memory: &Memory,
    addr: u64,
    len: u64,
    at: u64,
    buffer: &'a mut [u8; PIECE],
) -> &'a [u8]
    requires place { at < len }
    requires readable { IsReadable (plain_memory memory.now) addr len }
    ensures bytes { result.now ≡ take (min PIECE (len - at))
        (drop at (held (plain_memory memory.now) addr len)) }
    ensures count { length result.now ≡ min PIECE (len - at) }
{
    memory.is_memory();
    let count = (len - at).min(PIECE as u64) as usize;
    let piece = &mut buffer[..count];
    let _ = memory.read(addr + at, piece);
    piece
}
