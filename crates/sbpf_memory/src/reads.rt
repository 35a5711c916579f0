//! Bytes of a memory, read with the refusals of the caller.
ghost use Rattle.std.specs.Prelude.{◌≡◌, length, IfOk};
ghost use Rattle.spec_base.specs.Reading.{Gives};
ghost use Rattle.sbpf_memory.specs.Plain.{plain_memory};
ghost use Rattle.sbpf_memory.specs.Reads.{bytes_or};

use crate::fault::AccessViolation;
use crate::memory::Memory;
use sol_base::Blob;
use std::alloc::Global;

/// The refusals of calls that read a memory: each has one that carries the access that is refused,
/// and one for lack of memory.
pub trait ReadFault {
    ghost use Rattle.std.specs.Prelude.{◌≡◌, Bool, true, false};
    ghost use Rattle.sbpf_memory.specs.declared.fault.AccessViolation.{AccessViolation as Violation};

    /// The refusal of an access.
    ghost violated: { Violation → Self };

    /// Whether it is out of memory, which no input shows.
    ghost is_memory: { Self → Bool };

    fn access_violation(violation: AccessViolation) -> Self
        ensures value { result ≡ violated violation }
        ensures by_input { is_memory result ≡ false };

    fn out_of_memory() -> Self
        ensures { is_memory result ≡ true };
}

/// The `N` bytes at an address.
#[tactic(auto, using(crate::proofs::Plain::plain))]
pub fn read_array<E: ReadFault, const N: usize>(memory: &Memory, addr: u64) -> Result<[u8; N], E>
    ensures { result ≡ bytes_or E.violated (plain_memory memory.now) addr N }
{
    let mut bytes = [0; N];
    match memory.read(addr, &mut bytes) {
        Ok(()) => Ok(bytes),
        Err(violation) => Err(E::access_violation(violation)),
    }
}

/// The bytes of a range of addresses.
#[tactic(auto, using(crate::proofs::Plain::plain, crate::proofs::Reading::filled))]
pub fn read_bytes<E: ReadFault>(
    alloc: Global,
    memory: &Memory,
    addr: u64,
    len: u64,
) -> Result<Vec<u8>, E>
    ensures bytes { Gives E.is_memory (λ bytes. bytes.items) result
        (bytes_or E.violated (plain_memory memory.now) addr len) }
    ensures count { IfOk result (λ bytes. length bytes.items ≡ len) }
{
    let Ok(mut bytes) = vec![in alloc; 0; len as usize] else {
        return Err(E::out_of_memory());
    };
    match memory.read(addr, bytes.as_mut_slice()) {
        Ok(()) => Ok(bytes),
        Err(violation) => Err(E::access_violation(violation)),
    }
}

/// The bytes of a range of addresses, as a list of its own.
pub fn read_blob<E: ReadFault>(
    alloc: Global,
    memory: &Memory,
    addr: u64,
    len: u64,
) -> Result<Blob, E>
    ensures { Gives E.is_memory (λ bytes. bytes) result
        (bytes_or E.violated (plain_memory memory.now) addr len) }
{
    let bytes = read_bytes::<E>(alloc, memory, addr, len)?;
    match Blob::from_slice(alloc, bytes.as_slice()) {
        Ok(blob) => Ok(blob),
        Err(_) => Err(E::out_of_memory()),
    }
}
