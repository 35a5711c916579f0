//! The calls that copy, compare and fill bytes.
ghost use Rattle.std.specs.Prelude.{◌≡◌, ◌==◌, true, false, OnErr, length, replicate, None, Ok};
ghost use Rattle.std.specs.Option.{option_map};
ghost use Rattle.spec_base.specs.Reading.{Gives};
ghost use Rattle.sbpf_memory.specs.Memory.{IsPrepared, write_refusal, write_to};
ghost use Rattle.sbpf_memory.specs.Plain.{plain_memory};
ghost use Rattle.sys_calls.specs.Access.{is_sys_memory, bytes_copied, IsReadable, held};
ghost use Rattle.sys_calls.specs.SysCalls.{compared, filled, first_difference as difference_in, differing, difference};

use crate::access::{PIECE, check_read, prepare, read_piece, write};
use crate::fault::SysFault;
use sbpf_memory::Memory;

/// Copies bytes between ranges that do not meet.
#[tactic(auto, using(sbpf_memory::proofs::Plain::plain))]
pub(crate) fn memcpy(to: u64, from: u64, count: u64, memory: &mut Memory) -> Result<(), SysFault>
    ensures answer { Gives is_sys_memory (λ _. plain_memory memory.new) result
        (bytes_copied (plain_memory memory.old) to from count true) }
    ensures refused { OnErr result (plain_memory memory.new ≡ plain_memory memory.old) }
    ensures lent { memory.new.input.lent ≡ memory.old.input.lent }
{
    memory.copy(to, from, count, true)?;
    Ok(())
}

/// Copies bytes.
#[tactic(auto, using(sbpf_memory::proofs::Plain::plain))]
pub(crate) fn memmove(to: u64, from: u64, count: u64, memory: &mut Memory) -> Result<(), SysFault>
    ensures answer { Gives is_sys_memory (λ _. plain_memory memory.new) result
        (bytes_copied (plain_memory memory.old) to from count false) }
    ensures refused { OnErr result (plain_memory memory.new ≡ plain_memory memory.old) }
    ensures lent { memory.new.input.lent ≡ memory.old.input.lent }
{
    memory.copy(to, from, count, false)?;
    Ok(())
}

/// Compares the bytes of two ranges, and writes the difference of the first two that differ.
#[tactic(auto, unfolding(crate::specs::SysCalls::compared, crate::specs::Access::held))]
pub(crate) fn memcmp(
    one: u64,
    other: u64,
    count: u64,
    result_at: u64,
    memory: &mut Memory,
) -> Result<(), SysFault>
    ensures answer { Gives is_sys_memory (λ _. plain_memory memory.new) result
        (compared (plain_memory memory.old) one other count result_at) }
    ensures refused { OnErr result (plain_memory memory.new ≡ plain_memory memory.old) }
    ensures lent { memory.new.input.lent ≡ memory.old.input.lent }
{
    check_read(memory, one, count)?;
    check_read(memory, other, count)?;
    let difference = difference_between(one, other, count, memory);
    write(memory, result_at, &difference.to_le_bytes())
}

/// The difference of the first two bytes that differ, or 0.
fn difference_between(one: u64, other: u64, count: u64, memory: &Memory) -> u32
    requires one { IsReadable (plain_memory memory.now) one count }
    requires other { IsReadable (plain_memory memory.now) other count }
    ensures { result ≡ difference_in (held (plain_memory memory.now) one count)
        (held (plain_memory memory.now) other count) }
{
    memory.is_memory();
    let mut first = [0; PIECE];
    let mut second = [0; PIECE];
    let mut at = 0;
    while at < count {
        let a = read_piece(memory, one, count, at, &mut first);
        let b = read_piece(memory, other, count, at, &mut second);
        match first_difference(a, b) {
            Some(difference) => return difference,
            None => at += a.len() as u64,
        }
    }
    0
}

/// The difference of the first two bytes that differ, as a number of 32 bits with a sign.
#[tactic(auto, using(crate::proofs::Differences::differences, std::proofs::lemmas::Bool::Decides::nat_tests))]
fn first_difference(one: &[u8], other: &[u8]) -> Option<u32>
    requires { length one.now ≡ length other.now }
    ensures { result ≡ option_map difference (differing one.now other.now) }
{
    for i in 0..one.len() {
        let a = one[i];
        let b = other[i];
        if a != b {
            return Some(u32::from(a).wrapping_sub(u32::from(b)));
        }
    }
    None
}

/// Fills a range with the low byte of a number.
#[tactic(auto, using(crate::proofs::Prepares::refusals))]
pub(crate) fn memset(to: u64, byte: u64, count: u64, memory: &mut Memory) -> Result<(), SysFault>
    ensures answer { Gives is_sys_memory (λ _. plain_memory memory.new) result
        (filled (plain_memory memory.old) to byte count) }
    ensures refused { OnErr result (plain_memory memory.new ≡ plain_memory memory.old) }
    ensures lent { memory.new.input.lent ≡ memory.old.input.lent }
{
    prepare(memory, to, count)?;
    fill(memory, to, count, (byte % 256) as u8);
    Ok(())
}

/// Fills a range that was made ready for, piece by piece.
fn fill(memory: &mut Memory, to: u64, count: u64, byte: u8)
    requires free { write_refusal memory.old to count ≡ None }
    requires ready { IsPrepared memory.old to count }
    ensures { write_to memory.old to (replicate count byte) ≡ Ok memory.new }
{
    memory.is_memory();
    let piece = [byte; PIECE];
    let mut at = 0;
    while at < count {
        let len = (count - at).min(PIECE as u64);
        // it was made ready for, so that it is done
        let _ = memory.write(to + at, &piece[..len as usize]);
        at += len;
    }
}
