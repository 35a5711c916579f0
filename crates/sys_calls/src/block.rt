//! The calls that tell of the block.
ghost use Rattle.std.specs.Prelude.{◌≡◌, OnErr};
ghost use Rattle.std.specs.Int.{w64, to_le_bytes};
ghost use Rattle.spec_base.specs.Reading.{Gives};
ghost use Rattle.sbpf_memory.specs.Plain.{plain_memory};
ghost use Rattle.sys_calls.specs.Access.{is_sys_memory, bytes_written};
ghost use Rattle.sys_calls.specs.SysCalls.{rent_bytes as bytes_of_rent};

use crate::access::write;
use crate::fault::SysFault;
use rent_rules::{EXEMPTION_YEARS, LAMPORTS_PER_BYTE_YEAR};
use sbpf_memory::Memory;

/// Writes the block's slot, 8 bytes (the project's own).
pub(crate) fn get_slot(result_at: u64, slot: u64, memory: &mut Memory) -> Result<(), SysFault>
    ensures answer { Gives is_sys_memory (λ _. plain_memory memory.new) result
        (bytes_written (plain_memory memory.old) result_at (to_le_bytes w64 slot)) }
    ensures refused { OnErr result (plain_memory memory.new ≡ plain_memory memory.old) }
    ensures lent { memory.new.input.lent ≡ memory.old.input.lent }
{
    write(memory, result_at, &slot.to_le_bytes())
}

/// Writes the numbers of the rent, 8 bytes each (the project's own).
pub(crate) fn get_rent(result_at: u64, memory: &mut Memory) -> Result<(), SysFault>
    ensures answer { Gives is_sys_memory (λ _. plain_memory memory.new) result
        (bytes_written (plain_memory memory.old) result_at bytes_of_rent) }
    ensures refused { OnErr result (plain_memory memory.new ≡ plain_memory memory.old) }
    ensures lent { memory.new.input.lent ≡ memory.old.input.lent }
{
    write(memory, result_at, &rent_bytes())
}

fn rent_bytes() -> [u8; 16]
    ensures { result ≡ bytes_of_rent }
{
    let [a, b, c, d, e, f, g, h] = LAMPORTS_PER_BYTE_YEAR.to_le_bytes();
    let [i, j, k, l, m, n, o, p] = EXEMPTION_YEARS.to_le_bytes();
    [a, b, c, d, e, f, g, h, i, j, k, l, m, n, o, p]
}
