//! What the arrays of a wire hold: signatures, keys, instructions and lookups (Solana).
ghost use Rattle.std.specs.Prelude.{◌≡◌, ◌++◌};

use crate::array::{Spelled, read_blob, write_blob};
use crate::fault::WireFault;
use crate::message::{Instruction, Lookup, Signature};
use format_fields::{Item, key_field};
use sol_base::{Blob, Key, OutOfMemory};
use spec_base::{array_field, byte_field};
use std::alloc::Global;

impl Item<WireFault> for Signature {
    ghost use Rattle.message_codec.specs.WireReading.{signature_at};

    ghost item_at = { signature_at };

    const LEAST_LEN: usize = 64;

    #[tactic(auto, unfolding(spec_base::specs::Reading::read_as))]
    fn read(_alloc: Global, total: usize, bytes: &[u8]) -> Result<(Signature, &[u8]), WireFault> {
        let (field, rest) = array_field::<WireFault, 64>(total, bytes)?;
        Ok((Signature(field), rest))
    }
}

impl Spelled for Signature {
    ghost use Rattle.message_codec.specs.Wire.{signature_bytes};

    ghost item_bytes = { signature_bytes };

    ghost CanSpell = { λ _. Unit {0} };

    fn write(&self, out: &mut Blob) -> Result<(), OutOfMemory> {
        out.append(&self.0)
    }
}

impl Item<WireFault> for Key {
    ghost use Rattle.format_fields.specs.Fields.{key_at};
    ghost use Rattle.message_codec.specs.declared.fault.WireFault.TheVariants.{Truncated};

    ghost item_at = { key_at Truncated };

    const LEAST_LEN: usize = 32;

    fn read(_alloc: Global, total: usize, bytes: &[u8]) -> Result<(Key, &[u8]), WireFault> {
        key_field::<WireFault>(total, bytes)
    }
}

impl Spelled for Key {
    ghost use Rattle.sol_base.specs.Keys.{key_bytes};

    ghost item_bytes = { key_bytes };

    ghost CanSpell = { λ _. Unit {0} };

    fn write(&self, out: &mut Blob) -> Result<(), OutOfMemory> {
        out.append(&self.0)
    }
}

impl Item<WireFault> for Instruction {
    ghost use Rattle.message_codec.specs.WireReading.{instruction_at};

    ghost item_at = { instruction_at };

    const LEAST_LEN: usize = 3;

    #[tactic(auto, unfolding(crate::specs::WireReading::instruction_at))]
    fn read(alloc: Global, total: usize, bytes: &[u8]) -> Result<(Instruction, &[u8]), WireFault> {
        let (program, rest) = byte_field::<WireFault>(total, bytes)?;
        let (accounts, rest) = read_blob(alloc, total, rest)?;
        let (input, rest) = read_blob(alloc, total, rest)?;
        let instruction = Instruction {
            program,
            accounts,
            input,
        };
        Ok((instruction, rest))
    }
}

impl Spelled for Instruction {
    ghost use Rattle.message_codec.specs.Wire.{instruction_bytes, IsCountable};

    ghost item_bytes = { instruction_bytes };

    ghost CanSpell = { λ instruction. IsCountable instruction.accounts
        × IsCountable instruction.input };

    fn write(&self, out: &mut Blob) -> Result<(), OutOfMemory> {
        out.append(&[self.program])?;
        write_blob(out, &self.accounts)?;
        write_blob(out, &self.input)
    }
}

impl Item<WireFault> for Lookup {
    ghost use Rattle.message_codec.specs.WireReading.{lookup_at};

    ghost item_at = { lookup_at };

    const LEAST_LEN: usize = 34;

    #[tactic(auto, unfolding(crate::specs::WireReading::lookup_at))]
    fn read(alloc: Global, total: usize, bytes: &[u8]) -> Result<(Lookup, &[u8]), WireFault> {
        let (table, rest) = key_field::<WireFault>(total, bytes)?;
        let (writable, rest) = read_blob(alloc, total, rest)?;
        let (readonly, rest) = read_blob(alloc, total, rest)?;
        let lookup = Lookup {
            table,
            writable,
            readonly,
        };
        Ok((lookup, rest))
    }
}

impl Spelled for Lookup {
    ghost use Rattle.message_codec.specs.Wire.{lookup_bytes, IsCountable};

    ghost item_bytes = { lookup_bytes };

    ghost CanSpell = { λ lookup. IsCountable lookup.writable × IsCountable lookup.readonly };

    fn write(&self, out: &mut Blob) -> Result<(), OutOfMemory> {
        out.append(&self.table.0)?;
        write_blob(out, &self.writable)?;
        write_blob(out, &self.readonly)
    }
}
