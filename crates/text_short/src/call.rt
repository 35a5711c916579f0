//! Instructions from their parts.
ghost use Rattle.std.specs.Prelude.{◌≡◌, IfOk};
ghost use Rattle.std.specs.List.{flat_map};
ghost use Rattle.text_short.specs.Calls.{call};

use sol_base::{Blob, Items, Key, OutOfMemory};
use std::alloc::Global;
use tx_build::{AccountMeta, KeyedInstruction};

/// A call of the program, whose input is the fields, one after the other.
pub(crate) fn call(
    alloc: Global,
    program: Key,
    accounts: &[AccountMeta],
    fields: &[&[u8]],
) -> Result<KeyedInstruction, OutOfMemory>
    ensures { IfOk result (λ i. i ≡ call program accounts.now (flat_map (λ f. f.now) fields.now)) }
{
    let mut input = Blob::new(alloc);
    for field in fields {
        input.append(field)?;
    }
    Ok(KeyedInstruction {
        program,
        accounts: Items::from_vec(Vec::from_slice(alloc, accounts)?),
        input,
    })
}
