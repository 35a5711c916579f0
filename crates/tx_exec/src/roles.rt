//! What the keys of a transaction may do in its instructions.
ghost use Rattle.std.specs.Prelude.{◌≡◌, ◌<◌, length, map, All, IfOk};
ghost use Rattle.message_codec.specs.Roles.{all_keys};
ghost use Rattle.admission.specs.Chosen.{IsChosen};
ghost use Rattle.tx_exec.specs.Executing.{meta_of};

use admission::Chosen;
use message_codec::{Instruction, is_signer};
use sol_base::{Items, Meta, OutOfMemory};
use std::alloc::Global;

/// The rights that the message gives the accounts of an instruction.
pub fn metas_of(
    alloc: Global,
    chosen: &Chosen,
    instruction: &Instruction,
) -> Result<Items<Meta>, OutOfMemory>
    requires chosen { IsChosen chosen.now }
    requires there { All
        (λ place. place < length (all_keys chosen.now.tx.message chosen.now.loaded))
        instruction.now.accounts }
    ensures { IfOk result (λ metas. metas ≡ map (meta_of chosen.now) instruction.now.accounts) }
{
    let accounts = instruction.accounts.as_slice();
    let mut metas = Items::with_capacity(alloc, accounts.len())?;
    for place in accounts {
        metas.push(meta_at(chosen, *place))?;
    }
    Ok(metas)
}

/// Those of the account at a place among the keys.
fn meta_at(chosen: &Chosen, place: u8) -> Meta
    requires chosen { IsChosen chosen.now }
    requires there { place < length (all_keys chosen.now.tx.message chosen.now.loaded) }
    ensures { result ≡ meta_of chosen.now place }
{
    Meta {
        index: place,
        signer: is_signer(&chosen.tx.message, place),
        writable: chosen.locks.as_slice()[usize::from(place)].write,
    }
}
