//! What a core ends with.
ghost use Rattle.std.specs.Prelude.{◌≡◌, ◌++◌, ◌∷◌, [], IfOk, OnOk, length, option_to_list};
ghost use Rattle.std.specs.List.{flat_map, zip};
ghost use Rattle.bank_core.specs.Slots.{held_in};

use crate::shared_outcome::SharedOutcome;
use account_store::Accounts;
use lock_table::KeyTable;
use sol_base::{Account, Items, Key, OutOfMemory};
use std::alloc::Global;
use std::sync::Arc;

/// What a core ends with: the accounts, and the outcome of each position.
#[derive(Drop)]
pub struct Sealed {
    pub accounts: Accounts,
    pub outcomes: Items<SharedOutcome>,
}

/// Adds the account of a slot beside its key, where it has lamports.
fn push_held(
    held: &mut Vec<(Key, Arc<Account>)>,
    key: Key,
    slot: Option<Arc<Account>>,
) -> Result<(), OutOfMemory>
    ensures { OnOk result (held.new.items ≡ held.old.items ++ held_in ((key, slot) ∷ [])) }
{
    if let Some(account) = slot {
        if account.lamports > 0 {
            held.push((key, account))?;
        }
    }
    Ok(())
}

/// The accounts of slots that have lamports, each beside the key of its number.
pub(crate) fn held_of(
    alloc: Global,
    table: &KeyTable,
    slots: Vec<Option<Arc<Account>>>,
) -> Result<Vec<(Key, Arc<Account>)>, OutOfMemory>
    requires { length slots.items ≡ length table.now }
    ensures { IfOk result (λ held. held.items ≡ held_in (zip table.now slots.items)) }
{
    // Its contract tells that a u32 counts the keys.
    let _len = table.len();
    let mut held = Vec::new(alloc);
    let mut at = 0;
    for slot in slots {
        push_held(&mut held, table.key(at), slot)?;
        at += 1;
    }
    Ok(held)
}

/// The outcomes that are there.
pub(crate) fn all_outcomes(
    alloc: Global,
    outcomes: Vec<Option<SharedOutcome>>,
) -> Result<Items<SharedOutcome>, OutOfMemory>
    ensures { IfOk result (λ all. all ≡ flat_map option_to_list outcomes.items) }
{
    let mut all = Items::with_capacity(alloc, outcomes.len())?;
    for outcome in outcomes {
        if let Some(outcome) = outcome {
            all.push(outcome)?;
        }
    }
    Ok(all)
}
