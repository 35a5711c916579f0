//! The account rules over the accounts that a frame lists.
ghost use Rattle.std.specs.Prelude.{◌≡◌, ◌∷◌, [], ℕ, ◌≤◌, OnOk, length, slice_get};
ghost use Rattle.sol_base.specs.Accounts.{accounts_of, SameUnlessTouched};
ghost use Rattle.sol_base.specs.Metas.{AreInRange, SameUnlessListed, is_listed_writable, max_metas};
ghost use Rattle.account_rules.specs.AccountRules.{AreFlagsOf, AreParallel, listed_faults, listed_rules};
ghost use Rattle.account_rules.specs.KeptAccounts.{AreKeptBy, AreForeignKept};

use crate::account::broken_at;
use crate::rules::{RuleFault, sum_of};
use sol_base::{Account, Key, Meta};
use std::sync::Arc;

/// What `check` returns for the accounts that a frame lists, each once and in the order of their
/// first metas, told as lists of all accounts of the transaction. An account has the rights of all
/// its metas together, and the place of a fault is that of its first meta. `touched` says of each
/// account of the transaction whether it may differ; one that is not touched, or not listed, must
/// have the same value before and after. Only the data of listed and touched accounts are read. The
/// time goes by the number of metas, of accounts and of the bytes so read.
pub fn check_listed(
    program: &Key,
    metas: &[Meta],
    touched: &[bool],
    before: &[Arc<Account>],
    after: &[Arc<Account>],
) -> Result<(), RuleFault>
    requires lists { AreParallel touched.now (accounts_of before.now) (accounts_of after.now) }
    requires range { AreInRange (length (accounts_of before.now)) metas.now }
    requires most { length metas.now ≤ max_metas }
    requires unlisted { SameUnlessListed metas.now
        (accounts_of before.now) (accounts_of after.now) }
    requires untouched { SameUnlessTouched touched.now
        (accounts_of before.now) (accounts_of after.now) }
    ensures exact { result ≡ listed_rules program.now metas.now
        (accounts_of before.now) (accounts_of after.now) }
    ensures kept { OnOk result (AreKeptBy (is_listed_writable metas.now)
        (accounts_of before.now) (accounts_of after.now)) }
    ensures foreign { OnOk result (AreForeignKept (program.now ∷ [])
        (accounts_of before.now) (accounts_of after.now)) }
{
    if let Some(fault) = first_fault(program, metas, touched, before, after) {
        return Err(fault);
    }
    if sum_of(before) != sum_of(after) {
        return Err(RuleFault::Unbalanced);
    }
    Ok(())
}

/// The first rule that a single account breaks. `seen` marks the accounts of the metas so far.
fn first_fault(
    program: &Key,
    metas: &[Meta],
    touched: &[bool],
    before: &[Arc<Account>],
    after: &[Arc<Account>],
) -> Option<RuleFault>
    requires lists { AreParallel touched.now (accounts_of before.now) (accounts_of after.now) }
    requires range { AreInRange (length (accounts_of before.now)) metas.now }
    requires most { length metas.now ≤ max_metas }
    requires untouched { SameUnlessTouched touched.now
        (accounts_of before.now) (accounts_of after.now) }
    ensures { result ≡ slice_get (listed_faults program.now metas.now
        (accounts_of before.now) (accounts_of after.now)) 0 }
{
    let writable = writable_flags(metas);
    let mut seen = [false; 256];
    for (at, meta) in metas.iter().enumerate() {
        let place = meta.index as usize;
        if seen[place] {
            continue;
        }
        seen[place] = true;
        let same = !touched[place];
        let fault = broken_at(
            program,
            writable[place],
            same,
            &before[place],
            &after[place],
            at as u8,
        );
        if let Some(fault) = fault {
            return Some(fault);
        }
    }
    None
}

/// Of each place whether the account there is writable.
fn writable_flags(metas: &[Meta]) -> [bool; 256]
    ensures { AreFlagsOf (is_listed_writable metas.now) result }
{
    let mut flags = [false; 256];
    for meta in metas {
        if meta.writable {
            flags[meta.index as usize] = true;
        }
    }
    flags
}
