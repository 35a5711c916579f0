//! The account rules over all accounts of a frame.
ghost use Rattle.std.specs.Prelude.{◌≡◌, ◌≤◌, ◌↔◌, IsTrue, IsSomeAnd, OnOk, length, slice_get, false, Some};
ghost use Rattle.std.specs.Option.{ForSome};
ghost use Rattle.sol_base.specs.Accounts.{accounts_of, lamports_in, SameUnlessTouched};
ghost use Rattle.sol_base.specs.Metas.{max_metas};
ghost use Rattle.account_rules.specs.AccountRules.{AreParallel, rules};
ghost use Rattle.account_rules.specs.KeptAccounts.{AreKept};

use crate::account::broken_at;
use sol_base::{Account, Key};
use std::sync::Arc;
use thiserror::Error;

/// A broken rule. `i` is the place of the account: in the lists of `check` and `check_touched`, and
/// for `check_listed` the place of its first meta.
#[derive(Clone, Copy, Debug, PartialEq, Eq, Error)]
pub enum RuleFault {
    #[error("account {i} is read-only and was changed")]
    ReadonlyChanged { i: u8 },
    #[error("account {i} is executable and was changed, or its executable flag was")]
    ExecutableChanged { i: u8 },
    #[error("account {i} may not be given to another owner")]
    OwnerChange { i: u8 },
    #[error("account {i} lost lamports and the program does not own it")]
    ForeignDebit { i: u8 },
    #[error("the data of account {i} were changed and the program does not own it")]
    ForeignData { i: u8 },
    #[error("account {i} has more than 10,485,760 data bytes")]
    TooLarge { i: u8 },
    #[error("the lamports of the accounts no longer have the same sum")]
    Unbalanced,
}

/// The first rule that the accounts of a frame break, if there is one (Solana; that executable
/// accounts stay, and the order, are the project's own). `writable` says of each account whether
/// the frame may write it; `before` and `after` are the accounts before and after a stretch of
/// the program's work.
pub fn check(
    program: &Key,
    writable: &[bool],
    before: &[Arc<Account>],
    after: &[Arc<Account>],
) -> Result<(), RuleFault>
    requires lists { AreParallel writable.now (accounts_of before.now) (accounts_of after.now) }
    requires most { length writable.now ≤ max_metas }
    ensures exact { result ≡ rules program.now writable.now
        (accounts_of before.now) (accounts_of after.now) }
    ensures kept { OnOk result (AreKept program.now writable.now
        (accounts_of before.now) (accounts_of after.now)) }
{
    check_each(program, writable, None, before, after)
}

/// What `check` returns, for a caller that knows which accounts the program wrote. `touched` says
/// of each account whether it may differ; one that is not touched must have the same value before
/// and after. No data byte of such an account is read, only their number, so the time goes by what
/// was written and not by all that the frame holds. Its lamports count in the sums as ever.
pub fn check_touched(
    program: &Key,
    writable: &[bool],
    touched: &[bool],
    before: &[Arc<Account>],
    after: &[Arc<Account>],
) -> Result<(), RuleFault>
    requires lists { AreParallel writable.now (accounts_of before.now) (accounts_of after.now) }
    requires marks { AreParallel touched.now (accounts_of before.now) (accounts_of after.now) }
    requires most { length writable.now ≤ max_metas }
    requires untouched { SameUnlessTouched touched.now
        (accounts_of before.now) (accounts_of after.now) }
    ensures exact { result ≡ rules program.now writable.now
        (accounts_of before.now) (accounts_of after.now) }
    ensures kept { OnOk result (AreKept program.now writable.now
        (accounts_of before.now) (accounts_of after.now)) }
{
    check_each(program, writable, Some(touched), before, after)
}

/// Account by account, and then the sums. Where no flags are given, each account counts as touched.
fn check_each(
    program: &Key,
    writable: &[bool],
    touched: Option<&[bool]>,
    before: &[Arc<Account>],
    after: &[Arc<Account>],
) -> Result<(), RuleFault>
    requires lists { AreParallel writable.now (accounts_of before.now) (accounts_of after.now) }
    requires most { length writable.now ≤ max_metas }
    requires untouched { ForSome touched (λ flags. SameUnlessTouched flags.now
        (accounts_of before.now) (accounts_of after.now)) }
    ensures exact { result ≡ rules program.now writable.now
        (accounts_of before.now) (accounts_of after.now) }
    ensures kept { OnOk result (AreKept program.now writable.now
        (accounts_of before.now) (accounts_of after.now)) }
{
    for i in 0..writable.len() {
        let same = is_untouched(touched, i);
        if let Some(fault) = broken_at(program, writable[i], same, &before[i], &after[i], i as u8) {
            return Err(fault);
        }
    }
    if sum_of(before) != sum_of(after) {
        return Err(RuleFault::Unbalanced);
    }
    Ok(())
}

fn is_untouched(touched: Option<&[bool]>, i: usize) -> bool
    ensures { IsTrue result
        ↔ IsSomeAnd touched.entry (λ flags. slice_get flags.now i ≡ Some false) }
{
    touched.is_some_and(|flags| i < flags.len() && !flags[i])
}

/// The lamports of the accounts together.
pub(crate) fn sum_of(accounts: &[Arc<Account>]) -> u128
    ensures { result ≡ lamports_in (accounts_of accounts.now) }
{
    accounts
        .iter()
        .map(|account| account.lamports as u128)
        .sum()
}
