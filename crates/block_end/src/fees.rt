//! The fees of a block: half of the base fees is burned, and the rest is the collector's.
ghost use Rattle.std.specs.Prelude.{◌≡◌, ◌+◌, ◌-◌, ◌^◌, ◌<◌, IfOk, Some, None, if◌then◌else◌};
ghost use Rattle.account_store.specs.State.{at, sum};
ghost use Rattle.fee_rules.specs.Fees.{split_of};
ghost use Rattle.block_end.specs.BlockEnd.{base_fees, priority_fees, may_collect, more, share};

use account_rules::is_a_wallet;
use account_store::Accounts;
use bank_core::SharedOutcome;
use fee_rules::{FeeSplit, split_fees};
use message_codec::reserved;
use rent_rules::minimum;
use sol_base::{Account, Key, OutOfMemory};
use std::alloc::Global;
use std::sync::Arc;

/// How the fees of a block were shared: the accounts then, and the lamports burned and paid.
#[derive(Drop)]
pub(crate) struct Shared {
    pub(crate) accounts: Accounts,
    pub(crate) burned: u64,
    pub(crate) collected: u64,
}

/// The fees that were paid, split (Solana; the rounding is the project's own). They are summed
/// once.
pub(crate) fn split_paid(outcomes: &[SharedOutcome]) -> FeeSplit
    requires { base_fees outcomes.now + priority_fees outcomes.now < 2 ^ 64 }
    ensures { result ≡ split_of (base_fees outcomes.now) (priority_fees outcomes.now) }
{
    let mut base = 0;
    let mut priority = 0;
    for share in outcomes {
        let outcome = share.value();
        base += outcome.base_paid;
        priority += outcome.priority_paid;
    }
    split_fees(base, priority)
}

/// Whether the collector may have the account with so many lamports.
fn may_collect(collector: &Key, account: &Account, lamports: u64) -> bool
    ensures { result ≡ may_collect collector.now (record account.now { lamports = lamports }) }
{
    !reserved(collector) && is_a_wallet(account) && minimum(0) <= lamports
}

/// The account with so many lamports more, where the collector may have it.
fn with_more(
    collector: &Key,
    account: &Account,
    lamports: u64,
) -> Result<Option<Account>, OutOfMemory>
    requires { account.now.lamports + lamports < 2 ^ 64 }
    ensures { IfOk result (λ paid. paid ≡ (let account = more account.now lamports in
        if may_collect collector.now account then Some account else None)) }
{
    let lamports = account.lamports + lamports;
    if !may_collect(collector, account, lamports) {
        return Ok(None);
    }
    Ok(Some(Account {
        lamports,
        owner: account.owner,
        executable: account.executable,
        bytes: account.bytes.try_copy()?,
    }))
}

/// The account of the collector with so many lamports more, where it may have it.
fn paid_account(
    alloc: Global,
    accounts: &Accounts,
    collector: &Key,
    lamports: u64,
) -> Result<Option<Account>, OutOfMemory>
    requires { (at accounts.now collector.now).lamports + lamports < 2 ^ 64 }
    ensures { IfOk result
        (λ paid. paid ≡ (let account = more (at accounts.now collector.now) lamports in
        if may_collect collector.now account then Some account else None)) }
{
    match accounts.get(collector) {
        Some(account) => with_more(collector, account, lamports),
        None => with_more(collector, &Account::empty(alloc), lamports),
    }
}

/// Pays the collector what is left of the fees, where it may have it; else that is burned too.
pub(crate) fn share_split(
    alloc: Global,
    accounts: Accounts,
    collector: &Key,
    split: FeeSplit,
) -> Result<Shared, OutOfMemory>
    requires { sum accounts + split.burned + split.rest < 2 ^ 64 }
    ensures { IfOk result (λ shared. (record {
      accounts = shared.accounts;
      burned = shared.burned;
      collected = shared.collected;
    })
        ≡ share accounts collector.now split) }
{
    let FeeSplit { burned, rest } = split;
    if rest != 0
        && let Some(paid) = paid_account(alloc, &accounts, collector, rest)?
    {
        let mut accounts = accounts;
        accounts.put(*collector, Arc::new(alloc, paid)?)?;
        return Ok(Shared {
            accounts,
            burned,
            collected: rest,
        });
    }
    Ok(Shared {
        accounts,
        burned: burned + rest,
        collected: 0,
    })
}
