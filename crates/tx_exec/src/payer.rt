//! The fee payer.
ghost use Rattle.std.specs.Prelude.{◌≡◌, ◌++◌, ◌≤◌, [], None, IfOk, OnOk};
ghost use Rattle.sol_base.specs.Accounts.{AreShort, IsShort, accounts_of, max_data_len};
ghost use Rattle.rent_rules.specs.Rent.{moves, rent_state_of, rent_of};
ghost use Rattle.tx_exec.specs.Payer.{charged, drop_cause, dropped, less};

use account_rules::is_a_wallet;
use rent_rules::{may_move, rent_state};
use sol_base::{Account, Items, OutOfMemory};
use std::alloc::Global;
use std::sync::Arc;
use tx_report::DropCause;

/// Why the first of the accounts cannot pay this fee, if it cannot.
pub fn why_dropped(values: &[Arc<Account>], fee: u64) -> Option<DropCause>
    requires { AreShort (accounts_of values.now) }
    ensures { result ≡ dropped (accounts_of values.now) fee }
{
    match values {
        [] => Some(DropCause::PayerAbsent),
        [payer, ..] => why_unpaid(payer, fee),
    }
}

fn why_unpaid(payer: &Account, fee: u64) -> Option<DropCause>
    requires { IsShort payer.now }
    ensures { result ≡ drop_cause payer.now fee }
{
    if payer.lamports == 0 {
        Some(DropCause::PayerAbsent)
    } else if !is_a_wallet(payer) {
        Some(DropCause::PayerNotSystem)
    } else if payer.lamports < fee {
        Some(DropCause::CannotPayFee)
    } else if !may_become(payer, payer.lamports - fee, payer.bytes.len()) {
        Some(DropCause::PayerRent)
    } else {
        None
    }
}

/// Whether the rent lets an account come to that balance and that many data bytes.
pub fn may_become(before: &Account, lamports: u64, len: usize) -> bool
    requires before { IsShort before.now }
    requires after { len ≤ max_data_len }
    ensures { result ≡ moves (rent_of before.now) (rent_state_of lamports len) }
{
    let old = rent_state(before.lamports, before.bytes.len() as u64);
    let new = rent_state(lamports, len as u64);
    may_move(&old, &new)
}

/// The accounts once the first of them has paid the fee.
pub fn charge(
    alloc: Global,
    values: &[Arc<Account>],
    fee: u64,
) -> Result<Items<Arc<Account>>, OutOfMemory>
    requires { dropped (accounts_of values.now) fee ≡ None }
    ensures { IfOk result (λ base. accounts_of base ≡ charged (accounts_of values.now) fee) }
{
    let mut base = Items::with_capacity(alloc, values.len())?;
    if let [payer, others @ ..] = values {
        base.push(Arc::new(alloc, charge_one(payer, fee)?)?)?;
        share_each(&mut base, others)?;
    }
    Ok(base)
}

fn charge_one(payer: &Account, fee: u64) -> Result<Account, OutOfMemory>
    requires { drop_cause payer.now fee ≡ None }
    ensures { IfOk result (λ left. left ≡ less payer.now fee) }
{
    let mut left = payer.try_copy()?;
    left.lamports -= fee;
    Ok(left)
}

/// Adds shares of all accounts.
fn share_each(into: &mut Items<Arc<Account>>, values: &[Arc<Account>]) -> Result<(), OutOfMemory>
    ensures { OnOk result (accounts_of into.new ≡ accounts_of into.old ++ accounts_of values.now) }
{
    for value in values {
        into.push(Arc::try_clone(value)?)?;
    }
    Ok(())
}
