//! A transaction on the values of its keys.
ghost use Rattle.std.specs.Prelude.{◌≡◌, ◌<◌, ◌≤◌, [], None, length, IfOk, IfSome};
ghost use Rattle.sol_base.specs.Accounts.{accounts_of};
ghost use Rattle.sol_base.specs.Limits.{max_stack_height};
ghost use Rattle.message_codec.specs.Roles.{all_keys};
ghost use Rattle.bank_core.specs.Effects.{effects_seen};
ghost use Rattle.bank_law.specs.Lawful.{Fits};
ghost use Rattle.admission.specs.Chosen.{IsChosen};
ghost use Rattle.invoke_engine.specs.Invoked.{fixed_in};
ghost use Rattle.tx_exec.specs.Executing.{locks};
ghost use Rattle.tx_report.specs.declared.status.Status.TheVariants.{Dropped};
ghost use Rattle.tx_exec.specs.Payer.{charged, dropped, total_fee};
ghost use Rattle.tx_exec.specs.Transaction.{by_drop, came_to, effects, effects_as, failing, finishing, no_fee, paid, rent_broken};
ghost use Rattle.tx_exec.specs.AdmittedBlock.{block_of};

use crate::admitted::AdmittedBlock;
use crate::ending::{data_of, find_broken_rent, written_of};
use crate::executing::{Executed, execute};
use crate::failure::Failure;
use crate::payer::{charge, why_dropped};
use crate::transaction::Transaction;
use admission::Chosen;
use bank_core::{Effects, SharedOutcome};
use fee_rules::total;
use invoke_engine::{Context, Setting, Unwatched, Watch};
use message_codec::keys_of;
use sol_base::{Account, Blob, Items, Key, OutOfMemory};
use std::alloc::Global;
use std::sync::Arc;
use tx_report::{Cause, DropCause, Outcome, Status, WHOLE_TRANSACTION};

/// Performs a transaction (Solana; docs/SOLANA.md lists what is the project's own): its fee is
/// taken, its instructions run one after another, and the rent of what it wrote is looked at. One
/// that fails leaves its fee alone, one that is dropped nothing.
pub fn perform_one(
    alloc: Global,
    block: &AdmittedBlock,
    chosen: &Chosen,
    values: &[Arc<Account>],
) -> Result<Effects, OutOfMemory>
    requires height { (1 ≤ block.now.height) × (block.now.height ≤ max_stack_height) }
    requires chosen { IsChosen chosen.now }
    requires fits { Fits chosen.now.locks (accounts_of values.now) }
    ensures { IfOk result (λ e. effects_seen e
        ≡ effects (block_of block.now) chosen.now (accounts_of values.now)) }
{
    watch_one(alloc, block, chosen, values, &mut Unwatched)
}

/// Performs a transaction of a block for one who sees its frames.
pub fn watch_one<W: Watch>(
    alloc: Global,
    block: &AdmittedBlock,
    chosen: &Chosen,
    values: &[Arc<Account>],
    watch: &mut W,
) -> Result<Effects, OutOfMemory>
    requires height { (1 ≤ block.now.height) × (block.now.height ≤ max_stack_height) }
    requires chosen { IsChosen chosen.now }
    requires fits { Fits chosen.now.locks (accounts_of values.now) }
    ensures { IfOk result (λ e. effects_seen e
        ≡ effects (block_of block.now) chosen.now (accounts_of values.now)) }
{
    let message = &chosen.tx.message;
    let loaded = &chosen.loaded;
    if loaded.writable.is_empty() && loaded.readonly.is_empty() {
        return perform_with(alloc, block, chosen, message.keys.as_slice(), values, watch);
    }
    let keys = keys_of(alloc, message, loaded)?;
    perform_with(alloc, block, chosen, keys.as_slice(), values, watch)
}

/// Performs a transaction whose keys these are.
#[tactic(auto, unfolding(crate::specs::Transaction::transaction))]
fn perform_with<'a, W: Watch>(
    alloc: Global,
    block: &'a AdmittedBlock,
    chosen: &'a Chosen,
    keys: &'a [Key],
    values: &[Arc<Account>],
    watch: &mut W,
) -> Result<Effects, OutOfMemory>
    requires height { (1 ≤ block.now.height) × (block.now.height ≤ max_stack_height) }
    requires chosen { IsChosen chosen.now }
    requires keys { keys.now ≡ all_keys chosen.now.tx.message chosen.now.loaded }
    requires fits { Fits chosen.now.locks (accounts_of values.now) }
    ensures { IfOk result (λ e. effects_seen e
        ≡ effects (block_of block.now) chosen.now (accounts_of values.now)) }
{
    let setting = Setting {
        slot: block.slot,
        heap: chosen.budget.heap,
        height: block.height,
    };
    let context = Context {
        alloc,
        programs: &block.programs,
        setting,
        keys,
    };
    perform(&Transaction { context, chosen }, values, watch)
}

/// Performs a transaction, once what is fixed over it is at hand.
fn perform<W: Watch>(
    transaction: &Transaction<'_>,
    values: &[Arc<Account>],
    watch: &mut W,
) -> Result<Effects, OutOfMemory>
    requires height { (1 ≤ transaction.now.context.setting.height)
        × (transaction.now.context.setting.height ≤ max_stack_height) }
    requires chosen { IsChosen transaction.now.chosen.now }
    requires keys { transaction.now.context.keys
        ≡ all_keys transaction.now.chosen.now.tx.message transaction.now.chosen.now.loaded }
    requires fits { Fits transaction.now.chosen.now.locks (accounts_of values.now) }
    ensures { IfOk result (λ e. effects_seen e ≡ effects_as transaction.now.chosen.now
        (by_drop (fixed_in transaction.now.context) transaction.now.chosen.now
        (accounts_of values.now)
        (dropped (accounts_of values.now) (total_fee transaction.now.chosen.now)))) }
{
    match why_dropped(values, total(&transaction.chosen.fee)) {
        Some(cause) => drop_it(transaction, values, cause),
        None => perform_paid(transaction, values, watch),
    }
}

/// The accounts once the fee is taken.
fn pay(
    transaction: &Transaction<'_>,
    values: &[Arc<Account>],
) -> Result<Items<Arc<Account>>, OutOfMemory>
    requires fits { Fits transaction.now.chosen.now.locks (accounts_of values.now) }
    requires pays { dropped (accounts_of values.now) (total_fee transaction.now.chosen.now) ≡ None }
    ensures exact { IfOk result (λ base. accounts_of base
        ≡ charged (accounts_of values.now) (total_fee transaction.now.chosen.now)) }
    ensures fits { IfOk result (λ base. Fits transaction.now.chosen.now.locks (accounts_of base)) }
{
    let fee = total(&transaction.chosen.fee);
    let base = charge(transaction.context.alloc, values, fee)?;
    Ok(base)
}

/// The place of the first key whose rent does not allow what became of its account.
fn broken_rent(
    transaction: &Transaction<'_>,
    before: &[Arc<Account>],
    after: &[Arc<Account>],
) -> Option<usize>
    requires chosen { IsChosen transaction.now.chosen.now }
    requires before { Fits transaction.now.chosen.now.locks (accounts_of before.now) }
    requires after { Fits transaction.now.chosen.now.locks (accounts_of after.now) }
    ensures exact { result ≡ rent_broken (locks transaction.now.chosen.now)
        (accounts_of before.now) (accounts_of after.now) }
    ensures within { IfSome result (λ place. place < length transaction.now.chosen.now.locks) }
{
    find_broken_rent(transaction.chosen.locks.as_slice(), before, after)
}

/// Takes the fee, and performs the transaction.
fn perform_paid<W: Watch>(
    transaction: &Transaction<'_>,
    values: &[Arc<Account>],
    watch: &mut W,
) -> Result<Effects, OutOfMemory>
    requires height { (1 ≤ transaction.now.context.setting.height)
        × (transaction.now.context.setting.height ≤ max_stack_height) }
    requires chosen { IsChosen transaction.now.chosen.now }
    requires keys { transaction.now.context.keys
        ≡ all_keys transaction.now.chosen.now.tx.message transaction.now.chosen.now.loaded }
    requires fits { Fits transaction.now.chosen.now.locks (accounts_of values.now) }
    requires pays { dropped (accounts_of values.now) (total_fee transaction.now.chosen.now) ≡ None }
    ensures { IfOk result (λ e. effects_seen e ≡ effects_as transaction.now.chosen.now
        (paid (fixed_in transaction.now.context) transaction.now.chosen.now
        (charged (accounts_of values.now) (total_fee transaction.now.chosen.now)))) }
{
    let accounts = pay(transaction, values)?;
    let base = accounts.as_slice();
    let budget = transaction.chosen.budget;
    if data_of(base) > u128::from(budget.loaded) {
        let failure = Failure {
            index: WHOLE_TRANSACTION,
            cause: Cause::LoadedDataTooLarge,
            detail: 0,
        };
        let lines = Items::new(transaction.context.alloc);
        return fail(transaction, base, failure, 0, lines);
    }
    let Executed {
        units: left,
        log,
        result,
    } = execute(transaction, base, watch)?;
    let units = u64::from(budget.limit).saturating_sub(left);
    let lines = log.into_lines();
    match result {
        Err(failure) => fail(transaction, base, failure, units, lines),
        Ok(after) => {
            let after = after.as_slice();
            let broken = broken_rent(transaction, base, after);
            finish(transaction, base, after, broken, units, lines)
        }
    }
}

/// No fee is paid, and nothing changes.
fn drop_it(
    transaction: &Transaction<'_>,
    values: &[Arc<Account>],
    cause: DropCause,
) -> Result<Effects, OutOfMemory>
    requires chosen { IsChosen transaction.now.chosen.now }
    requires count { length (accounts_of values.now) ≡ length transaction.now.chosen.now.locks }
    ensures { IfOk result (λ e. effects_seen e ≡ effects_as transaction.now.chosen.now
        (came_to (Dropped cause) 0 no_fee [] (accounts_of values.now))) }
{
    let alloc = transaction.context.alloc;
    let chosen = transaction.chosen;
    let outcome = Outcome {
        status: Status::Dropped { cause },
        units: 0,
        base_paid: 0,
        priority_paid: 0,
        lines: Items::new(alloc),
    };
    Ok(Effects {
        outcome: SharedOutcome::new(alloc, outcome)?,
        written: written_of(alloc, chosen.locks.as_slice(), values)?,
    })
}

/// The fee is paid, and nothing else changes.
fn fail(
    transaction: &Transaction<'_>,
    base: &[Arc<Account>],
    failure: Failure,
    units: u64,
    lines: Items<Blob>,
) -> Result<Effects, OutOfMemory>
    requires chosen { IsChosen transaction.now.chosen.now }
    requires count { length (accounts_of base.now) ≡ length transaction.now.chosen.now.locks }
    ensures { IfOk result (λ e. effects_seen e ≡ effects_as transaction.now.chosen.now
        (failing transaction.now.chosen.now (accounts_of base.now) failure units lines)) }
{
    let Failure {
        index,
        cause,
        detail,
    } = failure;
    let status = Status::Failed {
        index,
        cause,
        detail,
    };
    leave(transaction, base, status, units, lines)
}

/// All instructions ended well; the rent decides, which may be broken at a place.
fn finish(
    transaction: &Transaction<'_>,
    base: &[Arc<Account>],
    after: &[Arc<Account>],
    broken: Option<usize>,
    units: u64,
    lines: Items<Blob>,
) -> Result<Effects, OutOfMemory>
    requires chosen { IsChosen transaction.now.chosen.now }
    requires base { length (accounts_of base.now) ≡ length transaction.now.chosen.now.locks }
    requires after { length (accounts_of after.now) ≡ length transaction.now.chosen.now.locks }
    requires within { IfSome broken (λ place. place < length transaction.now.chosen.now.locks) }
    ensures { IfOk result (λ e. effects_seen e ≡ effects_as transaction.now.chosen.now
        (finishing transaction.now.chosen.now (accounts_of base.now) units lines
        (accounts_of after.now) broken)) }
{
    match broken {
        None => leave(transaction, after, Status::Good, units, lines),
        Some(place) => {
            let failure = Failure {
                index: WHOLE_TRANSACTION,
                cause: Cause::RentState,
                detail: place as u32,
            };
            fail(transaction, base, failure, units, lines)
        }
    }
}

/// The effects where the fee is paid and these are the accounts.
fn leave(
    transaction: &Transaction<'_>,
    values: &[Arc<Account>],
    status: Status,
    units: u64,
    lines: Items<Blob>,
) -> Result<Effects, OutOfMemory>
    requires chosen { IsChosen transaction.now.chosen.now }
    requires count { length (accounts_of values.now) ≡ length transaction.now.chosen.now.locks }
    ensures { IfOk result (λ e. effects_seen e ≡ effects_as transaction.now.chosen.now
        (came_to status units transaction.now.chosen.now.fee lines (accounts_of values.now))) }
{
    let alloc = transaction.context.alloc;
    let chosen = transaction.chosen;
    let outcome = Outcome {
        status,
        units,
        base_paid: chosen.fee.base,
        priority_paid: chosen.fee.priority,
        lines,
    };
    Ok(Effects {
        outcome: SharedOutcome::new(alloc, outcome)?,
        written: written_of(alloc, chosen.locks.as_slice(), values)?,
    })
}
