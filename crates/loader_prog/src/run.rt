//! One instruction of the loader.
ghost use Rattle.std.specs.Prelude.{◌≡◌, ◌<◌, ◌≤◌, ◌^◌, true, false, length, replicate, slice_set, vec_len, IfOk};
ghost use Rattle.std.specs.List.{slice_index_or};
ghost use Rattle.spec_base.specs.Reading.{Gives};
ghost use Rattle.sol_base.specs.Accounts.{accounts_of, empty_account, lamports_in};
ghost use Rattle.sol_base.specs.Metas.{AreInRange, max_metas};
ghost use Rattle.loader_prog.specs.Requests.{is_loader_memory};
ghost use Rattle.loader_prog.specs.Loader.{AnswersLoader, holding, loader_row, ruled, with_data};
ghost use Rattle.loader_prog.specs.Written.{IsReplaced, data_by};

use crate::fault::LoaderFault;
use crate::instruction::read_instruction;
use crate::roles::{BUFFER, place_of};
use crate::steps::data_after;
use account_rules::check_listed;
use sol_base::{Account, Blob, Items, Key, LOADER_PROGRAM, Meta, OutOfMemory, share_all};
use std::alloc::Global;
use std::sync::Arc;

/// The accounts after an instruction of the loader, or why it is refused. An account whose data are
/// not changed is shared, not copied.
pub fn run_loader(
    alloc: Global,
    keys: &[Key],
    accounts: &[Arc<Account>],
    metas: &[Meta],
    input: &[u8],
) -> Result<Items<Arc<Account>>, LoaderFault>
    requires count { length (accounts_of accounts.now) ≡ length keys.now }
    requires most { length metas.now ≤ max_metas }
    requires range { AreInRange (length (accounts_of accounts.now)) metas.now }
    requires supply { lamports_in (accounts_of accounts.now) < 2 ^ 64 }
    ensures exact { AnswersLoader
        (loader_row keys.now (accounts_of accounts.now) metas.now input.now) result }
{
    run_steps(alloc, keys, accounts, metas, input)
}

/// The instruction is read, its data are made, and the account rules are checked.
#[tactic(auto, unfolding(crate::specs::Loader::loader_row))]
fn run_steps(
    alloc: Global,
    keys: &[Key],
    accounts: &[Arc<Account>],
    metas: &[Meta],
    input: &[u8],
) -> Result<Items<Arc<Account>>, LoaderFault>
    requires count { length (accounts_of accounts.now) ≡ length keys.now }
    requires most { length metas.now ≤ max_metas }
    requires range { AreInRange (length (accounts_of accounts.now)) metas.now }
    ensures { Gives is_loader_memory accounts_of result
        (loader_row keys.now (accounts_of accounts.now) metas.now input.now) }
{
    let instruction = read_instruction(input)?;
    if metas.len() < instruction.accounts() {
        return Err(LoaderFault::NotEnoughAccounts);
    }
    let written = data_after(alloc, keys, accounts, metas, &instruction)?;
    checked(alloc, accounts, metas, written)
}

/// The accounts with what was written, where they break no account rule.
fn checked(
    alloc: Global,
    accounts: &[Arc<Account>],
    metas: &[Meta],
    written: Option<Blob>,
) -> Result<Items<Arc<Account>>, LoaderFault>
    requires there { 0 < length metas.now }
    requires most { length metas.now ≤ max_metas }
    requires range { AreInRange (length (accounts_of accounts.now)) metas.now }
    ensures { Gives is_loader_memory accounts_of result (ruled metas.now (accounts_of accounts.now)
        (with_data (accounts_of accounts.now) metas.now
        (data_by (accounts_of accounts.now) metas.now written))) }
{
    let after = replaced(alloc, accounts, place_of(metas, BUFFER), written)?;
    let touched = after.touched.as_slice();
    check_listed(
        &LOADER_PROGRAM,
        metas,
        touched,
        accounts,
        after.accounts.as_slice(),
    )?;
    Ok(after.accounts)
}

/// The accounts after a call, of which some may have been written.
#[derive(Drop)]
struct After {
    accounts: Items<Arc<Account>>,
    /// Of each account, whether it may differ from what it was before.
    touched: Vec<bool>,
}

/// The accounts, where the one at a place has the data that were written, if any were.
fn replaced(
    alloc: Global,
    accounts: &[Arc<Account>],
    place: usize,
    written: Option<Blob>,
) -> Result<After, OutOfMemory>
    requires { place < length accounts.now }
    ensures { IfOk result (λ after. IsReplaced (accounts_of accounts.now) place written
        after.touched.items (accounts_of after.accounts)) }
{
    match written {
        None => shared(alloc, accounts),
        Some(bytes) => rewritten(alloc, accounts, place, bytes),
    }
}

/// The accounts as they are.
fn shared(alloc: Global, accounts: &[Arc<Account>]) -> Result<After, OutOfMemory>
    ensures same { IfOk result (λ after. accounts_of after.accounts ≡ accounts_of accounts.now) }
    ensures count { IfOk result (λ after. length after.accounts ≡ length accounts.now) }
    ensures flags { IfOk result (λ after.
        after.touched.items ≡ replicate (length accounts.now) false) }
{
    Ok(After {
        accounts: share_all(alloc, accounts)?,
        touched: vec![in alloc; false; accounts.len()]?,
    })
}

/// The accounts, where the one at a place has other data.
fn rewritten(
    alloc: Global,
    accounts: &[Arc<Account>],
    place: usize,
    bytes: Blob,
) -> Result<After, OutOfMemory>
    requires { place < length accounts.now }
    ensures accounts { IfOk result (λ after. accounts_of after.accounts ≡
        slice_set (accounts_of accounts.now) place
        (holding (slice_index_or (accounts_of accounts.now) place empty_account) bytes)) }
    ensures flags { IfOk result (λ after.
        after.touched.items ≡ slice_set (replicate (length accounts.now) false) place true) }
{
    let After {
        accounts: shares,
        mut touched,
    } = shared(alloc, accounts)?;
    let mut shares = shares.into_vec();
    let share = Arc::new(alloc, with_bytes(&accounts[place], bytes))?;
    put(&mut shares, place, share);
    touched[place] = true;
    Ok(After {
        accounts: Items::from_vec(shares),
        touched,
    })
}

fn put(shares: &mut Vec<Arc<Account>>, place: usize, share: Arc<Account>)
    requires { place < vec_len shares.old }
    ensures { shares.new.items ≡ slice_set shares.old.items place share }
{
    shares[place] = share;
}

/// The account with other data.
fn with_bytes(account: &Account, bytes: Blob) -> Account
    ensures { result ≡ holding account.now bytes }
{
    Account {
        lamports: account.lamports,
        owner: account.owner,
        executable: account.executable,
        bytes,
    }
}
