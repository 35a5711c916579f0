//! The chain at its start: the users, the collector of fees, and one block before.
ghost use Rattle.std.specs.Prelude.{◌≡◌, IfOk};
ghost use Rattle.snapshot_codec.specs.Snapshot.{IsReadable};
ghost use Rattle.account_store.specs.State.{IsState, len};
ghost use Rattle.batch_gen.specs.Generator.{user, wallet, start_accounts, start_state, start_snapshot as snapshot_value};

use account_store::{Accounts, KeyedAccount, StoreFault};
use snapshot_codec::Snapshot;
use sol_base::{Account, Blob, Hash32, Items, Key, Limits, OutOfMemory, SYSTEM_PROGRAM};
use status_cache::{Mark, Recent};
use std::alloc::Global;

/// How many users there are.
pub(crate) const USERS: u8 = 64;

/// Who collects the fees.
pub(crate) const COLLECTOR: Key = Key([0xc0; 32]);

/// The hash of the block before.
pub(crate) const START_HASH: Hash32 = Hash32([0xaa; 32]);

/// What each user has.
pub(crate) const USER_LAMPORTS: u64 = 1_000_000_000_000;

/// What the collector has.
pub(crate) const COLLECTOR_LAMPORTS: u64 = 1_000_000_000;

/// The key of user i.
pub(crate) fn user_key(i: u8) -> Key
    ensures { result ≡ user i }
{
    let mut bytes = [0; 32];
    bytes[0] = 0x55;
    bytes[1] = i;
    Key(bytes)
}

/// An account of the system program without data.
fn wallet_of(alloc: Global, lamports: u64) -> Account
    ensures { result ≡ wallet lamports }
{
    Account {
        lamports,
        owner: SYSTEM_PROGRAM,
        executable: false,
        bytes: Blob::new(alloc),
    }
}

/// The accounts of the users and of the collector, their keys ascending.
#[tactic(auto, unfolding(crate::specs::Generator::start_accounts))]
fn list_accounts(alloc: Global) -> Result<Items<KeyedAccount>, OutOfMemory>
    ensures { IfOk result (λ accounts. accounts ≡ start_accounts) }
{
    let mut accounts = Items::with_capacity(alloc, usize::from(USERS) + 1)?;
    for i in 0..USERS {
        accounts.push(KeyedAccount {
            key: user_key(i),
            account: wallet_of(alloc, USER_LAMPORTS),
        })?;
    }
    accounts.push(KeyedAccount {
        key: COLLECTOR,
        account: wallet_of(alloc, COLLECTOR_LAMPORTS),
    })?;
    Ok(accounts)
}

/// The accounts as a chain keeps them.
fn start_accounts_of(alloc: Global) -> Result<Accounts, OutOfMemory>
    ensures exact { IfOk result (λ accounts. accounts ≡ start_state) }
    ensures state { IfOk result IsState }
    ensures few { IfOk result (λ accounts. len accounts ≡ 65) }
{
    match Accounts::from_sorted(alloc, list_accounts(alloc)?) {
        Ok(accounts) => Ok(accounts),
        Err(fault) => match fault {
            StoreFault::OutOfMemory => Err(OutOfMemory),
            _ => unreachable!(),
        },
    }
}

/// The one block before, which has no messages.
fn start_recent(alloc: Global) -> Result<Recent, OutOfMemory>
    ensures exact { IfOk result (λ recent. recent ≡ snapshot_value.recent) }
{
    let mut recent = Recent::new(alloc);
    recent.advance(Mark {
        hash: START_HASH,
        messages: Items::new(alloc),
    })?;
    Ok(recent)
}

/// The chain at its start.
pub(crate) fn start_snapshot(alloc: Global) -> Result<Snapshot, OutOfMemory>
    ensures exact { IfOk result (λ snapshot. snapshot ≡ snapshot_value) }
    ensures readable { IfOk result IsReadable }
{
    Ok(Snapshot {
        slot: 0,
        limits: Limits::first(),
        recent: start_recent(alloc)?,
        accounts: start_accounts_of(alloc)?,
    })
}
