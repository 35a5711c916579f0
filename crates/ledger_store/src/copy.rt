//! Copies of snapshots.
ghost use Rattle.std.specs.Prelude.{◌≡◌, IfOk};
ghost use Rattle.account_store.specs.State.{IsState};
ghost use Rattle.snapshot_codec.specs.Snapshot.{IsReadable};

use crate::next::put_over;
use account_store::Accounts;
use snapshot_codec::Snapshot;
use sol_base::{Items, OutOfMemory};
use status_cache::{Mark, Recent};
use std::alloc::Global;

/// A copy of a mark.
pub(crate) fn copy_mark(alloc: Global, mark: &Mark) -> Result<Mark, OutOfMemory>
    ensures { IfOk result (λ copy. copy ≡ mark.now) }
{
    Ok(Mark {
        hash: mark.hash,
        messages: Items::from_vec(mark.messages.as_slice().to_vec(alloc)?),
    })
}

fn copy_recent(alloc: Global, recent: &Recent) -> Result<Recent, OutOfMemory>
    ensures { IfOk result (λ copy. copy ≡ recent.now) }
{
    let marks = recent.marks();
    let mut copy = Recent::new(alloc);
    let mut left = marks.len();
    while left > 0 {
        left -= 1;
        copy.advance(copy_mark(alloc, &marks[left])?)?;
    }
    Ok(copy)
}

/// A copy of the accounts, each of them shared.
fn share_accounts(alloc: Global, accounts: &Accounts) -> Result<Accounts, OutOfMemory>
    requires { IsState accounts.now }
    ensures { IfOk result (λ shares. shares ≡ accounts.now) }
{
    let mut shares = Accounts::new(alloc);
    put_over(&mut shares, accounts)?;
    Ok(shares)
}

/// A copy of a snapshot, since a block that is run takes the snapshot before it away. Its accounts are
/// shared.
pub fn copy_snapshot(alloc: Global, snapshot: &Snapshot) -> Result<Snapshot, OutOfMemory>
    requires { IsReadable snapshot.now }
    ensures { IfOk result (λ copy. copy ≡ snapshot.now) }
{
    Ok(Snapshot {
        slot: snapshot.slot,
        limits: snapshot.limits,
        recent: copy_recent(alloc, &snapshot.recent)?,
        accounts: share_accounts(alloc, &snapshot.accounts)?,
    })
}
