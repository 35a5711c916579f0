//! From a snapshot to bytes, and the hash of a state.
ghost use Rattle.std.specs.Prelude.{◌≡◌, ◌<◌, ◌^◌, length, All, OnOk, IfOk};
ghost use Rattle.std.specs.List.{flat_map};
ghost use Rattle.account_store.specs.State.{len, entries};
ghost use Rattle.sol_base.specs.Keys.{hash_bytes};
ghost use Rattle.format_fields.specs.Output.{Adds};
ghost use Rattle.snapshot_codec.specs.Snapshot.{IsWritable, limits_bytes, mark_bytes, marks_bytes, account_bytes, state_bytes, hash_of_state, snapshot_bytes as bytes_of};

use crate::snapshot::Snapshot;
use account_store::Accounts;
use format_fields::{ByteCount, Output};
use sha2::{Digest, Sha256};
use sol_base::{Account, Blob, Hash32, Key, Limits, OutOfMemory};
use status_cache::Mark;
use std::alloc::Global;

fn write_limits<O: Output>(out: &mut O, limits: &Limits) -> Result<(), OutOfMemory>
    ensures { OnOk result (Adds O.holds out.old out.new (limits_bytes limits.now)) }
{
    out.append(&limits.keys.to_le_bytes())?;
    out.append(&[limits.height])?;
    out.append(&limits.key_units.to_le_bytes())?;
    out.append(&limits.block_units.to_le_bytes())
}

fn write_names<O: Output>(out: &mut O, names: &[Hash32]) -> Result<(), OutOfMemory>
    ensures { OnOk result (Adds O.holds out.old out.new (flat_map hash_bytes names.now)) }
{
    for name in names {
        out.append(&name.0)?;
    }
    Ok(())
}

fn write_mark<O: Output>(out: &mut O, mark: &Mark) -> Result<(), OutOfMemory>
    requires { length mark.now.messages < 2 ^ 32 }
    ensures { OnOk result (Adds O.holds out.old out.new (mark_bytes mark.now)) }
{
    let messages = mark.messages.as_slice();
    out.append(&mark.hash.0)?;
    out.append(&(messages.len() as u32).to_le_bytes())?;
    write_names(out, messages)
}

fn write_each_mark<O: Output>(out: &mut O, marks: &[Mark]) -> Result<(), OutOfMemory>
    requires { All (λ mark. length mark.messages < 2 ^ 32) marks.now }
    ensures { OnOk result (Adds O.holds out.old out.new (flat_map mark_bytes marks.now)) }
{
    for mark in marks {
        write_mark(out, mark)?;
    }
    Ok(())
}

fn write_marks<O: Output>(out: &mut O, marks: &[Mark]) -> Result<(), OutOfMemory>
    requires few { length marks.now < 2 ^ 32 }
    requires messages { All (λ mark. length mark.messages < 2 ^ 32) marks.now }
    ensures { OnOk result (Adds O.holds out.old out.new (marks_bytes marks.now)) }
{
    out.append(&(marks.len() as u32).to_le_bytes())?;
    write_each_mark(out, marks)
}

fn write_account<O: Output>(out: &mut O, key: &Key, account: &Account) -> Result<(), OutOfMemory>
    requires { length account.now.bytes < 2 ^ 32 }
    ensures { OnOk result (Adds O.holds out.old out.new (account_bytes (key.now, account.now))) }
{
    out.append(&key.0)?;
    out.append(&account.lamports.to_le_bytes())?;
    out.append(&account.owner.0)?;
    out.append(&[u8::from(account.executable)])?;
    out.append(&(account.bytes.len() as u32).to_le_bytes())?;
    out.append(account.bytes.as_slice())
}

fn write_each_account<O: Output>(out: &mut O, accounts: &Accounts) -> Result<(), OutOfMemory>
    ensures { OnOk result
        (Adds O.holds out.old out.new (flat_map account_bytes (entries accounts.now))) }
{
    let mut rest = accounts.iter();
    while let Some((key, account)) = rest.next() {
        write_account(out, key, account)?;
    }
    Ok(())
}

/// The state section: the number of accounts, and the accounts.
fn write_state<O: Output>(out: &mut O, accounts: &Accounts) -> Result<(), OutOfMemory>
    requires { len accounts.now < 2 ^ 32 }
    ensures { OnOk result (Adds O.holds out.old out.new (state_bytes accounts.now)) }
{
    out.append(&(accounts.len() as u32).to_le_bytes())?;
    write_each_account(out, accounts)
}

/// The output with the snapshot in version 2 behind what it has taken (the project's own format).
pub fn write_snapshot<O: Output>(mut out: O, snapshot: &Snapshot) -> Result<O, OutOfMemory>
    requires { IsWritable snapshot.now }
    ensures { IfOk result (λ new. Adds O.holds out new (bytes_of snapshot.now)) }
{
    out.append(b"SOLSNAP2")?;
    out.append(&snapshot.slot.to_le_bytes())?;
    write_limits(&mut out, &snapshot.limits)?;
    write_marks(&mut out, snapshot.recent.marks())?;
    write_state(&mut out, &snapshot.accounts)?;
    Ok(out)
}

/// The bytes of the snapshot in version 2, in one buffer.
pub fn snapshot_bytes(alloc: Global, snapshot: &Snapshot) -> Result<Blob, OutOfMemory>
    requires { IsWritable snapshot.now }
    ensures { IfOk result (λ bytes. bytes ≡ bytes_of snapshot.now) }
{
    let count = write_snapshot(ByteCount(0), snapshot)?;
    let out = Blob::with_capacity(alloc, count.0)?;
    write_snapshot(out, snapshot)
}

/// The SHA-256 of the state section, as a snapshot has it. No copy of the section is made.
pub fn state_hash(_alloc: Global, accounts: &Accounts) -> Result<Hash32, OutOfMemory>
    requires { len accounts.now < 2 ^ 32 }
    ensures { IfOk result (λ hash. hash ≡ hash_of_state accounts.now) }
{
    let mut hasher = Sha256::new();
    write_state(&mut hasher, accounts)?;
    Ok(Hash32(hasher.finalize()))
}
