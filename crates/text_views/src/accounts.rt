//! How the accounts of two snapshots differ.
ghost use Rattle.std.specs.Prelude.{◌≡◌, ◌++◌, OnOk};
ghost use Rattle.std.specs.List.{flat_map};
ghost use Rattle.account_store.specs.State.{entries};
ghost use Rattle.text_views.specs.Fields.{only_in_a, only_in_b};
ghost use Rattle.text_views.specs.AccountLines.{account_place, account_lines, left_lines, right_lines, accounts_lines};

use crate::fields::{add_bytes, add_flags, add_numbers, add_only_in_a, add_only_in_b, named};
use account_store::Accounts;
use sol_base::{Account, Blob, Key, OutOfMemory};
use std::alloc::Global;
use std::cmp::Ordering;

/// Adds the lines of an account that both have.
#[tactic(auto, unfolding(crate::specs::AccountLines::account_lines))]
fn add_account(
    alloc: Global,
    out: &mut Blob,
    key: &Key,
    left: &Account,
    right: &Account,
) -> Result<(), OutOfMemory>
    ensures { OnOk result (out.new ≡ out.old ++ account_lines key.now left.now right.now) }
{
    let place = named(alloc, b"account ", &key.0)?;
    let place = place.as_slice();
    let (lefts, rights) = (left.bytes.as_slice(), right.bytes.as_slice());
    add_numbers(
        alloc,
        out,
        place,
        b"lamports",
        left.lamports,
        right.lamports,
    )?;
    add_bytes(alloc, out, place, b"owner", &left.owner.0, &right.owner.0)?;
    add_flags(out, place, b"executable", left.executable, right.executable)?;
    add_bytes(alloc, out, place, b"data", lefts, rights)
}

/// Adds the line of an account that the first alone has.
fn add_left(alloc: Global, out: &mut Blob, key: &Key) -> Result<(), OutOfMemory>
    ensures { OnOk result (out.new ≡ out.old ++ only_in_a (account_place key.now)) }
{
    add_only_in_a(out, named(alloc, b"account ", &key.0)?.as_slice())
}

/// Adds the line of an account that the second alone has.
fn add_right(alloc: Global, out: &mut Blob, key: &Key) -> Result<(), OutOfMemory>
    ensures { OnOk result (out.new ≡ out.old ++ only_in_b (account_place key.now)) }
{
    add_only_in_b(out, named(alloc, b"account ", &key.0)?.as_slice())
}

/// Adds the lines of the first's accounts, and apart from them those of the second's, in one walk
/// over both.
fn add_merged(
    alloc: Global,
    out: &mut Blob,
    others: &mut Blob,
    left: &Accounts,
    right: &Accounts,
) -> Result<(), OutOfMemory>
    ensures lefts { OnOk result
        (out.new ≡ out.old ++ flat_map (left_lines right.now) (entries left.now)) }
    ensures rights { OnOk result
        (others.new ≡ others.old ++ flat_map (right_lines left.now) (entries right.now)) }
{
    let mut lefts = left.iter();
    let mut rights = right.iter();
    let mut first = lefts.next();
    let mut second = rights.next();
    loop {
        match (first, second) {
            (Some((key, account)), Some((other_key, other))) => match key.cmp(other_key) {
                Ordering::Less => {
                    add_left(alloc, out, key)?;
                    first = lefts.next();
                }
                Ordering::Equal => {
                    add_account(alloc, out, key, account, other)?;
                    first = lefts.next();
                    second = rights.next();
                }
                Ordering::Greater => {
                    add_right(alloc, others, other_key)?;
                    second = rights.next();
                }
            },
            (Some((key, _)), None) => {
                add_left(alloc, out, key)?;
                first = lefts.next();
            }
            (None, Some((key, _))) => {
                add_right(alloc, others, key)?;
                second = rights.next();
            }
            (None, None) => return Ok(()),
        }
    }
}

/// Adds the lines of all accounts.
pub(crate) fn add_accounts(
    alloc: Global,
    out: &mut Blob,
    left: &Accounts,
    right: &Accounts,
) -> Result<(), OutOfMemory>
    ensures { OnOk result (out.new ≡ out.old ++ accounts_lines left.now right.now) }
{
    let mut others = Blob::new(alloc);
    add_merged(alloc, out, &mut others, left, right)?;
    out.append(others.as_slice())
}
