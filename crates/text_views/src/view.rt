//! One account of a snapshot, and one entry of a record, as JSON.
ghost use Rattle.std.specs.Prelude.{◌≡◌, ◌++◌, All, IfOk, IsUtf8, OnOk, option_map};
ghost use Rattle.std.specs.List.{AllByRecursion};
ghost use Rattle.account_store.specs.State.{get};
ghost use Rattle.block_record.specs.Record.{HasTexts};
ghost use Rattle.text_views.specs.View.{account_text, back_text, data_text, middle_text, flag_member, hex_member, number_member, is_signed, has_first, entry_signed};

use crate::fields::{add_decimal, digits_of};
use account_store::Accounts;
use bank_show::entry_text;
use block_record::{Block, Entry};
use message_codec::{Parsed, Signature, parse};
use sol_base::{Account, Blob, Key, OutOfMemory};
use std::alloc::Global;

/// Adds the name of a member and hexadecimal digits.
#[tactic(auto, unfolding(crate::specs::View::hex_member))]
fn add_hex(alloc: Global, out: &mut Blob, name: &[u8], bytes: &[u8]) -> Result<(), OutOfMemory>
    ensures { OnOk result (out.new ≡ out.old ++ hex_member name.now bytes.now) }
{
    out.append(name)?;
    out.append(b"\"")?;
    out.append(digits_of(alloc, bytes)?.as_slice())?;
    out.append(b"\"")
}

/// Adds the name of a member and a number.
#[tactic(auto, unfolding(crate::specs::View::number_member))]
fn add_number(out: &mut Blob, name: &[u8], number: u64) -> Result<(), OutOfMemory>
    ensures { OnOk result (out.new ≡ out.old ++ number_member name.now number) }
{
    out.append(name)?;
    add_decimal(out, number)
}

/// Adds the name of a member and a flag.
fn add_flag(out: &mut Blob, name: &[u8], flag: bool) -> Result<(), OutOfMemory>
    ensures { OnOk result (out.new ≡ out.old ++ flag_member name.now flag) }
{
    out.append(name)?;
    if flag {
        out.append(b"true")
    } else {
        out.append(b"false")
    }
}

/// Adds the data of an account.
#[tactic(auto, unfolding(crate::specs::View::data_text))]
fn add_data(alloc: Global, out: &mut Blob, bytes: &[u8]) -> Result<(), OutOfMemory>
    ensures { OnOk result (out.new ≡ out.old ++ data_text bytes.now) }
{
    out.append(b"{")?;
    add_hex(alloc, out, b"\"data\":", bytes)
}

/// Adds the middle members of an account.
#[tactic(auto, unfolding(crate::specs::View::middle_text))]
fn add_middle(alloc: Global, out: &mut Blob, executable: bool, key: &Key) -> Result<(), OutOfMemory>
    ensures { OnOk result (out.new ≡ out.old ++ middle_text executable key.now) }
{
    add_flag(out, b",\"executable\":", executable)?;
    add_hex(alloc, out, b",\"key\":", &key.0)
}

/// Adds the last members of an account.
#[tactic(auto, unfolding(crate::specs::View::back_text))]
fn add_back(alloc: Global, out: &mut Blob, account: &Account) -> Result<(), OutOfMemory>
    ensures { OnOk result (out.new ≡ out.old ++ back_text account.now) }
{
    add_number(out, b",\"lamports\":", account.lamports)?;
    add_hex(alloc, out, b",\"owner\":", &account.owner.0)?;
    out.append(b"}\n")
}

fn account_text(alloc: Global, key: &Key, account: &Account) -> Result<Blob, OutOfMemory>
    ensures { IfOk result (λ text. text ≡ account_text key.now account.now) }
{
    let mut out = Blob::new(alloc);
    add_data(alloc, &mut out, account.bytes.as_slice())?;
    add_middle(alloc, &mut out, account.executable, key)?;
    add_back(alloc, &mut out, account)?;
    Ok(out)
}

/// The account under the key as a line of JSON. None where there is no such account.
pub fn view_account(
    alloc: Global,
    accounts: &Accounts,
    key: &Key,
) -> Result<Option<Blob>, OutOfMemory>
    ensures { IfOk result (λ text.
        text ≡ option_map (account_text key.now) (get accounts.now key.now)) }
{
    match accounts.get(key) {
        Some(account) => Ok(Some(account_text(alloc, key, account)?)),
        None => Ok(None),
    }
}

fn has_first(signatures: &[Signature], signature: &Signature) -> bool
    ensures { result ≡ has_first signature.now signatures.now }
{
    match signatures {
        [] => false,
        [first, ..] => *first == *signature,
    }
}

/// Whether the wire is a transaction whose first signature this is.
#[tactic(auto, unfolding(crate::specs::View::is_signed))]
fn is_signed(alloc: Global, wire: &[u8], signature: &Signature) -> Result<bool, OutOfMemory>
    ensures { IfOk result (λ signed. signed ≡ is_signed signature.now wire.now) }
{
    match parse(alloc, wire)? {
        Parsed::Good { tx, name: _ } => Ok(has_first(tx.signatures.as_slice(), signature)),
        Parsed::Bad(_) => Ok(false),
    }
}

/// The text of the first entry whose transaction has this first signature.
fn signed_in(
    alloc: Global,
    entries: &[Entry],
    signature: &Signature,
) -> Result<Option<Blob>, OutOfMemory>
    requires { AllByRecursion (λ entry. All IsUtf8 entry.lines) entries.now }
    ensures { IfOk result (λ text. text ≡ entry_signed signature.now entries.now) }
{
    let mut others = entries;
    while let [entry, after @ ..] = others {
        if is_signed(alloc, entry.wire.as_slice(), signature)? {
            return Ok(Some(entry_text(alloc, entry)?));
        }
        others = after;
    }
    Ok(None)
}

/// The first entry whose transaction has this first signature, as JSON in one line without a line
/// feed. None where there is none.
pub fn view_entry(
    alloc: Global,
    block: &Block,
    signature: &Signature,
) -> Result<Option<Blob>, OutOfMemory>
    requires { HasTexts block.now }
    ensures { IfOk result (λ text. text ≡ entry_signed signature.now block.now.entries) }
{
    signed_in(alloc, block.entries.as_slice(), signature)
}
