//! What each instruction does to the data of its buffer.
ghost use Rattle.std.specs.Prelude.{◌≡◌, ◌<◌, ◌≤◌, IfOk, length};
ghost use Rattle.spec_base.specs.Reading.{Gives};
ghost use Rattle.sol_base.specs.Accounts.{accounts_of};
ghost use Rattle.sol_base.specs.Metas.{AreInRange};
ghost use Rattle.loader_prog.specs.Buffers.{image_at};
ghost use Rattle.loader_prog.specs.Requests.{accounts_needed, is_loader_memory, request_as};
ghost use Rattle.loader_prog.specs.Written.{data_by};
ghost use Rattle.loader_prog.specs.Loader.{data_in, data_row, finalize_row, init_row, owned as owned_data, set_authority_row, write_row};

use crate::buffer::{
    AUTHORITY_AT, FINAL_MAGIC, IMAGE_AT, has_authority, head, holds_buffer, holds_nothing,
    image_of, patched,
};
use crate::fault::{
    FOREIGN, LoaderFault, NO_BUFFER, NO_IMAGE, NOT_AUTHORITY, NOT_BLANK, PAST_THE_END, TOO_SHORT,
    UNVERIFIED,
};
use crate::image::{Candidate, examine};
use crate::instruction::Instruction;
use crate::roles::{AUTHORITY, BUFFER, account_of, does_sign, key_of};
use sol_base::{Account, Blob, Key, LOADER_PROGRAM, Meta};
use std::alloc::Global;
use std::sync::Arc;

/// The data of the buffer after the instruction, where they are others.
pub(crate) fn data_after(
    alloc: Global,
    keys: &[Key],
    accounts: &[Arc<Account>],
    metas: &[Meta],
    instruction: &Instruction<'_>,
) -> Result<Option<Blob>, LoaderFault>
    requires count { length (accounts_of accounts.now) ≡ length keys.now }
    requires range { AreInRange (length (accounts_of accounts.now)) metas.now }
    requires enough { accounts_needed (request_as instruction.now) ≤ length metas.now }
    ensures { Gives is_loader_memory (data_by (accounts_of accounts.now) metas.now) result
        (data_row keys.now (accounts_of accounts.now) metas.now (request_as instruction.now)) }
{
    match instruction {
        Instruction::Init { authority } => init(alloc, accounts, metas, authority),
        Instruction::Write { offset, bytes } => write(alloc, keys, accounts, metas, *offset, bytes),
        Instruction::Finalize => finalize(alloc, keys, accounts, metas),
        Instruction::SetAuthority { authority } => {
            set_authority(alloc, keys, accounts, metas, authority)
        }
    }
}

/// The data of the buffer, where its authority signs.
#[tactic(auto, unfolding(crate::specs::Loader::owned))]
fn owned<'a>(
    keys: &[Key],
    accounts: &'a [Arc<Account>],
    metas: &[Meta],
) -> Result<&'a [u8], LoaderFault>
    requires count { length (accounts_of accounts.now) ≡ length keys.now }
    requires range { AreInRange (length (accounts_of accounts.now)) metas.now }
    requires two { 2 ≤ length metas.now }
    ensures gives { Gives is_loader_memory (λ bytes. bytes.now) result
        (owned_data keys.now (accounts_of accounts.now) metas.now) }
    ensures room { IfOk result (λ bytes. image_at ≤ length bytes.now) }
    ensures data { IfOk result (λ bytes. bytes.now ≡ data_in (accounts_of accounts.now) metas.now) }
{
    let buffer = account_of(accounts, metas, BUFFER);
    if buffer.owner != LOADER_PROGRAM {
        return Err(FOREIGN);
    }
    let bytes = buffer.bytes.as_slice();
    if !holds_buffer(bytes) {
        return Err(NO_BUFFER);
    }
    if !has_authority(bytes, key_of(keys, metas, AUTHORITY)) {
        return Err(NOT_AUTHORITY);
    }
    if !does_sign(metas, AUTHORITY) {
        return Err(LoaderFault::MissingSignature { i: 1 });
    }
    Ok(bytes)
}

#[tactic(auto, unfolding(crate::specs::Loader::init_row))]
fn init(
    alloc: Global,
    accounts: &[Arc<Account>],
    metas: &[Meta],
    authority: &Key,
) -> Result<Option<Blob>, LoaderFault>
    requires range { AreInRange (length (accounts_of accounts.now)) metas.now }
    requires one { 1 ≤ length metas.now }
    ensures { Gives is_loader_memory (data_by (accounts_of accounts.now) metas.now) result
        (init_row (accounts_of accounts.now) metas.now authority.now) }
{
    let buffer = account_of(accounts, metas, BUFFER);
    if buffer.owner != LOADER_PROGRAM {
        return Err(FOREIGN);
    }
    if !does_sign(metas, BUFFER) {
        return Err(LoaderFault::MissingSignature { i: 0 });
    }
    let bytes = buffer.bytes.as_slice();
    if bytes.len() < IMAGE_AT {
        return Err(TOO_SHORT);
    }
    if !holds_nothing(bytes) {
        return Err(NOT_BLANK);
    }
    let head = head(alloc, authority)?;
    Ok(patched(alloc, bytes, 0, head.as_slice())?)
}

#[tactic(auto, unfolding(crate::specs::Loader::write_row))]
fn write(
    alloc: Global,
    keys: &[Key],
    accounts: &[Arc<Account>],
    metas: &[Meta],
    offset: u32,
    piece: &[u8],
) -> Result<Option<Blob>, LoaderFault>
    requires count { length (accounts_of accounts.now) ≡ length keys.now }
    requires range { AreInRange (length (accounts_of accounts.now)) metas.now }
    requires two { 2 ≤ length metas.now }
    ensures { Gives is_loader_memory (data_by (accounts_of accounts.now) metas.now) result
        (write_row keys.now (accounts_of accounts.now) metas.now offset piece.now) }
{
    let bytes = owned(keys, accounts, metas)?;
    let at = IMAGE_AT + offset as usize;
    if bytes.len() < at || bytes.len() - at < piece.len() {
        return Err(PAST_THE_END);
    }
    Ok(patched(alloc, bytes, at, piece)?)
}

#[tactic(auto, unfolding(crate::specs::Loader::finalize_row))]
fn finalize(
    alloc: Global,
    keys: &[Key],
    accounts: &[Arc<Account>],
    metas: &[Meta],
) -> Result<Option<Blob>, LoaderFault>
    requires count { length (accounts_of accounts.now) ≡ length keys.now }
    requires range { AreInRange (length (accounts_of accounts.now)) metas.now }
    requires two { 2 ≤ length metas.now }
    ensures { Gives is_loader_memory (data_by (accounts_of accounts.now) metas.now) result
        (finalize_row keys.now (accounts_of accounts.now) metas.now) }
{
    let bytes = owned(keys, accounts, metas)?;
    match examine(image_of(bytes)) {
        Candidate::NoImage => Err(NO_IMAGE),
        Candidate::Unverified => Err(UNVERIFIED),
        Candidate::Verified => Ok(patched(alloc, bytes, 0, &FINAL_MAGIC)?),
    }
}

#[tactic(auto, unfolding(crate::specs::Loader::set_authority_row))]
fn set_authority(
    alloc: Global,
    keys: &[Key],
    accounts: &[Arc<Account>],
    metas: &[Meta],
    authority: &Key,
) -> Result<Option<Blob>, LoaderFault>
    requires count { length (accounts_of accounts.now) ≡ length keys.now }
    requires range { AreInRange (length (accounts_of accounts.now)) metas.now }
    requires two { 2 ≤ length metas.now }
    ensures { Gives is_loader_memory (data_by (accounts_of accounts.now) metas.now) result
        (set_authority_row keys.now (accounts_of accounts.now) metas.now authority.now) }
{
    let bytes = owned(keys, accounts, metas)?;
    Ok(patched(alloc, bytes, AUTHORITY_AT, &authority.0)?)
}
