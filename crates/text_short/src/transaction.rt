//! A transaction in the short form.
ghost use Rattle.std.specs.Prelude.{◌≡◌, ◌≤◌, IfOk, codes, length};
ghost use Rattle.spec_base.specs.Bytes.{max_count};
ghost use Rattle.spec_base.specs.Reading.{Gives};
ghost use Rattle.serde_json.specs.View.{view};
ghost use Rattle.serde_json.specs.Find.{as_str};
ghost use Rattle.json_parts.specs.Faults.{is_json_memory};
ghost use Rattle.json_parts.specs.Parts.{known_in, member_in};
ghost use Rattle.text_short.specs.ShortForm.{plain_in, version_in, tables_in, hash_in, is_newest, blockhash_in, draft_names, draft_in, transaction_in};

use crate::budget::budget_instruction;
use crate::list::{ReadsItems, list_member};
use crate::loader::loader_instruction;
use crate::members::{Keys, key_member};
use crate::system::system_instruction;
use json_parts::{
    JsonFault, Wanted, data_member, digits, flag_member, found, in_member, known, refused,
};
use message_codec::MAX_COUNT;
use serde_json::Value;
use sol_base::{Blob, Hash32, Key};
use std::alloc::Global;
use tx_build::{
    AccountMeta, BuildFault, Draft, KeyedInstruction, LookupTable, MAX_ADDRESSES, Version,
    build_wire,
};

/// Accounts with their rights.
struct AccountMetas;

impl ReadsItems<AccountMeta> for AccountMetas {
    ghost use Rattle.text_short.specs.ShortForm.{account_in};

    ghost item_in = { λ _. account_in };

    #[tactic(auto, unfolding(crate::specs::ShortForm::account_in))]
    fn read(&self, alloc: Global, value: &Value) -> Result<AccountMeta, JsonFault> {
        known(alloc, value, &["key", "signer", "writable"])?;
        let key = key_member(alloc, value, "key")?;
        let signer = flag_member(alloc, value, "signer")?;
        let writable = flag_member(alloc, value, "writable")?;
        Ok(AccountMeta {
            key,
            signer,
            writable,
        })
    }
}

/// An instruction of any program: its key, its accounts with their rights, and its data.
#[tactic(auto, unfolding(crate::specs::ShortForm::plain_in))]
fn plain_instruction(alloc: Global, value: &Value) -> Result<KeyedInstruction, JsonFault>
    ensures { Gives is_json_memory (λ x. x) result (plain_in (view value.now)) }
{
    known(alloc, value, &["program", "accounts", "data"])?;
    let program = key_member(alloc, value, "program")?;
    let accounts = list_member(alloc, value, "accounts", MAX_COUNT, &AccountMetas)?;
    let input = data_member(alloc, value, "data", MAX_COUNT)?;
    Ok(KeyedInstruction {
        program,
        accounts,
        input,
    })
}

/// Instructions, told by which member is there.
struct Instructions;

impl ReadsItems<KeyedInstruction> for Instructions {
    ghost use Rattle.text_short.specs.ShortForm.{instruction_in};

    ghost item_in = { λ _. instruction_in };

    #[tactic(auto, unfolding(crate::specs::ShortForm::instruction_in))]
    fn read(&self, alloc: Global, value: &Value) -> Result<KeyedInstruction, JsonFault> {
        if value.get("system").is_some() {
            system_instruction(alloc, value)
        } else if value.get("budget").is_some() {
            budget_instruction(alloc, value)
        } else if value.get("loader").is_some() {
            loader_instruction(alloc, value)
        } else {
            plain_instruction(alloc, value)
        }
    }
}

/// Tables with the addresses that are looked up in them.
struct LookupTables;

impl ReadsItems<LookupTable> for LookupTables {
    ghost use Rattle.text_short.specs.ShortForm.{table_in};

    ghost item_in = { λ _. table_in };

    #[tactic(auto, unfolding(crate::specs::ShortForm::table_in))]
    fn read(&self, alloc: Global, value: &Value) -> Result<LookupTable, JsonFault> {
        known(alloc, value, &["table", "addresses"])?;
        let key = key_member(alloc, value, "table")?;
        let addresses = list_member(alloc, value, "addresses", MAX_ADDRESSES, &Keys)?;
        Ok(LookupTable { key, addresses })
    }
}

#[tactic(auto, unfolding(crate::specs::ShortForm::tables_in))]
fn tables(alloc: Global, value: &Value) -> Result<Version, JsonFault>
    ensures { Gives is_json_memory (λ x. x) result (tables_in (view value.now)) }
{
    let tables = list_member(alloc, value, "lookups", MAX_COUNT, &LookupTables)?;
    Ok(Version::Zero { tables })
}

/// The format: version 0 where the member `lookups` is there, and else the first one.
#[tactic(auto, unfolding(crate::specs::ShortForm::version_in))]
fn version(alloc: Global, value: &Value) -> Result<Version, JsonFault>
    ensures { Gives is_json_memory (λ x. x) result (version_in (view value.now)) }
{
    if value.get("lookups").is_some() {
        tables(alloc, value)
    } else {
        Ok(Version::Legacy)
    }
}

#[tactic(auto, unfolding(crate::specs::ShortForm::hash_in))]
fn hash(alloc: Global, value: &Value) -> Result<Hash32, JsonFault>
    ensures { Gives is_json_memory (λ x. x) result (hash_in (view value.now)) }
{
    let digits = digits::<32>(alloc, value)?;
    Ok(Hash32(digits))
}

/// Whether the value is the text `newest`.
fn is_newest(value: &Value) -> bool
    ensures { result ≡ is_newest (as_str (view value.now)) }
{
    match value.as_str() {
        Some(text) => text == "newest",
        None => false,
    }
}

/// The blockhash in digits, or the text `newest` for the newest one, where it is known.
#[tactic(auto, unfolding(crate::specs::ShortForm::blockhash_in))]
fn blockhash(alloc: Global, value: &Value, newest: Option<Hash32>) -> Result<Hash32, JsonFault>
    ensures { Gives is_json_memory (λ x. x) result (blockhash_in newest (view value.now)) }
{
    match newest {
        Some(newest) => {
            if is_newest(value) {
                Ok(newest)
            } else {
                hash(alloc, value)
            }
        }
        None => hash(alloc, value),
    }
}

#[tactic(auto, unfolding(json_parts::specs::Parts::member_in))]
fn blockhash_member(
    alloc: Global,
    value: &Value,
    newest: Option<Hash32>,
) -> Result<Hash32, JsonFault>
    ensures { Gives is_json_memory (λ x. x) result
        (member_in (codes "recent_blockhash") (blockhash_in newest) (view value.now)) }
{
    let found = found(alloc, value, "recent_blockhash")?;
    in_member(alloc, "recent_blockhash", blockhash(alloc, found, newest))
}

#[tactic(auto, unfolding(crate::specs::ShortForm::draft_names))]
fn known_of_draft(alloc: Global, value: &Value) -> Result<(), JsonFault>
    ensures { Gives is_json_memory (λ x. x) result (known_in draft_names (view value.now)) }
{
    known(
        alloc,
        value,
        &["payer", "recent_blockhash", "instructions", "lookups"],
    )
}

#[tactic(auto, unfolding(crate::specs::ShortForm::draft_in))]
fn draft(alloc: Global, value: &Value, newest: Option<Hash32>) -> Result<Draft, JsonFault>
    ensures { Gives is_json_memory (λ x. x) result (draft_in newest (view value.now)) }
{
    known_of_draft(alloc, value)?;
    let payer = key_member(alloc, value, "payer")?;
    let blockhash = blockhash_member(alloc, value, newest)?;
    let instructions = list_member(alloc, value, "instructions", MAX_COUNT, &Instructions)?;
    let version = version(alloc, value)?;
    Ok(Draft {
        version,
        payer,
        blockhash,
        instructions,
    })
}

/// The bytes of the transaction.
#[tactic(auto, unfolding(crate::specs::ShortForm::transaction_in))]
pub(crate) fn transaction(
    alloc: Global,
    value: &Value,
    newest: Option<Hash32>,
) -> Result<Blob, JsonFault>
    ensures gives { Gives is_json_memory (λ x. x) result (transaction_in newest (view value.now)) }
    ensures short { IfOk result (λ bytes. length bytes ≤ max_count) }
{
    let draft = draft(alloc, value, newest)?;
    match build_wire(alloc, &draft) {
        Ok(bytes) => Ok(bytes),
        Err(BuildFault::TooManyKeys) => Err(refused(alloc, Wanted::FewKeys)),
        Err(BuildFault::TooLong) => Err(refused(alloc, Wanted::Transaction)),
        Err(BuildFault::OutOfMemory) => Err(JsonFault::OutOfMemory),
    }
}
