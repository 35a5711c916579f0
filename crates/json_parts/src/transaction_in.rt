//! From JSON to the bytes of a transaction.
ghost use Rattle.std.specs.Prelude.{◌≡◌, ◌≤◌, ◌++◌, codes, length, IfOk, OnOk};
ghost use Rattle.spec_base.specs.Bytes.{max_count};
ghost use Rattle.spec_base.specs.Reading.{Gives};
ghost use Rattle.serde_json.specs.View.{view};
ghost use Rattle.message_codec.specs.Compact.{compact};
ghost use Rattle.message_codec.specs.Wire.{kind_bytes};
ghost use Rattle.json_parts.specs.Faults.{is_json_memory};
ghost use Rattle.json_parts.specs.Parts.{member_in, list_in, known_in};
ghost use Rattle.json_parts.specs.TransactionJson.{kind_in, header_names, transaction_names, header_in, most_lookups, lookup_in, lookups_part, message_in, tx_in, whole_tx_in, wire_in, transaction_in};

use crate::data::data_member;
use crate::fault::{JsonFault, Wanted, in_member, refused};
use crate::list::{Part, list_member};
use crate::parts::{byte_member, digits, digits_member, found, known, number};
use message_codec::{MAX_COUNT, MessageKind, WireFault, read_wire, write_length};
use serde_json::Value;
use sol_base::{Blob, OutOfMemory};
use std::alloc::Global;

/// Bytes as numbers.
pub(crate) struct Bytes;

/// Signatures.
pub(crate) struct Signatures;

/// Keys.
pub(crate) struct Keys;

/// Instructions.
pub(crate) struct Instructions;

/// Lookups.
pub(crate) struct Lookups;

impl Part for Bytes {
    ghost use Rattle.json_parts.specs.TransactionJson.{byte_in};

    ghost part_in = { byte_in };

    #[tactic(auto, unfolding(crate::specs::TransactionJson::byte_in))]
    fn read(alloc: Global, value: &Value) -> Result<Blob, JsonFault> {
        let byte = number(alloc, value, 0, u64::from(u8::MAX))?;
        Ok(Blob::from_slice(alloc, &[byte as u8])?)
    }
}

impl Part for Signatures {
    ghost use Rattle.json_parts.specs.TransactionJson.{signature_in};

    ghost part_in = { signature_in };

    fn read(alloc: Global, value: &Value) -> Result<Blob, JsonFault> {
        let signature = digits::<64>(alloc, value)?;
        Ok(Blob::from_slice(alloc, &signature)?)
    }
}

impl Part for Keys {
    ghost use Rattle.json_parts.specs.TransactionJson.{key_in};

    ghost part_in = { key_in };

    fn read(alloc: Global, value: &Value) -> Result<Blob, JsonFault> {
        let key = digits::<32>(alloc, value)?;
        Ok(Blob::from_slice(alloc, &key)?)
    }
}

impl Part for Instructions {
    ghost use Rattle.json_parts.specs.TransactionJson.{instruction_in};

    ghost part_in = { instruction_in };

    #[tactic(auto, unfolding(crate::specs::TransactionJson::instruction_in))]
    fn read(alloc: Global, value: &Value) -> Result<Blob, JsonFault> {
        known(alloc, value, &["accounts", "data", "program"])?;
        let program = byte_member(alloc, value, "program", 0, u8::MAX)?;
        let (count, accounts) = list_member::<Bytes>(alloc, value, "accounts", MAX_COUNT)?;
        let data = data_member(alloc, value, "data", MAX_COUNT)?;
        let mut out = Blob::from_slice(alloc, &[program])?;
        write_length(&mut out, count)?;
        out.append(accounts.as_slice())?;
        write_length(&mut out, data.len())?;
        out.append(data.as_slice())?;
        Ok(out)
    }
}

impl Part for Lookups {
    ghost use Rattle.json_parts.specs.TransactionJson.{lookup_in};

    ghost part_in = { lookup_in };

    #[tactic(auto, unfolding(crate::specs::TransactionJson::lookup_in))]
    fn read(alloc: Global, value: &Value) -> Result<Blob, JsonFault> {
        known(alloc, value, &["readonly", "table", "writable"])?;
        let table = digits_member::<32>(alloc, value, "table")?;
        let (writable_count, writable) = list_member::<Bytes>(alloc, value, "writable", MAX_COUNT)?;
        let (readonly_count, readonly) = list_member::<Bytes>(alloc, value, "readonly", MAX_COUNT)?;
        let mut out = Blob::from_slice(alloc, &table)?;
        write_length(&mut out, writable_count)?;
        out.append(writable.as_slice())?;
        write_length(&mut out, readonly_count)?;
        out.append(readonly.as_slice())?;
        Ok(out)
    }
}

fn known_of_header(alloc: Global, value: &Value) -> Result<(), JsonFault>
    ensures { Gives is_json_memory (λ x. x) result (known_in header_names (view value.now)) }
{
    known(
        alloc,
        value,
        &["readonly_signed", "readonly_unsigned", "required"],
    )
}

#[tactic(auto, unfolding(crate::specs::TransactionJson::header_in))]
fn header(alloc: Global, value: &Value) -> Result<Blob, JsonFault>
    ensures { Gives is_json_memory (λ bytes. bytes) result (header_in (view value.now)) }
{
    known_of_header(alloc, value)?;
    let required = byte_member(alloc, value, "required", 0, u8::MAX)?;
    let signed = byte_member(alloc, value, "readonly_signed", 0, u8::MAX)?;
    let unsigned = byte_member(alloc, value, "readonly_unsigned", 0, u8::MAX)?;
    let bytes = [required, signed, unsigned];
    Ok(Blob::from_slice(alloc, &bytes)?)
}

#[tactic(auto, unfolding(crate::specs::Parts::member_in))]
fn header_member(alloc: Global, value: &Value) -> Result<Blob, JsonFault>
    ensures { Gives is_json_memory (λ bytes. bytes) result
        (member_in (codes "header") header_in (view value.now)) }
{
    let found = found(alloc, value, "header")?;
    in_member(alloc, "header", header(alloc, found))
}

#[tactic(auto, unfolding(crate::specs::TransactionJson::kind_in))]
fn kind(alloc: Global, value: &Value) -> Result<MessageKind, JsonFault>
    ensures { Gives is_json_memory (λ k. k) result (kind_in (view value.now)) }
{
    match value.as_str() {
        Some(text) => {
            if text == "legacy" {
                Ok(MessageKind::Legacy)
            } else {
                Err(refused(alloc, Wanted::Version))
            }
        }
        None => match value.as_u64() {
            Some(0) => Ok(MessageKind::Zero),
            _ => Err(refused(alloc, Wanted::Version)),
        },
    }
}

#[tactic(auto, unfolding(crate::specs::Parts::member_in))]
fn kind_member(alloc: Global, value: &Value) -> Result<MessageKind, JsonFault>
    ensures { Gives is_json_memory (λ k. k) result
        (member_in (codes "version") kind_in (view value.now)) }
{
    let found = found(alloc, value, "version")?;
    in_member(alloc, "version", kind(alloc, found))
}

/// The lookups, which a legacy message does not have.
fn append_lookups(
    out: &mut Blob,
    kind: MessageKind,
    count: usize,
    lookups: &Blob,
) -> Result<(), OutOfMemory>
    requires { count ≤ max_count }
    ensures { OnOk result (out.new ≡ out.old ++ lookups_part kind (count, lookups.now)) }
{
    match kind {
        MessageKind::Legacy => Ok(()),
        MessageKind::Zero => {
            write_length(out, count)?;
            out.append(lookups.as_slice())
        }
    }
}

fn append_kind(out: &mut Blob, kind: MessageKind) -> Result<(), OutOfMemory>
    ensures { OnOk result (out.new ≡ out.old ++ kind_bytes kind) }
{
    match kind {
        MessageKind::Legacy => Ok(()),
        MessageKind::Zero => out.append(&[128]),
    }
}

/// The lookups and their number, which is 0 for a legacy message.
fn lookups_member(
    alloc: Global,
    value: &Value,
    kind: MessageKind,
) -> Result<(usize, Blob), JsonFault>
    ensures gives { Gives is_json_memory (λ x. x) result
        (member_in (codes "lookups") (list_in (most_lookups kind) lookup_in) (view value.now)) }
    ensures fits { IfOk result (λ x. x.0 ≤ max_count) }
{
    match kind {
        MessageKind::Legacy => list_member::<Lookups>(alloc, value, "lookups", 0),
        MessageKind::Zero => list_member::<Lookups>(alloc, value, "lookups", MAX_COUNT),
    }
}

/// What the members of a message stand for.
#[derive(Drop)]
struct Fields {
    kind: MessageKind,
    header: Blob,
    key_count: usize,
    keys: Blob,
    blockhash: [u8; 32],
    count: usize,
    instructions: Blob,
    lookup_count: usize,
    lookups: Blob,
}

/// What is before the instructions.
fn append_opening(out: &mut Blob, fields: &Fields) -> Result<(), OutOfMemory>
    requires { fields.now.key_count ≤ max_count }
    ensures { OnOk result (out.new ≡ out.old ++ kind_bytes fields.now.kind ++ fields.now.header
        ++ compact fields.now.key_count ++ fields.now.keys ++ fields.now.blockhash) }
{
    append_kind(out, fields.kind)?;
    out.append(fields.header.as_slice())?;
    write_length(out, fields.key_count)?;
    out.append(fields.keys.as_slice())?;
    out.append(&fields.blockhash)
}

fn spelled_message(alloc: Global, fields: &Fields) -> Result<Blob, OutOfMemory>
    requires keys { fields.now.key_count ≤ max_count }
    requires instructions { fields.now.count ≤ max_count }
    requires lookups { fields.now.lookup_count ≤ max_count }
    ensures { IfOk result (λ bytes. bytes ≡ kind_bytes fields.now.kind ++ fields.now.header
        ++ compact fields.now.key_count ++ fields.now.keys ++ fields.now.blockhash
        ++ compact fields.now.count ++ fields.now.instructions
        ++ lookups_part fields.now.kind (fields.now.lookup_count, fields.now.lookups)) }
{
    let mut out = Blob::new(alloc);
    append_opening(&mut out, fields)?;
    write_length(&mut out, fields.count)?;
    out.append(fields.instructions.as_slice())?;
    append_lookups(&mut out, fields.kind, fields.lookup_count, &fields.lookups)?;
    Ok(out)
}

#[tactic(auto, unfolding(crate::specs::TransactionJson::message_in))]
fn message(alloc: Global, value: &Value) -> Result<Blob, JsonFault>
    ensures { Gives is_json_memory (λ bytes. bytes) result (message_in (view value.now)) }
{
    let kind = kind_member(alloc, value)?;
    let header = header_member(alloc, value)?;
    let (key_count, keys) = list_member::<Keys>(alloc, value, "keys", MAX_COUNT)?;
    let blockhash = digits_member::<32>(alloc, value, "recent_blockhash")?;
    let (count, instructions) = list_member::<Instructions>(
        alloc,
        value,
        "instructions",
        MAX_COUNT,
    )?;
    let (lookup_count, lookups) = lookups_member(alloc, value, kind)?;
    let fields = Fields {
        kind,
        header,
        key_count,
        keys,
        blockhash,
        count,
        instructions,
        lookup_count,
        lookups,
    };
    Ok(spelled_message(alloc, &fields)?)
}

fn known_of_transaction(alloc: Global, value: &Value) -> Result<(), JsonFault>
    ensures { Gives is_json_memory (λ x. x) result (known_in transaction_names (view value.now)) }
{
    known(
        alloc,
        value,
        &[
            "header",
            "instructions",
            "keys",
            "lookups",
            "recent_blockhash",
            "shown",
            "signatures",
            "version",
        ],
    )
}

#[tactic(auto, unfolding(crate::specs::TransactionJson::tx_in))]
fn tx(alloc: Global, value: &Value) -> Result<Blob, JsonFault>
    ensures { Gives is_json_memory (λ bytes. bytes) result (tx_in (view value.now)) }
{
    known_of_transaction(alloc, value)?;
    let (count, signatures) = list_member::<Signatures>(alloc, value, "signatures", MAX_COUNT)?;
    let message = message(alloc, value)?;
    let mut out = Blob::new(alloc);
    write_length(&mut out, count)?;
    out.append(signatures.as_slice())?;
    out.append(message.as_slice())?;
    Ok(out)
}

#[tactic(auto, unfolding(crate::specs::TransactionJson::whole_tx_in))]
fn whole_tx(alloc: Global, value: &Value) -> Result<Blob, JsonFault>
    ensures gives { Gives is_json_memory (λ bytes. bytes) result (whole_tx_in (view value.now)) }
    ensures fits { IfOk result (λ bytes. length bytes ≤ max_count) }
{
    let bytes = tx(alloc, value)?;
    match read_wire(alloc, bytes.as_slice()) {
        Ok(_) => Ok(bytes),
        Err(WireFault::OutOfMemory) => Err(JsonFault::OutOfMemory),
        Err(_) => Err(refused(alloc, Wanted::Transaction)),
    }
}

#[tactic(auto, unfolding(crate::specs::TransactionJson::wire_in))]
fn wire(alloc: Global, value: &Value) -> Result<Blob, JsonFault>
    ensures gives { Gives is_json_memory (λ bytes. bytes) result (wire_in (view value.now)) }
    ensures fits { IfOk result (λ bytes. length bytes ≤ max_count) }
{
    known(alloc, value, &["shown", "wire"])?;
    data_member(alloc, value, "wire", MAX_COUNT)
}

/// The bytes of the transaction that the JSON value is (the project's own form): by its members, or
/// bytes that are no transaction as they are, in the member `wire`. A member `shown` is passed over.
#[tactic(auto, unfolding(crate::specs::TransactionJson::transaction_in))]
pub fn transaction(alloc: Global, value: &Value) -> Result<Blob, JsonFault>
    ensures gives { Gives is_json_memory (λ bytes. bytes) result (transaction_in (view value.now)) }
    ensures fits { IfOk result (λ bytes. length bytes ≤ max_count) }
{
    if value.get("wire").is_some() {
        wire(alloc, value)
    } else {
        whole_tx(alloc, value)
    }
}
