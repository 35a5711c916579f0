//! Reading a transaction from its bytes.
ghost use Rattle.std.specs.Prelude.{◌≡◌, IfOk, Ok};
ghost use Rattle.spec_base.specs.Reading.{Gives};
ghost use Rattle.message_codec.specs.Wire.{Wire, message_bytes};
ghost use Rattle.message_codec.specs.declared.message.Tx.{Tx};
ghost use Rattle.message_codec.specs.WireReading.{is_wire_memory, header_at, kind_at, lookups_at, body_at, message_at, wire_of};

use crate::array::read_array;
use crate::fault::WireFault;
use crate::message::{Header, Lookup, Message, MessageKind, Tx};
use format_fields::hash_field;
use sol_base::{Items, Key};
use spec_base::{array_field, place};
use std::alloc::Global;

/// The most bytes of a transaction (Solana).
pub const MAX_WIRE_LEN: usize = 1232;

/// A message's kind, by its first byte, and the bytes from its header on.
fn read_kind(total: usize, bytes: &[u8]) -> Result<(MessageKind, &[u8]), WireFault>
    ensures { Gives is_wire_memory (λ x. (x.0, x.1.now)) result (kind_at total bytes.now) }
{
    match bytes {
        [] => Err(WireFault::Truncated { at: total }),
        [128, rest @ ..] => Ok((MessageKind::Zero, rest)),
        [byte, ..] if *byte > 128 => Err(WireFault::Version { byte: *byte }),
        _ => Ok((MessageKind::Legacy, bytes)),
    }
}

/// The three header bytes, one field.
#[tactic(auto, unfolding(crate::specs::WireReading::header_at))]
fn read_header(total: usize, bytes: &[u8]) -> Result<(Header, &[u8]), WireFault>
    ensures { Gives is_wire_memory (λ x. (x.0, x.1.now)) result (header_at total bytes.now) }
{
    let (field, rest) = array_field::<WireFault, 3>(total, bytes)?;
    let header = Header {
        required: field[0],
        readonly_signed: field[1],
        readonly_unsigned: field[2],
    };
    Ok((header, rest))
}

fn read_lookups(
    alloc: Global,
    kind: MessageKind,
    total: usize,
    bytes: &[u8],
) -> Result<(Items<Lookup>, &[u8]), WireFault>
    ensures { Gives is_wire_memory (λ x. (x.0, x.1.now)) result (lookups_at kind total bytes.now) }
{
    match kind {
        MessageKind::Legacy => Ok((Items::new(alloc), bytes)),
        MessageKind::Zero => read_array(alloc, total, bytes),
    }
}

/// A message from its blockhash on.
fn read_body(
    alloc: Global,
    total: usize,
    kind: MessageKind,
    header: Header,
    keys: Items<Key>,
    bytes: &[u8],
) -> Result<(Message, &[u8]), WireFault>
    ensures { Gives is_wire_memory (λ x. (x.0, x.1.now)) result
        (body_at kind header keys total bytes.now) }
{
    let (blockhash, rest) = hash_field::<WireFault>(total, bytes)?;
    let (instructions, rest) = read_array(alloc, total, rest)?;
    let (lookups, rest) = read_lookups(alloc, kind, total, rest)?;
    let message = Message {
        kind,
        header,
        keys,
        blockhash,
        instructions,
        lookups,
    };
    Ok((message, rest))
}

#[tactic(auto, unfolding(crate::specs::WireReading::message_at))]
fn read_message(alloc: Global, total: usize, bytes: &[u8]) -> Result<(Message, &[u8]), WireFault>
    ensures { Gives is_wire_memory (λ x. (x.0, x.1.now)) result (message_at total bytes.now) }
{
    let (kind, rest) = read_kind(total, bytes)?;
    let (header, rest) = read_header(total, rest)?;
    let (keys, rest) = read_array(alloc, total, rest)?;
    read_body(alloc, total, kind, header, keys, rest)
}

/// The transaction that the bytes are, and the bytes of its message.
#[tactic(auto, unfolding(crate::specs::WireReading::wire_of, crate::specs::WireReading::tx_at))]
pub(crate) fn read_signed(alloc: Global, bytes: &[u8]) -> Result<(Tx, &[u8]), WireFault>
    ensures gives { Gives is_wire_memory (λ x. x.0) result (wire_of bytes.now) }
    ensures message { IfOk result (λ x. x.1.now ≡ message_bytes x.0.message) }
{
    let total = bytes.len();
    if total > MAX_WIRE_LEN {
        return Err(WireFault::TooLong);
    }
    let (signatures, signed) = read_array(alloc, total, bytes)?;
    let (message, rest) = read_message(alloc, total, signed)?;
    if !rest.is_empty() {
        return Err(WireFault::Trailing {
            at: place(total, rest),
        });
    }
    let tx = Tx {
        signatures,
        message,
    };
    Ok((tx, signed))
}

/// The transaction that the bytes are, all of them (Solana's wire format; that no bytes may follow
/// is the project's own).
///
/// The refusals come in the order of the bytes; `TooLong` is tested first, and `Trailing` last.
pub fn read_wire(alloc: Global, bytes: &[u8]) -> Result<Tx, WireFault>
    // What is read is spelled so.
    ensures found { IfOk result (λ tx. Wire bytes.now tx) }
    // What is spelled so is read, unless memory runs out.
    ensures only { (tx : Tx) → Wire bytes.now tx → Gives is_wire_memory (λ v. v) result (Ok tx) }
    // Which refusal it is.
    ensures exact { Gives is_wire_memory (λ v. v) result (wire_of bytes.now) }
{
    read_whole(alloc, bytes)
}

fn read_whole(alloc: Global, bytes: &[u8]) -> Result<Tx, WireFault>
    ensures { Gives is_wire_memory (λ v. v) result (wire_of bytes.now) }
{
    let (tx, _message) = read_signed(alloc, bytes)?;
    Ok(tx)
}
