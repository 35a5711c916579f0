//! The bytes of a transaction, and the name of a message.
ghost use Rattle.std.specs.Prelude.{◌≡◌, ◌++◌, All, OnOk, IfOk};
ghost use Rattle.message_codec.specs.Wire.{IsCountable, HasShortLists, AllowsLookups, kind_bytes, header_bytes, lookups_bytes, message_bytes, message_name, tx_bytes};

use crate::array::write_array;
use crate::message::{Lookup, Message, MessageKind, Tx};
use crate::reading::MAX_WIRE_LEN;
use sol_base::{Blob, Hash32, Items, OutOfMemory, hash};
use std::alloc::Global;

/// The first byte of a version 0 message (Solana).
const VERSION_ZERO: u8 = 128;

fn write_lookups(
    out: &mut Blob,
    kind: MessageKind,
    lookups: &Items<Lookup>,
) -> Result<(), OutOfMemory>
    requires short { IsCountable lookups.now }
    requires writable { All (λ lookup. IsCountable lookup.writable) lookups.now }
    requires readonly { All (λ lookup. IsCountable lookup.readonly) lookups.now }
    ensures { OnOk result (out.new ≡ out.old ++ lookups_bytes kind lookups.now) }
{
    match kind {
        MessageKind::Legacy => Ok(()),
        MessageKind::Zero => write_array(out, lookups),
    }
}

fn write_opening(out: &mut Blob, message: &Message) -> Result<(), OutOfMemory>
    ensures { OnOk result (out.new
        ≡ out.old ++ (kind_bytes message.now.kind ++ header_bytes message.now.header)) }
{
    let header = message.header;
    if message.kind == MessageKind::Zero {
        out.append(&[VERSION_ZERO])?;
    }
    out.append(&[
        header.required,
        header.readonly_signed,
        header.readonly_unsigned,
    ])
}

fn write_message(out: &mut Blob, message: &Message) -> Result<(), OutOfMemory>
    requires { HasShortLists message.now }
    ensures { OnOk result (out.new ≡ out.old ++ message_bytes message.now) }
{
    write_opening(out, message)?;
    write_array(out, &message.keys)?;
    out.append(&message.blockhash.0)?;
    write_array(out, &message.instructions)?;
    write_lookups(out, message.kind, &message.lookups)
}

/// The bytes of the transaction (Solana's wire format). They may be more than a wire may have.
pub fn write_wire(alloc: Global, tx: &Tx) -> Result<Blob, OutOfMemory>
    requires signatures { IsCountable tx.now.signatures }
    requires lists { HasShortLists tx.now.message }
    requires allows { AllowsLookups tx.now.message.kind tx.now.message.lookups }
    ensures { IfOk result (λ bytes. bytes ≡ tx_bytes tx.now) }
{
    let mut out = Blob::with_capacity(alloc, MAX_WIRE_LEN)?;
    write_array(&mut out, &tx.signatures)?;
    write_message(&mut out, &tx.message)?;
    Ok(out)
}

/// The name of the message: the SHA-256 of its bytes.
pub fn message_key(alloc: Global, message: &Message) -> Result<Hash32, OutOfMemory>
    requires lists { HasShortLists message.now }
    requires allows { AllowsLookups message.now.kind message.now.lookups }
    ensures { IfOk result (λ name. name ≡ message_name message.now) }
{
    let mut out = Blob::with_capacity(alloc, MAX_WIRE_LEN)?;
    write_message(&mut out, message)?;
    Ok(hash(out.as_slice()))
}
