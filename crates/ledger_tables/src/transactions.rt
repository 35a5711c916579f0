//! The rows of the transactions of a block.
ghost use Rattle.std.specs.Prelude.{◌≡◌, IfOk, option_map, slice_get};
ghost use Rattle.message_codec.specs.Parsing.{parsed_of};
ghost use Rattle.ledger_tables.specs.Texts.{key_digits, signature_digits};
ghost use Rattle.ledger_tables.specs.Rows.{first_signature, payer_of, transaction_row, transaction_rows};

use crate::rows::TransactionRow;
use crate::texts::{key_digits, signature_digits};
use block_record::{Block, Entry};
use message_codec::{Parsed, Tx, parse};
use sol_base::{Blob, Items, OutOfMemory};
use std::alloc::Global;
use tx_report::status_text;

fn first_signature(alloc: Global, tx: &Tx) -> Result<Option<Blob>, OutOfMemory>
    ensures { IfOk result (λ text.
        text ≡ option_map signature_digits (slice_get tx.now.signatures 0)) }
{
    match tx.signatures.as_slice().first() {
        Some(signature) => Ok(Some(signature_digits(alloc, signature)?)),
        None => Ok(None),
    }
}

fn payer(alloc: Global, tx: &Tx) -> Result<Option<Blob>, OutOfMemory>
    ensures { IfOk result (λ text. text ≡ option_map key_digits (slice_get tx.now.message.keys 0)) }
{
    match tx.message.keys.as_slice().first() {
        Some(key) => Ok(Some(key_digits(alloc, key)?)),
        None => Ok(None),
    }
}

/// The first signature and the payer of a transaction.
#[derive(Drop)]
struct SignedBy {
    signature: Option<Blob>,
    payer: Option<Blob>,
}

fn signed_by(alloc: Global, wire: &[u8]) -> Result<SignedBy, OutOfMemory>
    ensures signature { IfOk result (λ by. by.signature ≡ first_signature (parsed_of wire.now)) }
    ensures payer { IfOk result (λ by. by.payer ≡ payer_of (parsed_of wire.now)) }
{
    match parse(alloc, wire)? {
        Parsed::Good { tx, name: _ } => Ok(SignedBy {
            signature: first_signature(alloc, &tx)?,
            payer: payer(alloc, &tx)?,
        }),
        Parsed::Bad(_) => Ok(SignedBy {
            signature: None,
            payer: None,
        }),
    }
}

fn transaction_row(
    alloc: Global,
    slot: u64,
    position: u64,
    entry: &Entry,
) -> Result<TransactionRow, OutOfMemory>
    ensures { IfOk result (λ row. row ≡ transaction_row slot (position, entry.now)) }
{
    let SignedBy { signature, payer } = signed_by(alloc, entry.wire.as_slice())?;
    Ok(TransactionRow {
        slot,
        position,
        signature,
        payer,
        status: status_text(alloc, &entry.status)?,
        units: entry.units,
        fee: entry.fee,
    })
}

/// A row for each transaction of the block, in their order.
pub(crate) fn transaction_rows(
    alloc: Global,
    block: &Block,
) -> Result<Items<TransactionRow>, OutOfMemory>
    ensures { IfOk result (λ rows. rows ≡ transaction_rows block.now) }
{
    let entries = block.entries.as_slice();
    let mut rows = Items::with_capacity(alloc, entries.len())?;
    for (position, entry) in entries.iter().enumerate() {
        rows.push(transaction_row(alloc, block.slot, position as u64, entry)?)?;
    }
    Ok(rows)
}
