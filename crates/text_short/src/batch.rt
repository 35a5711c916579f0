//! A batch in the short form.
ghost use Rattle.std.specs.Prelude.{◌≤◌, All, IfOk, codes, length};
ghost use Rattle.spec_base.specs.Reading.{Gives};
ghost use Rattle.serde_json.specs.View.{view};
ghost use Rattle.serde_json.specs.Read.{read};
ghost use Rattle.sol_base.specs.Limits.{max_transactions};
ghost use Rattle.snapshot_codec.specs.Batch.{IsShortWire};
ghost use Rattle.json_parts.specs.Faults.{is_json_memory};
ghost use Rattle.json_parts.specs.Parts.{known_in, member_in};
ghost use Rattle.json_parts.specs.Texts.{TextGives};
ghost use Rattle.text_short.specs.Members.{list_of};
ghost use Rattle.text_short.specs.ShortForm.{transaction_in, batch_names, short_batch_in};

use crate::list::{ReadsItems, list_member};
use crate::members::key_member;
use crate::transaction::transaction;
use json_parts::{JsonFault, known, number_member, value_of_text};
use serde_json::Value;
use snapshot_codec::{Batch, batch_bytes};
use sol_base::{Blob, Hash32, Items, MAX_TRANSACTIONS};
use std::alloc::Global;

/// The transactions of a batch, with the newest blockhash where one is known.
#[derive(Clone, Copy)]
struct Wires {
    newest: Option<Hash32>,
}

impl ReadsItems<Blob> for Wires {
    ghost use Rattle.text_short.specs.ShortForm.{transaction_in};

    ghost item_in = { λ wires. transaction_in wires.newest };

    fn read(&self, alloc: Global, value: &Value) -> Result<Blob, JsonFault> {
        transaction(alloc, value, self.newest)
    }
}

fn wires_member(
    alloc: Global,
    value: &Value,
    newest: Option<Hash32>,
) -> Result<Items<Blob>, JsonFault>
    ensures gives { Gives is_json_memory (λ x. x) result
        (member_in (codes "transactions") (list_of max_transactions (transaction_in newest))
        (view value.now)) }
    ensures few { IfOk result (λ wires. length wires ≤ max_transactions) }
    ensures short { IfOk result (λ wires. All IsShortWire wires) }
{
    list_member(
        alloc,
        value,
        "transactions",
        MAX_TRANSACTIONS,
        &Wires { newest },
    )
}

#[tactic(auto, unfolding(crate::specs::ShortForm::batch_names))]
fn known_of_batch(alloc: Global, value: &Value) -> Result<(), JsonFault>
    ensures { Gives is_json_memory (λ x. x) result (known_in batch_names (view value.now)) }
{
    known(alloc, value, &["slot", "collector", "transactions"])
}

/// The bytes of the batch that the JSON value is in the short form (the project's own).
///
/// Its members are `slot`, `collector` and `transactions`. A transaction has the members `payer`,
/// `recent_blockhash` (64 hexadecimal digits, or the text `newest` for the newest blockhash, where
/// one is known), `instructions` and, for a version 0 message, `lookups`: tables with the members
/// `table` and `addresses`. An instruction is one of the system program, of the compute budget
/// program or of the loader, whose name is in the member `system`, `budget` or
/// `loader`, or one with the members `program`, `accounts` and `data`. A key is a text, which
/// `named_key` reads. No other members are allowed, and `build_wire` builds the transactions.
#[tactic(auto, unfolding(crate::specs::ShortForm::short_batch_in))]
fn short_batch(alloc: Global, value: &Value, newest: Option<Hash32>) -> Result<Blob, JsonFault>
    ensures { Gives is_json_memory (λ x. x) result (short_batch_in newest (view value.now)) }
{
    known_of_batch(alloc, value)?;
    let slot = number_member(alloc, value, "slot", 1, u64::MAX)?;
    let collector = key_member(alloc, value, "collector")?;
    let wires = wires_member(alloc, value, newest)?;
    let batch = Batch {
        slot,
        collector,
        wires,
    };
    Ok(batch_bytes(alloc, &batch)?)
}

/// The bytes of the batch that the JSON text is in the short form, as `short_batch` reads its
/// value.
pub fn short_batch_of_json(
    alloc: Global,
    text: &str,
    newest: Option<Hash32>,
) -> Result<Blob, JsonFault>
    ensures { TextGives (short_batch_in newest) (read text.now) result }
{
    let value = value_of_text(alloc, text)?;
    short_batch(alloc, &value, newest)
}
