//! JSON texts.
ghost use Rattle.std.specs.Prelude.{◌≡◌, ◌≤◌, Some, IfOk, string_bytes};
ghost use Rattle.spec_base.specs.Reading.{Gives};
ghost use Rattle.serde_json.specs.Data.{depth};
ghost use Rattle.serde_json.specs.Read.{read, max_depth};
ghost use Rattle.serde_json.specs.View.{view};
ghost use Rattle.json_parts.specs.Faults.{is_json_memory};
ghost use Rattle.bank_json.specs.SnapshotJson.{data_of_snapshot, snapshot_of_data};
ghost use Rattle.bank_json.specs.BatchJson.{data_of_batch, batch_of_data};
ghost use Rattle.bank_json.specs.RecordJson.{data_of_record, record_of_data};
ghost use Rattle.bank_json.specs.ImageJson.{data_of_image, image_of_data};
ghost use Rattle.bank_json.specs.Texts.{shown, TextGives};

use crate::batch::{batch_from_value, batch_value};
use crate::image::{image_from_value, image_value};
use crate::record_in::record_from_value;
use crate::record_out::record_value;
use crate::snapshot_in::snapshot_from_value;
use crate::snapshot_out::snapshot_value;
use json_parts::{JsonFault, value_of_text};
use serde_json::Value;
use sol_base::Blob;
use std::alloc::{AllocError, Global};

/// How a JSON text is laid out.
#[derive(Clone, Copy, PartialEq, Eq)]
pub enum Layout {
    /// Without spaces and line feeds.
    Compact,
    /// Each item and member on a line of its own.
    Pretty,
}

fn text_of(alloc: Global, value: &Value, layout: Layout) -> Result<String, AllocError>
    ensures { IfOk result (λ text. depth (view value.now) ≤ max_depth
        → read (string_bytes text) ≡ Some (view value.now)) }
{
    match layout {
        Layout::Compact => value.to_string(alloc),
        Layout::Pretty => value.to_string_pretty(alloc),
    }
}

/// The JSON text of the snapshot that the bytes are, all of them (the project's own form): what
/// `snapshot_of_json` turns into the same bytes. `snapshot_from_value` says which members it has.
pub fn json_of_snapshot(alloc: Global, bytes: &[u8], layout: Layout) -> Result<String, JsonFault>
    ensures { Gives is_json_memory (λ text. read (string_bytes text)) result
        (shown (data_of_snapshot bytes.now)) }
{
    let value = snapshot_value(alloc, bytes)?;
    Ok(text_of(alloc, &value, layout)?)
}

/// The bytes of the snapshot that the JSON text is, as `snapshot_from_value` reads its value.
pub fn snapshot_of_json(alloc: Global, text: &str) -> Result<Blob, JsonFault>
    ensures { TextGives snapshot_of_data (read text.now) result }
{
    let value = value_of_text(alloc, text)?;
    snapshot_from_value(alloc, &value)
}

/// The JSON text of the batch that the bytes are, all of them (the project's own form): what
/// `batch_of_json` turns into the same bytes. `batch_from_value` says which members it has.
pub fn json_of_batch(alloc: Global, bytes: &[u8], layout: Layout) -> Result<String, JsonFault>
    ensures { Gives is_json_memory (λ text. read (string_bytes text)) result
        (shown (data_of_batch bytes.now)) }
{
    let value = batch_value(alloc, bytes)?;
    Ok(text_of(alloc, &value, layout)?)
}

/// The bytes of the batch that the JSON text is, as `batch_from_value` reads its value.
pub fn batch_of_json(alloc: Global, text: &str) -> Result<Blob, JsonFault>
    ensures { TextGives batch_of_data (read text.now) result }
{
    let value = value_of_text(alloc, text)?;
    batch_from_value(alloc, &value)
}

/// The JSON text of the record that the bytes are, all of them (the project's own form): what
/// `record_of_json` turns into the same bytes. `record_from_value` says which members it has.
pub fn json_of_record(alloc: Global, bytes: &[u8], layout: Layout) -> Result<String, JsonFault>
    ensures { Gives is_json_memory (λ text. read (string_bytes text)) result
        (shown (data_of_record bytes.now)) }
{
    let value = record_value(alloc, bytes)?;
    Ok(text_of(alloc, &value, layout)?)
}

/// The bytes of the record that the JSON text is, as `record_from_value` reads its value.
pub fn record_of_json(alloc: Global, text: &str) -> Result<Blob, JsonFault>
    ensures { TextGives record_of_data (read text.now) result }
{
    let value = value_of_text(alloc, text)?;
    record_from_value(alloc, &value)
}

/// The JSON text of the program image that the bytes are (the project's own form): what
/// `image_of_json` turns into the same bytes. `image_from_value` says which members it has.
pub fn json_of_image(alloc: Global, bytes: &[u8], layout: Layout) -> Result<String, JsonFault>
    ensures { Gives is_json_memory (λ text. read (string_bytes text)) result
        (shown (data_of_image bytes.now)) }
{
    let value = image_value(alloc, bytes)?;
    Ok(text_of(alloc, &value, layout)?)
}

/// The bytes of the program image that the JSON text is, as `image_from_value` reads its value.
pub fn image_of_json(alloc: Global, text: &str) -> Result<Blob, JsonFault>
    ensures { TextGives image_of_data (read text.now) result }
{
    let value = value_of_text(alloc, text)?;
    image_from_value(alloc, &value)
}
