//! Laws over the definitions that the contracts of this crate cite. Their calls do nothing.
ghost use Rattle.std.specs.Prelude.{◌≡◌, ℕ, List, Ok};
ghost use Rattle.spec_base.specs.Bytes.{IsBytes};
ghost use Rattle.serde_json.specs.Read.{read};
ghost use Rattle.bank_json.specs.SnapshotJson.{data_of_snapshot, snapshot_of_data};
ghost use Rattle.bank_json.specs.BatchJson.{data_of_batch, batch_of_data};
ghost use Rattle.bank_json.specs.RecordJson.{data_of_record, record_of_data};
ghost use Rattle.bank_json.specs.ImageJson.{data_of_image, image_of_data};
ghost use Rattle.bank_json.specs.Texts.{shown, TextIs};

/// A law: what `snapshot_of_json` returns for the text that `json_of_snapshot` made of bytes is the
/// same bytes, or that memory ran out.
pub fn snapshots_come_back()
    ensures { (bytes text : List ℕ) → IsBytes bytes
        → shown (data_of_snapshot bytes) ≡ Ok (read text) → TextIs snapshot_of_data text bytes }
{}

/// A law: what `batch_of_json` returns for the text that `json_of_batch` made of bytes is the
/// same bytes, or that memory ran out.
pub fn batches_come_back()
    ensures { (bytes text : List ℕ) → IsBytes bytes
        → shown (data_of_batch bytes) ≡ Ok (read text) → TextIs batch_of_data text bytes }
{}

/// A law: what `record_of_json` returns for the text that `json_of_record` made of bytes is the
/// same bytes, or that memory ran out.
pub fn records_come_back()
    ensures { (bytes text : List ℕ) → IsBytes bytes
        → shown (data_of_record bytes) ≡ Ok (read text) → TextIs record_of_data text bytes }
{}

/// A law: what `image_of_json` returns for the text that `json_of_image` made of bytes is the
/// same bytes, or that memory ran out.
pub fn images_come_back()
    ensures { (bytes text : List ℕ) → IsBytes bytes
        → shown (data_of_image bytes) ≡ Ok (read text) → TextIs image_of_data text bytes }
{}
