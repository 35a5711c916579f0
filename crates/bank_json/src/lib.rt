//! Snapshots, batches, records and program images as JSON, every byte of them.
#![tactic(auto)]

mod batch;
mod image;
mod laws;
mod record_in;
mod record_out;
mod snapshot_in;
mod snapshot_out;
mod text;

pub use batch::batch_value;
pub use image::image_from_value;
pub use json_parts::{JsonFault, Step, Wanted};
pub use laws::{batches_come_back, images_come_back, records_come_back, snapshots_come_back};
pub use record_out::record_value;
pub use snapshot_in::snapshot_from_value;
pub use snapshot_out::snapshot_value;
pub use text::{
    Layout, batch_of_json, image_of_json, json_of_batch, json_of_image, json_of_record,
    json_of_snapshot, record_of_json, snapshot_of_json,
};
