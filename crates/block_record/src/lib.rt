//! Records of blocks as bytes, both ways, and the hash of a block.
#![tactic(auto)]

mod block;
mod entries;
mod fault;
mod laws;
mod lines;
mod reading;
mod writing;

pub use block::{Block, Entry, EntryParts, Front, Listed};
pub use fault::RecordFault;
pub use laws::written_records_are_read;
pub use reading::{read_front, read_record};
pub use writing::{
    begin_hash, block_hash, end_hash, end_record, hash_entries, lines_bytes, record_bytes,
    write_heading, write_parts, write_record,
};
