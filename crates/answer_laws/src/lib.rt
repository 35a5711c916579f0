//! What holds of the answers of the commands and of the definitions that they are made of: laws over
//! them. The calls here do nothing.
#![tactic(auto)]

mod equal;
mod matching;
mod reading;
mod replays;
mod stopping;

pub use equal::equal_snapshots_give_equal_blocks;
pub use matching::matching_records_are_the_block;
pub use reading::{
    batches_are_read_as_they_are_spelled, records_are_read_as_they_are_spelled,
    snapshots_are_read_as_they_are_spelled,
};
pub use replays::{matches_are_blocks, produced_records_match};
pub use stopping::verified_texts_stop;
