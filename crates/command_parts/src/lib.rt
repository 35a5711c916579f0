//! What the programs' commands share: arguments, numbers in them, the limit of an input, statuses and
//! results.
#![tactic(auto)]

mod answer;
mod delivery;
mod input;
mod number;
mod status;
mod words;
mod writing;

pub use answer::{Answer, noted, written};
pub use delivery::{Undelivered, deliver};
pub use input::{Given, INPUT_LIMIT, given_of};
pub use number::number_in;
pub use status::{
    DIFFERS, INPUT_REFUSED, OUT_OF_MEMORY, READ_FAILED, WORDS_REFUSED, WRITE_FAILED, status_after,
};
pub use words::{NoWords, lent_words, path_of, words_after_name};
pub use writing::write_answer;
