//! What was wanted of an assembler text that is refused.
#![tactic(auto)]

mod hint;
mod laws;
mod line;
mod nearest;
mod place;

pub use hint::{Hint, Limit};
pub use laws::refused_lines_have_hints;
pub use line::{line_hint, word_of};
pub use nearest::nearest_mnemonic;
pub use place::{hint_of, line_at, line_of_slot};
