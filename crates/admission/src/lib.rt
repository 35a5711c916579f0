//! Which transactions of a batch run, and in which order: the causes for which one does not, the
//! line by priority, and the limits on compute units.
#![tactic(auto)]

mod batch;
mod beside;
mod candidate;
mod chosen;
mod laws;
mod line;
mod lookups;
mod refusal;
mod sift;
mod standing;
mod text;
mod units;
mod walk;
mod weighing;

pub use batch::{admit, admit_listed, admit_parsed, line_up, line_up_listed, line_up_on};
pub use candidate::Candidate;
pub use chosen::{Admitted, Chosen, InLine};
pub use laws::{batches_are_parted, lines_are_by_priority, refusals_are_of_the_input};
pub use lookups::{LookupFault, TABLE_HEADER_LEN, resolve};
pub use refusal::{Refusal, Refused};
pub use text::refusal_text;
