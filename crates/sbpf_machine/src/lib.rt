//! The machine that runs verified sBPF texts up to their stops.
#![tactic(auto)]

mod context;
mod frames;
mod instruction;
mod laws;
mod machine;
mod run;
mod stop;
mod values;

pub use laws::{
    r10_is_the_end_of_the_active_frame, runs_do_not_see_preparation, runs_keep_text_and_ranges,
    runs_take_units, verified_texts_never_leave_their_rows,
};
pub use machine::Machine;
pub use stop::{Fault, Stop};
