//! What makes the verifier refuse an sBPF text: where instructions start, where one leads, and the
//! rows of the table of refusals, each by itself.
#![tactic(auto)]

mod places;
mod table;

pub use places::{is_start, is_start_at, leads_to};
pub use table::{
    MAX_SLOTS, calls_no_helper, divides_by_zero, follows_wide, has_bad_field, has_bad_length,
    has_bad_register, has_open_end, is_half_wide, is_second_half, jumps_astray, shifts_too_far,
    writes_frame,
};
