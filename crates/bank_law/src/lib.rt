//! The law of the bank: what a list of grants, commits and returns does to positions and accounts,
//! and that every such list, in whatever order its lanes come, agrees with the serial run.
#![tactic(auto)]

mod event;
mod laws;

pub use event::{Event, EventKind};
pub use laws::{
    all_done_is_the_end, done_stays_done, each_job_can_end, events_belong_to_their_lanes,
    every_legal_history_is_sound, histories_are_short, lanes_hold_their_own, loans_fit,
    none_left_is_all_done, one_ready_position_is_the_least, serial_runs_fit,
    some_position_is_ready, states_run_serially, the_end_is_serial,
    the_number_held_follows_the_events, the_serial_run_changes_what_is_written,
};
