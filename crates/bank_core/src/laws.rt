//! A law of what some lanes did, and the bound of lanes.
ghost use Rattle.std.specs.Prelude.{◌≡◌};
ghost use Rattle.bank_core.specs.Lanes.{EachPartKeeps, EachLaneKeeps};

use crate::opening::MAX_LANE_NUMBERS;

/// A law: where nothing is added to what all lanes of a pass did, nothing is to what some of them
/// did, or one: so what holds of all lanes holds of those of each pass that was joined.
pub fn joined_lanes_keep_their_events()
    ensures parts { EachPartKeeps }
    ensures lanes { EachLaneKeeps }
{}

/// The bound is the project's own.
pub fn bound_of_lanes()
    ensures lanes { MAX_LANE_NUMBERS ≡ 1_024 }
{}
