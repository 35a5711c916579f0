//! Laws over the definitions that the contracts of this crate cite. Their calls do nothing.
ghost use Rattle.text_views.specs.Parts.{PartsAreRead, PartsAreFound};
ghost use Rattle.text_views.specs.NoDifference.{SnapshotsAreTold, BlocksAreTold};

/// A law: the two parts of some bytes are the record of a block and a snapshot, and what is the
/// record of a block and then a snapshot has these two parts.
pub fn outputs_are_their_parts()
    ensures read { PartsAreRead }
    ensures found { PartsAreFound }
{}

/// A law: no line tells of a difference exactly where the two snapshots, or the two blocks of
/// records, are equal.
pub fn equal_ones_have_no_lines()
    ensures snapshots { SnapshotsAreTold }
    ensures blocks { BlocksAreTold }
{}
