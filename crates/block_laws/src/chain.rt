//! Blocks one after another, and their records.
ghost use Rattle.block_laws.specs.Chain.{NextBlocksCanBeRun, RecordsAreRead};

/// A law: the snapshot after the block of a batch may be run over by the next block, where it has
/// no more accounts than a snapshot may.
pub fn next_blocks_can_be_run()
    ensures next { NextBlocksCanBeRun }
{}

/// A law: the record of the block that a batch comes to is read as that block. Its lines are texts,
/// and its counts and numbers fit their fields.
pub fn records_are_read()
    ensures read { RecordsAreRead }
{}
