//! Blocks whose entries run again.
ghost use Rattle.block_laws.specs.Replay.{BlocksRunAgain, ReplaysMatch};

/// A law: the entries of the block that a batch comes to, run again in their order over the same
/// snapshot, are all admitted again and come to the same block.
pub fn blocks_run_again()
    ensures again { BlocksRunAgain }
{}

/// A law: the record that `produce` makes of a snapshot and a batch after its slot has the verdict
/// Match over that snapshot.
pub fn replays_match()
    ensures matches { ReplaysMatch }
{}
