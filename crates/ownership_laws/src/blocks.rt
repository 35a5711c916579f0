//! The steps of a block.
ghost use Rattle.ownership_laws.specs.Blocks.{BlocksGoInSteps};

/// A law: a block takes the accounts of its snapshot to those after it in steps, one after another.
/// A step is the fee of an entry, which its payer pays; a stretch of a program that a good entry
/// runs, in which each account that the program does not own keeps its owner, its data and all its
/// lamports; that accounts with no lamports go; or the end of the block, which pays the collector and
/// makes programs of final buffers.
pub fn blocks_keep_what_programs_do_not_own()
    ensures steps { BlocksGoInSteps }
{}
