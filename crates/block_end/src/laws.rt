//! Laws over the definitions of a block's end. Their calls do nothing.
ghost use Rattle.std.specs.Prelude.{◌≡◌, List};
ghost use Rattle.sol_base.specs.declared.key.Hash32.{Hash32 as HashValue};
ghost use Rattle.status_cache.specs.Recent.{Ascends, has_hash};
ghost use Rattle.block_end.specs.Blocks.{ascending};

/// A law: names in ascending order ascend, and are the same names.
pub fn sorted_names_are_the_same()
    ensures ascend { (names : List HashValue) → Ascends (ascending names) }
    ensures same { (names : List HashValue) (name : HashValue) →
        has_hash (ascending names) name ≡ has_hash names name }
{}
