//! Keys in their order.
ghost use Rattle.std.specs.Prelude.{◌≡◌, ◌≤◌, length};
ghost use Rattle.std.specs.List.Sorted.{IsStrictlySortedBy};
ghost use Rattle.sol_base.specs.declared.key.Key.{Key as KeyValue};
ghost use Rattle.sol_base.specs.Keys.{key_cmp, has_key};

use sol_base::Key;

/// Sorts keys, and drops each that repeats another.
pub fn sort_keys(keys: &mut Vec<Key>)
    ensures ascend { IsStrictlySortedBy key_cmp keys.new.items }
    ensures same { (key : KeyValue) → has_key key keys.new.items ≡ has_key key keys.old.items }
    ensures fewer { length keys.new.items ≤ length keys.old.items }
{
    keys.sort_unstable();
    keys.dedup();
}
