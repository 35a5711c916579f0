//! Laws of numbered keys and sets.
ghost use Rattle.lock_table.specs.Laws.{ConflictIsClash, EqualKeysEqualNumbers, KeysStayDistinct, TablesGrowLittle, KeysStay};

/// A law: numbered locks conflict exactly where the locks that they stand for do.
pub fn conflict_is_clash()
    ensures clash { ConflictIsClash }
{}

/// A law: numbers of distinct keys are equal exactly where their keys are.
pub fn equal_keys_have_equal_numbers()
    ensures equal { EqualKeysEqualNumbers }
{}

/// A law: a table keeps its keys and their numbers, stays distinct, and gets at most as many keys
/// as are put in.
pub fn tables_grow_by_what_is_put_in()
    ensures keys { KeysStay }
    ensures distinct { KeysStayDistinct }
    ensures most { TablesGrowLittle }
{}
