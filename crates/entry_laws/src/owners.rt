//! What programs do to accounts that they do not own.
ghost use Rattle.entry_laws.specs.Owners.{GoodEntriesRunInStretches};

/// A law: a good entry of a block takes its accounts, less the fee, to those after it by a chain of
/// stretches of programs. In each stretch an account that the program does not own keeps its owner,
/// its data and all its lamports; so an account whose owner does not run while it owns it keeps all
/// that but the fee. The accounts of other keys stay.
pub fn good_entries_run_in_stretches()
    ensures stretches { GoodEntriesRunInStretches }
{}
