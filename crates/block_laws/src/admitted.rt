//! What a batch admits.
ghost use Rattle.std.specs.Prelude.{ℕ, ◌≤◌, All, List};
ghost use Rattle.spec_base.specs.Bytes.{IsBytes};
ghost use Rattle.sol_base.specs.Limits.{max_transaction_keys};
ghost use Rattle.admission.specs.Admission.{Start, admitted, listed};
ghost use Rattle.admission.specs.Chosen.{IsChosen};
ghost use Rattle.block_laws.specs.Again.{AreAdmittedAgain};
ghost use Rattle.block_laws.specs.Parts.{PositionsAreParted};

/// A law: each position of a batch runs or is refused, and none does both; none runs twice, and
/// those that are refused ascend.
pub fn positions_run_or_are_refused()
    ensures by_priority { (start : Start) (wires : List (List ℕ)) →
        PositionsAreParted wires (admitted start wires) }
    ensures by_position { (start : Start) (wires : List (List ℕ)) →
        PositionsAreParted wires (listed start wires) }
{}

/// A law: what a batch admits is fit to run, where the wires are bytes and the limits allow no more
/// keys than a chain may. It is sane, its keys are loaded and apart, and its name, budget, fee and
/// locks are its own.
pub fn admitted_transactions_are_chosen()
    ensures by_priority { (start : Start) (wires : List (List ℕ)) → start.limits.keys ≤ max_transaction_keys →
        All IsBytes wires → All IsChosen (admitted start wires).order }
    ensures by_position { (start : Start) (wires : List (List ℕ)) → start.limits.keys ≤ max_transaction_keys →
        All IsBytes wires → All IsChosen (listed start wires).order }
{}

/// A law: what a batch admits by priority is all admitted again where it is alone, in that
/// order, and comes to the same but for its positions.
pub fn admitted_transactions_are_admitted_again()
    ensures again { (start : Start) (wires : List (List ℕ)) → AreAdmittedAgain start wires }
{}
