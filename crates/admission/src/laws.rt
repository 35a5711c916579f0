//! Laws over the definitions that the contracts of this crate cite. Their calls do nothing.
ghost use Rattle.std.specs.Prelude.{◌≡◌, ℕ, All, AllPairs, List, false};
ghost use Rattle.message_codec.specs.declared.parsed.Parsed.{Parsed as ParsedValue};
ghost use Rattle.admission.specs.Admission.{Start, admitted, line, listed, sifted_out};
ghost use Rattle.admission.specs.Batches.{IsParted};
ghost use Rattle.admission.specs.Lines.{IsLineOf, StandsBefore};
ghost use Rattle.admission.specs.Refusals.{is_refusal_memory};

/// A law: each transaction of a batch runs or is refused. Those that run are what the wires at
/// their positions spell, and no two of them have one name or one position.
pub fn batches_are_parted()
    ensures by_priority { (start : Start) (wires : List (List ℕ)) →
        IsParted wires (admitted start wires) }
    ensures by_position { (start : Start) (wires : List (List ℕ)) →
        IsParted wires (listed start wires) }
{}

/// A law: the line of a batch has the transactions without an early cause, by their priorities and
/// then by their positions. Those that run keep that order.
pub fn lines_are_by_priority()
    ensures line { (start : Start) (batch : List ParsedValue) →
        IsLineOf (sifted_out start batch) (line (sifted_out start batch)) }
    ensures order { (start : Start) (wires : List (List ℕ)) →
        AllPairs StandsBefore (admitted start wires).order }
{}

/// A law: no refusal of a batch says out of memory.
pub fn refusals_are_of_the_input()
    ensures by_priority { (start : Start) (wires : List (List ℕ)) →
        All (λ refused. is_refusal_memory refused.cause ≡ false) (admitted start wires).refused }
    ensures by_position { (start : Start) (wires : List (List ℕ)) →
        All (λ refused. is_refusal_memory refused.cause ≡ false) (listed start wires).refused }
{}
