//! Laws over the steps of machines.
ghost use Rattle.std.specs.Prelude.{◌≡◌, ℕ, List, Some};
ghost use Rattle.sbpf_memory.specs.Memory.{Ranges};
ghost use Rattle.sbpf_verify.specs.Verified.{IsVerified};
ghost use Rattle.sbpf_machine.specs.FramePointer.{PointsToFrame};
ghost use Rattle.sbpf_machine.specs.Keeping.{Keeps, TakesUnits};
ghost use Rattle.sbpf_machine.specs.Plain.{plain, plain_stopped};
ghost use Rattle.sbpf_machine.specs.Runs.{StandsAtStart};
ghost use Rattle.sbpf_machine.specs.Steps.{State, Reaches, Stuck, first_state, resumed, step, steps};

/// A law: a run keeps the text, and the ranges of the memory but for their bytes.
pub fn runs_keep_text_and_ranges()
    ensures stopped { (old new : State) → steps old ≡ Some new → Keeps old new }
    ensures going { (old new : State) → Reaches old new → Keeps old new }
{}

/// A law: a run gains no unit, and has fewer where it has come to a system call.
pub fn runs_take_units()
    ensures stopped { (old new : State) → steps old ≡ Some new → TakesUnits old new }
{}

/// A law: a run does not look at what is prepared or at what was lent.
pub fn runs_do_not_see_preparation()
    ensures same { (x : State) → steps (plain x) ≡ plain_stopped (steps x) }
{}

/// A law: r10 is always the end of the active frame.
pub fn r10_is_the_end_of_the_active_frame()
    ensures first { (text : List ℕ) (memory : Ranges) (units : ℕ)
        → PointsToFrame (first_state text memory units).context }
    ensures going { (old new : State) → IsVerified old.text → Reaches old new
        → PointsToFrame old.context → PointsToFrame new.context }
    ensures stopped { (old new : State) → IsVerified old.text → steps old ≡ Some new
        → PointsToFrame old.context → PointsToFrame new.context }
    ensures resumed { (x : State) (r0 : ℕ)
        → PointsToFrame x.context → PointsToFrame (resumed x r0).context }
{}

/// A law: a machine over a verified text never leaves the rows of the table. Wherever it comes, an
/// instruction starts, and the instruction has a row.
pub fn verified_texts_never_leave_their_rows()
    ensures starts { (old new : State) → StandsAtStart old.text old.place old.context old.stop
        → Reaches old new → StandsAtStart new.text new.place new.context new.stop }
    ensures rows { (at : State) → StandsAtStart at.text at.place at.context at.stop
        → step at.text at.place at.context ≡ Stuck → ⊥ }
{}
