//! Machines over verified texts.
ghost use Rattle.answer_laws.specs.Stopping.{MachinesStop, VerifiedTextsStop};

/// A law: a machine over a verified text comes to a stop within its units, from its start and from
/// wherever an instruction starts.
pub fn verified_texts_stop()
    ensures started { VerifiedTextsStop }
    ensures going { MachinesStop }
{}
