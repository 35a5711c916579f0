//! Verified texts with their decoded instructions.
ghost use Rattle.std.specs.Prelude.{◌≡◌, IfOk};
ghost use Rattle.std.specs.Arc.{arc_value};
ghost use Rattle.sbpf_verify.specs.Entries.{IsDecoded};
ghost use Rattle.sbpf_verify.specs.Verified.{IsVerified};

use crate::entry::{Entry, entries_of};
use crate::verified::Verified;
use sol_base::{Items, OutOfMemory};
use std::alloc::Global;
use std::marker::Model;
use std::sync::Arc;

/// A verified text with the entries that a machine runs on. Decoding takes memory, which `verify`
/// does not: it is done once, here.
#[derive(Drop)]
pub struct Decoded {
    program: Arc<Verified>,
    entries: Items<Entry>,
}

impl Model for Decoded {
    ghost use Rattle.std.specs.Prelude.{ℕ, List};
    ghost use Rattle.std.specs.Arc.{arc_value};
    ghost use Rattle.sbpf_verify.specs.Entries.{IsDecoded};
    ghost use Rattle.sbpf_verify.specs.Verified.{IsVerified};

    ghost Value = { List ℕ };

    ghost view = { λ d. arc_value d.program };

    ghost invariant = { λ d. IsVerified (arc_value d.program)
        × IsDecoded (arc_value d.program) d.entries };
}

impl Decoded {
    /// Decodes the text of a program.
    pub fn of(alloc: Global, program: Arc<Verified>) -> Result<Decoded, OutOfMemory>
        ensures { IfOk result (λ decoded. decoded ≡ arc_value program) }
    {
        let entries = entries_of(alloc, program.text())?;
        Ok(Decoded { program, entries })
    }

    pub fn program(&self) -> &Arc<Verified>
        ensures { arc_value result.now ≡ self.now }
    {
        &self.program
    }

    /// One entry for each slot. Those of second halves of `lddw` mean nothing.
    pub fn entries(&self) -> &[Entry]
        ensures decoded { IsDecoded self.now result.now }
        ensures verified { IsVerified self.now }
    {
        self.entries.as_slice()
    }
}
