//! How a desk begins, and how it ends.
ghost use Rattle.std.specs.Prelude.{◌≡◌, [], ◌∷◌, IfOk};
ghost use mathlib.Core.List.{IsPrefix};
ghost use Rattle.bank_core.specs.Origins.{AllDoneAfter};
ghost use Rattle.bank_shared.specs.History.{own, own_of};
ghost use Rattle.bank_shared.specs.Face.{desk_origin, desk_lanes, IsPassOf, view_of, pass_lanes, first_pass};

use crate::desk::{Pass, SharedDesk};
use crate::kept::{Kept, origin_of};
use crate::waiting::Waiting;
use atomic_table::Table;
use bank_core::{Core, Work};
use sol_base::OutOfMemory;
use std::alloc::Global;
use std::sync::Wait;

impl<W: Work> SharedDesk<W> {
    /// A desk over a core of which nothing happened yet, and the pass of lane 0. The core is
    /// dropped where memory runs out.
    pub fn new(alloc: Global, core: Core<W>) -> Result<(SharedDesk<W>, Pass<W>), OutOfMemory>
        requires journal { core.journal.items ≡ [] }
        ensures origin { IfOk result (λ made. desk_origin made.0 ≡ core.origin.value) }
        ensures lanes { IfOk result (λ made. desk_lanes made.0 ≡ core.lanes) }
        ensures pass { IfOk result (λ made. IsPassOf made.0 made.1) }
        ensures view { IfOk result
            (λ made. (view_of made.1 ≡ first_pass) × (pass_lanes made.1 ≡ 0 ∷ [])) }
    {
        let about = origin_of(&core);
        let mut slots = Vec::new(alloc);
        let core = Box::new(alloc, core)?;
        slots.push(Some(Kept { core, drawn: 1 }))?;
        let Ok((table, seat)) = Table::new(alloc, &[0], slots, &about) else {
            return Err(OutOfMemory);
        };
        let waiting = Waiting::new();
        Ok((SharedDesk { table, waiting }, Pass { seat, lane: 0 }))
    }

    /// Ends the desk, and returns its core. What other passes hold stays held in it. Of each lane of
    /// the pass, and of each that was joined into it, the core's journal has what the pass has seen,
    /// each event once and no further one.
    pub fn close<R: Wait>(self, rt: &R, pass: Pass<W>) -> Core<W>
        requires desk { IsPassOf self pass }
        ensures origin { result.origin.value ≡ desk_origin self }
        ensures lanes { result.lanes ≡ desk_lanes self }
        ensures history { IsPrefix (view_of pass).seen result.journal.items }
        ensures each { own_of result.journal.items (pass_lanes pass)
            ≡ own_of (view_of pass).seen (pass_lanes pass) }
        ensures mine { own result.journal.items (view_of pass).lane ≡ (view_of pass).mine }
        ensures ended { AllDoneAfter W.job (desk_origin self) (view_of pass).seen
            → result.journal.items ≡ (view_of pass).seen }
    {
        let Pass { mut seat, lane: _ } = pass;
        let Kept { core, drawn: _ } = self.take_turn(rt, &mut seat);
        Box::into_inner(core)
    }
}
