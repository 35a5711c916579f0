//! Outcomes that are told while lanes run.
ghost use Rattle.std.specs.Prelude.{◌≡◌, ◌+◌, ◌≤◌, IfOk, drop, length, take};
ghost use mathlib.Core.List.{IsPrefix};
ghost use Rattle.bank_core.specs.Ends.{outcomes_at_end};
ghost use Rattle.bank_core.specs.Origins.{IsLegalFor, state_after};
ghost use Rattle.bank_core.specs.Told.{done_from};
ghost use Rattle.bank_shared.specs.Face.{desk_origin, IsPassOf, IsReaderOf, view_of, pass_lanes, seen_by};

use crate::desk::{Pass, Reader, SharedDesk};
use crate::rule::Parts;
use bank_core::{SharedOutcome, Work};
use sol_base::{Items, OutOfMemory};
use std::sync::Wait;

impl<W: Work> SharedDesk<W> {
    /// A reader, which leaves all that the pass knows.
    pub fn reader(&self, pass: &mut Pass<W>) -> Reader<W>
        requires pass { IsPassOf self.now pass.old }
        ensures pass { IsPassOf self.now pass.new }
        ensures view { view_of pass.new ≡ view_of pass.old }
        ensures lanes { pass_lanes pass.new ≡ pass_lanes pass.old }
        ensures reader { IsReaderOf self.now result }
    {
        Reader {
            seat: self.table.shared.split_seat::<Parts>(&mut pass.seat),
        }
    }

    /// Shares of the outcomes of so many positions from one on, up to the first that is not done
    /// when the reader has the turn: the serial run gives the same.
    pub fn outcomes_from<R: Wait>(
        &self,
        rt: &R,
        reader: &mut Reader<W>,
        from: u32,
        most: u32,
    ) -> Result<Items<SharedOutcome>, OutOfMemory>
        requires reader { IsReaderOf self.now reader.old }
        requires within { from + most ≤ (W.job (desk_origin self.now).told).count }
        ensures reader { IsReaderOf self.now reader.new }
        ensures seen { IsPrefix (seen_by reader.old) (seen_by reader.new) }
        ensures legal { IsLegalFor W.job (desk_origin self.now) (seen_by reader.new) }
        ensures exact { IfOk result (λ told. told
            ≡ done_from (state_after W.job (desk_origin self.now)
            (seen_by reader.new)).stage from most) }
        ensures serial { IfOk result (λ told. told
            ≡ take (length told) (drop from (outcomes_at_end W.job (desk_origin self.now)))) }
    {
        let kept = self.take_turn(rt, &mut reader.seat);
        let told = kept.core.outcomes_from(from, most);
        self.release(&mut reader.seat, kept);
        told
    }

    /// Shares of the outcomes of so many positions from one on, up to the first that is not done. Where
    /// there are none, it first sleeps until lanes have gone on or the reader is dismissed.
    pub fn next_outcomes<R: Wait>(
        &self,
        rt: &R,
        reader: &mut Reader<W>,
        from: u32,
        most: u32,
    ) -> Result<Items<SharedOutcome>, OutOfMemory>
        requires reader { IsReaderOf self.now reader.old }
        requires within { from + most ≤ (W.job (desk_origin self.now).told).count }
        ensures reader { IsReaderOf self.now reader.new }
        ensures seen { IsPrefix (seen_by reader.old) (seen_by reader.new) }
        ensures legal { IsLegalFor W.job (desk_origin self.now) (seen_by reader.new) }
        ensures exact { IfOk result (λ told. told
            ≡ done_from (state_after W.job (desk_origin self.now)
            (seen_by reader.new)).stage from most) }
        ensures serial { IfOk result (λ told. told
            ≡ take (length told) (drop from (outcomes_at_end W.job (desk_origin self.now)))) }
    {
        let word = self.waiting.begin_look();
        let told = self.outcomes_from(rt, reader, from, most);
        if told.as_ref().is_ok_and(|outcomes| outcomes.is_empty()) {
            self.waiting.rest_reader(rt, word);
        }
        self.waiting.end_look();
        told
    }

    /// Wakes the reader, which has nothing to wait for any more: the lanes have ended.
    pub fn dismiss_reader(&self) {
        self.waiting.dismiss()
    }

    /// Whether the lanes have ended.
    pub fn is_dismissed(&self) -> bool {
        self.waiting.is_dismissed()
    }
}
