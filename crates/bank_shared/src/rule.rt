//! The rule of the desk, and what each kind of step tells its seat.
use crate::kept::{DeskOrigin, Kept};
use crate::view::View;
use atomic_table::{Join, Play, Split, TableRule};
use bank_core::Work;
use proof_note::Note;
use std::marker::PhantomData;

/// The rule of the desk.
pub struct TurnRule<W> {
    of: PhantomData<W>,
}

impl<W: Work> TableRule<Option<Kept<W>>, View<DeskOrigin<W::Told>>, Note<DeskOrigin<W::Told>>>
    for TurnRule<W> {
    ghost use Rattle.bank_shared.specs.Kept.{told_of, journal_of};
    ghost use Rattle.bank_shared.specs.Rule.{IsRuled, first_view};

    ghost holds = { λ note s. IsRuled told_of journal_of (λ kept. kept.drawn) note.value s };

    ghost first = { λ note. first_view note.value };
}

/// The turn is taken (`took`), or another has it and the seat stays as it is.
pub struct Takes<W> {
    of: PhantomData<W>,
}

impl<W: Work> Play<Option<Kept<W>>, View<DeskOrigin<W::Told>>> for Takes<W> {
    ghost use Rattle.bank_shared.specs.Kept.{told_of, journal_of};
    ghost use Rattle.bank_shared.specs.Plays.{took};

    ghost then = { took told_of journal_of (λ kept. kept.drawn) };
}

/// A look, by which more may be seen (`looked`).
pub struct Looks<W> {
    of: PhantomData<W>,
}

impl<W: Work> Play<Option<Kept<W>>, View<DeskOrigin<W::Told>>> for Looks<W> {
    ghost use Rattle.bank_shared.specs.Plays.{looked};

    ghost then = { looked };
}

/// The turn is given up (`released`), with some events of the seat's lanes or none, and the seat
/// gets the lanes that were drawn.
pub struct Releases<W> {
    of: PhantomData<W>,
}

impl<W: Work> Play<Option<Kept<W>>, View<DeskOrigin<W::Told>>> for Releases<W> {
    ghost use Rattle.bank_shared.specs.Kept.{journal_of};
    ghost use Rattle.bank_shared.specs.Plays.{released};

    ghost then = { released journal_of (λ kept. kept.drawn) };
}

/// A seat is split: the new one has no lane (`new_view`).
pub struct Parts;

impl<O> Split<View<O>> for Parts {
    ghost use Rattle.bank_shared.specs.Rule.{new_view};

    ghost left = { λ v. v };

    ghost right = { new_view };
}

/// A seat is split: the new one knows nothing (`spent_view`).
pub struct Blanks;

impl<O> Split<View<O>> for Blanks {
    ghost use Rattle.bank_shared.specs.Rule.{spent_view};

    ghost left = { λ v. v };

    ghost right = { λ v. spent_view };
}

/// A seat is joined into another (`joined_view`), and knows nothing after it.
pub struct Folds;

impl<O> Join<View<O>> for Folds {
    ghost use Rattle.bank_shared.specs.Rule.{joined_view, spent_view};

    ghost both = { joined_view };

    ghost spent = { spent_view };
}
