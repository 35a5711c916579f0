//! A value that exists in proofs alone: contracts compare it, no code can read it, and it takes no
//! bytes. A struct keeps by it what it was made from, where keeping the thing itself would cost a
//! copy or a borrow.
//!
//! A note says what its maker chose to note. It can be taken again at will, so it shows nothing of
//! ownership, and no answer of a program can depend on it. Nor does it show that such a value ever
//! was: of a note of a `T` no range, no length and no invariant of `T` is known. A struct that
//! needs them keeps them beside the note, in a ghost field of its own.
#![tactic(auto)]

ghost use Rattle.std.specs.Prelude.{◌≡◌};
ghost use Rattle.std.specs.Borrow.{ftrue};

use std::marker::{Model, PhantomData};

/// A value of `T` that exists in proofs alone. It crosses threads whatever `T` is.
pub struct Note<T> {
    marker: PhantomData<*const T>,
    pub ghost value: { T },
}

impl<T> Model for Note<T> {
    ghost also_owns = { λ _. ftrue };
}

impl<T> Note<T> {
    /// Notes any value. That nothing has to be done for it is shown by hand.
    fn make() -> Note<T>
        ghost noted: { T }
        ensures { result.value ≡ noted }
    {
        Note {
            marker: PhantomData,
        }
    }
}

impl<T> Note<T> {
    /// Notes a value that the proof of the call names, which may speak of `from`.
    pub fn told_by<X>(_from: &X) -> Note<T>
        ghost noted: { T }
        ensures { result.value ≡ noted }
    {
        Note::make()
    }

    /// Another note of this value.
    pub fn again(&self) -> Note<T>
        ensures { result.value ≡ self.now.value }
    {
        Note::told_by(self)
    }
}

// There is nothing to send or to share.
unsafe impl<T> Send for Note<T> {}

unsafe impl<T> Sync for Note<T> {}

impl<T> Drop for Note<T> {
    fn drop(self) {
        let Note { marker: _ } = self;
    }
}
