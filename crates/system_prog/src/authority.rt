//! Who signs for the accounts of an instruction.
use sol_base::Key;

/// Who signs for the accounts of an instruction.
#[derive(Clone, Copy)]
pub(crate) enum Authority {
    /// Each account signs for itself.
    Itself,
    /// For the account at the place `derived`, which is derived from a base, the base's key signs.
    Base { derived: usize, key: Key },
}
