//! Files of what blocks changed that threads read.
ghost use Rattle.std.specs.Prelude.{◌≡◌};
ghost use Rattle.std.specs.Arc.{arc_value};
ghost use Rattle.std.specs.Option.{ForSome};

use crate::told::{Told, ToldOf};
use sol_base::Blob;
use std::sync::Arc;
use std::thread::PromisedHandle;

/// A file of changes that a thread reads, if one could be made.
#[derive(Drop)]
pub(crate) struct Reading {
    pub(crate) slot: u64,
    pub(crate) before: u64,
    pub(crate) bytes: Arc<Blob>,
    pub(crate) child: Option<PromisedHandle<Told, ToldOf>>,
    ghost slot_same: { ForSome child (λ h. h.promise.slot ≡ slot) },
    ghost before_same: { ForSome child (λ h. h.promise.before ≡ before) },
    ghost bytes_same: { ForSome child (λ h. arc_value h.promise.bytes.value ≡ arc_value bytes) },
}
