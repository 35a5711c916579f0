//! Positions by their locks alone.
ghost use Rattle.std.specs.Prelude.{◌≡◌, ◌<◌};
ghost use Rattle.bank_law.specs.Job.{Job};

use crate::work::Work;
use sol_base::LockList;

/// Positions by their locks alone: what is known of a work before it can be performed.
pub trait Locked {
    /// A job with these locks.
    ghost job: { Self → Job };

    /// The number of positions.
    fn count(&self) -> u32
        ensures { result ≡ (job self.now).count };

    /// The locks of a position.
    fn locks(&self, position: u32) -> &LockList
        requires { position < (job self.now).count }
        ensures { result.now ≡ (job self.now).locks position };
}

/// The positions of a work.
#[derive(Drop)]
pub(crate) struct OfWork<'a, W: Work> {
    pub(crate) work: &'a W,
}

impl<'a, W: Work> Locked for OfWork<'a, W> {
    ghost job = { λ of. W.job (W.told of.work.now) };

    fn count(&self) -> u32 {
        self.work.count()
    }

    fn locks(&self, position: u32) -> &LockList {
        self.work.locks(position)
    }
}
