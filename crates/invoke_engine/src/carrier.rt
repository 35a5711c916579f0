//! What frames hand on to each other.

use crate::call::StoppedAt;
use std::marker::Model;
use sys_calls::Env;

/// The instructions started, where the program stopped that failed first, and the surroundings of
/// system calls, which hold the log and the returned bytes.
#[derive(Drop)]
pub struct Carrier {
    pub trace: u8,
    pub stopped_at: Option<StoppedAt>,
    pub env: Env,
}

impl Model for Carrier {
    ghost use Rattle.invoke_engine.specs.Frames.{Carried};

    ghost Value = { Carried };

    ghost view = { λ c. record {
      trace = c.trace;
      returned = c.env.returned;
      keeper = c.env.returned_by;
      log = c.env.logs;
      stopped_at = c.stopped_at;
    } };
}
