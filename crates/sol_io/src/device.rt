//! Sources and sinks.
ghost use Rattle.std.specs.Prelude.{◌≡◌, ℕ, ◌<◌, ◌≤◌, List, Option, take, length, IfOk, MatchResult};
ghost use Rattle.sol_io.specs.Counts.{CountsFailures, SinkCounts};
ghost use Rattle.sol_io.specs.Bytes.{Consumes, Keeps, Appends, IsAtEnd};

use crate::fault::{Failed, SinkFault};

/// What bytes are read from.
pub trait Source {
    /// The bytes not yet read, where they are told.
    ghost left: { Self → Option (List ℕ) };

    /// How often the source failed: a count that never falls.
    ghost faults: { Self → ℕ };

    /// Moves bytes into the front of the buffer, and returns how many: 0 for a buffer that is not
    /// empty says that the source is at its end. What is behind them, and in the whole buffer
    /// after a failure, is left open.
    fn read(&mut self, buf: &mut [u8]) -> Result<usize, Failed>
        ensures bound { IfOk result (λ n. n ≤ length buf.old) }
        ensures bytes { MatchResult result
            (λ n. Consumes (left self.old) (left self.new) (take n buf.new))
            (λ _. Keeps (left self.old) (left self.new)) }
        ensures end { IfOk result (λ n. n ≡ 0 → 0 < length buf.old → IsAtEnd (left self.new)) }
        ensures counts { CountsFailures result (faults self.old) (faults self.new) };
}

/// What bytes are written to.
pub trait Sink {
    /// The bytes taken so far, where they are told.
    ghost held: { Self → Option (List ℕ) };

    /// How often the sink failed: a count that never falls.
    ghost faults: { Self → ℕ };

    /// Takes bytes from the front of the piece, and returns how many. A refusal takes none.
    fn write(&mut self, piece: &[u8]) -> Result<usize, SinkFault>
        ensures bound { IfOk result (λ n. n ≤ length piece.now) }
        ensures some { IfOk result (λ n. 0 < length piece.now → 0 < n) }
        ensures bytes { MatchResult result
            (λ n. Appends (held self.old) (held self.new) (take n piece.now))
            (λ _. Keeps (held self.old) (held self.new)) }
        ensures counts { SinkCounts result (faults self.old) (faults self.new) };
}
