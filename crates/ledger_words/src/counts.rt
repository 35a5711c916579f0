//! Counts that options say.
ghost use Rattle.std.specs.Prelude.{IfOk, map};
ghost use Rattle.spec_base.specs.Reading.{Gives};
ghost use Rattle.command_words.specs.Arguments.{setting_of};
ghost use Rattle.command_words.specs.Faults.{is_words_memory};
ghost use Rattle.ledger_words.specs.Counts.{IsFrom1, count_given};

use command_words::{Argument, WordsFault, number_of};
use std::alloc::Global;

/// The most blocks from one full state of a chain to the next (the project's own).
pub const MAX_EVERY: u32 = 65_536;

/// The most blocks that are replayed at once (the project's own).
pub const MAX_JOBS: u32 = 64;

/// The number of an option from 1 to `high`. Where it is left out, `default`.
pub(crate) fn count_of(
    alloc: Global,
    arguments: &[Argument<'_>],
    name: &str,
    high: u32,
    default: u32,
) -> Result<u32, WordsFault>
    requires { IsFrom1 high default }
    ensures exact { Gives is_words_memory (λ count. count) result
        (count_given name.now high default (map setting_of arguments.now)) }
    ensures range { IfOk result (IsFrom1 high) }
{
    match number_of(alloc, arguments, name, 1, u64::from(high))? {
        Some(number) => Ok(number as u32),
        None => Ok(default),
    }
}
