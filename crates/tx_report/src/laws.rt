//! Laws of statuses and log lines.
ghost use Rattle.std.specs.Prelude.{◌≡◌, ◌∷◌, ◌++◌, [], List, ℕ, IsUtf8, length};
ghost use Rattle.std.specs.List.{AllByRecursion};
ghost use Rattle.spec_base.specs.Bytes.{IsBytes};
ghost use Rattle.tx_report.specs.declared.status.Status.{Status};
ghost use Rattle.tx_report.specs.LogLines.{AreLogged, HasGrown, IsLogOf, IsSmall, Log, no_lines, with_line};
ghost use Rattle.tx_report.specs.Statuses.{IsStatus, status_bytes_of, status_from};

use crate::logs::MAX_LOG_BYTES;
use crate::status::WHOLE_TRANSACTION;

/// The numbers of this crate (Solana's bound of log lines; the index is the project's own).
pub fn numbers_are_as_stated()
    ensures log { MAX_LOG_BYTES ≡ 10_000 }
    ensures index { WHOLE_TRANSACTION ≡ 255 }
{}

/// A law: each status is read from its bytes again, and what is read has these bytes.
pub fn statuses_are_their_bytes()
    ensures again { (status : Status) → IsStatus status
        → status_from (status_bytes_of status) ≡ Some status }
    ensures found { (bytes : List ℕ) (status : Status) → length bytes ≡ 8 → IsBytes bytes
        → status_from bytes ≡ Some status → IsStatus status × (status_bytes_of status ≡ bytes) }
{}

/// A law: line by line, a log comes to keep the longest run of all lines given, from the first on,
/// that has at most 10,000 bytes, and then says where a line is left.
pub fn logs_keep_the_longest_run()
    ensures none { IsLogOf [] no_lines }
    ensures more { (given : List (List ℕ)) (log : Log) (line : List ℕ) → IsLogOf given log
        → IsLogOf (given ++ line ∷ []) (with_line log line) }
{}

/// A law: a log that has grown by lines, each a text of a byte at least, is the log of those lines
/// behind the ones that it had. Where the lines kept were texts they are still, and where they were
/// few and short they still are.
pub fn logs_grow_by_lines()
    ensures log { (given : List (List ℕ)) (before after : Log) → IsLogOf given before
        → (grown : HasGrown before after) → IsLogOf (given ++ grown.given) after }
    ensures texts { (before after : Log) → HasGrown before after
        → AllByRecursion IsUtf8 before.lines → AllByRecursion IsUtf8 after.lines }
    ensures small { (before after : Log) → HasGrown before after → IsSmall before → IsSmall after }
    ensures logged { (log : Log) → HasGrown no_lines log → AreLogged log.lines }
{}
