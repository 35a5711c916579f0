//! The values of arguments.
ghost use Rattle.std.specs.Prelude.{◌≡◌, ◌≤◌, IfOk, IfSome, is_some, map, option_map};
ghost use Rattle.spec_base.specs.Reading.{Gives};
ghost use Rattle.command_words.specs.Arguments.{setting_of, value_in};
ghost use Rattle.command_words.specs.Faults.{is_words_memory};
ghost use Rattle.command_words.specs.Values.{is_path, needed, number_given, path_given, path_if_given, path_needed};

use crate::arguments::{Argument, value_of};
use crate::fault::WordsFault;
use command_parts::number_in;
use sol_base::Blob;
use std::alloc::Global;

/// Whether the argument is given.
pub fn is_given(arguments: &[Argument<'_>], name: &str) -> bool
    ensures { result ≡ is_some (value_in name.now (map setting_of arguments.now)) }
{
    value_of(arguments, name).is_some()
}

/// The number of an option, from `low` to `high`. None where the option is left out.
pub fn number_of(
    alloc: Global,
    arguments: &[Argument<'_>],
    name: &str,
    low: u64,
    high: u64,
) -> Result<Option<u64>, WordsFault>
    ensures exact { Gives is_words_memory (λ number. number) result
        (number_given name.now low high (map setting_of arguments.now)) }
    ensures range { IfOk result (λ number. IfSome number (λ n. (low ≤ n) × (n ≤ high))) }
{
    let Some(text) = value_of(arguments, name) else {
        return Ok(None);
    };
    match number_in(low, high, text) {
        Some(number) => Ok(Some(number)),
        None => Err(WordsFault::Range {
            name: Blob::from_slice(alloc, name.as_bytes())?,
            low,
            high,
            value: Blob::from_slice(alloc, text.as_bytes())?,
        }),
    }
}

/// The value of an argument that the command needs.
pub fn needed<'a>(
    alloc: Global,
    arguments: &[Argument<'a>],
    name: &str,
) -> Result<&'a str, WordsFault>
    ensures { Gives is_words_memory (λ value. value.now) result
        (needed name.now (map setting_of arguments.now)) }
{
    match value_of(arguments, name) {
        Some(value) => Ok(value),
        None => Err(WordsFault::Missing {
            name: Blob::from_slice(alloc, name.as_bytes())?,
        }),
    }
}

/// Whether the text names a file or a folder: it is not empty, and begins with no hyphen.
fn is_path(text: &str) -> bool
    ensures { result ≡ is_path text.now }
{
    match text.as_bytes() {
        [] => false,
        [b'-', ..] => false,
        _ => true,
    }
}

/// The file or the folder that a value names.
fn path_in(alloc: Global, name: &str, value: &str) -> Result<Blob, WordsFault>
    ensures { Gives is_words_memory (λ path. path) result (path_given name.now value.now) }
{
    if is_path(value) {
        Ok(Blob::from_slice(alloc, value.as_bytes())?)
    } else {
        Err(WordsFault::Path {
            name: Blob::from_slice(alloc, name.as_bytes())?,
        })
    }
}

/// The file of an option. None where the option is left out.
pub fn path_of_option(
    alloc: Global,
    arguments: &[Argument<'_>],
    name: &str,
) -> Result<Option<Blob>, WordsFault>
    ensures { Gives is_words_memory (λ path. path) result
        (path_if_given name.now (map setting_of arguments.now)) }
{
    match value_of(arguments, name) {
        Some(value) => Ok(Some(path_in(alloc, name, value)?)),
        None => Ok(None),
    }
}

/// The file or the folder of an argument that the command needs.
pub fn path_needed(
    alloc: Global,
    arguments: &[Argument<'_>],
    name: &str,
) -> Result<Blob, WordsFault>
    ensures { Gives is_words_memory (λ path. path) result
        (path_needed name.now (map setting_of arguments.now)) }
{
    let value = needed(alloc, arguments, name)?;
    path_in(alloc, name, value)
}
