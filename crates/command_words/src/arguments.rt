//! The arguments behind a command's name.
ghost use Rattle.std.specs.Prelude.{◌≡◌, IfOk, map, option_map};
ghost use Rattle.spec_base.specs.Reading.{Gives};
ghost use Rattle.command_words.specs.Arguments.{asks_for_help, is_option, next_of, once, parted, setting_of, settings_in, start_of, start_seen, value_in, value_start, waits_of, with_start, flag_start, option_start};
ghost use Rattle.command_words.specs.Faults.{is_words_memory};
ghost use Rattle.command_words.specs.Shapes.{rules_of};

use crate::fault::WordsFault;
use crate::names::{free_name, is_among};
use crate::shape::Shape;
use sol_base::{Blob, OutOfMemory};
use std::alloc::Global;

/// An argument under the name of the option or of the value that it is. A flag has an empty value.
#[derive(Clone, Copy)]
pub struct Argument<'a> {
    pub name: &'a str,
    pub value: &'a str,
}

/// The value that is given under a name.
pub fn value_of<'a>(arguments: &[Argument<'a>], name: &str) -> Option<&'a str>
    ensures { option_map (λ v. v.now) result ≡ value_in name.now (map setting_of arguments.now) }
{
    let mut others = arguments;
    while let [argument, after @ ..] = others {
        if argument.name == name {
            return Some(argument.value);
        }
        others = after;
    }
    None
}

/// What stands before the first `=` of a word, and what stands behind it.
fn parted(word: &str) -> (&str, Option<&str>)
    ensures { (result.0.now, option_map (λ v. v.now) result.1) ≡ parted word.now }
{
    match word.split_once('=') {
        Some((name, value)) => (name, Some(value)),
        None => (word, None),
    }
}

/// Whether the word is an option: it begins with a hyphen.
fn is_option(word: &str) -> bool
    ensures { result ≡ is_option word.now }
{
    match word.as_bytes() {
        [b'-', ..] => true,
        _ => false,
    }
}

/// The name with its value where it has come, unless it is set.
fn once<'a>(
    alloc: Global,
    arguments: &[Argument<'_>],
    name: &'a str,
    value: Option<&'a str>,
) -> Result<(&'a str, Option<&'a str>), WordsFault>
    ensures { Gives is_words_memory start_seen result (once (map setting_of arguments.now)
        name.entry.now (option_map (λ v. v.now) value.entry)) }
{
    match value_of(arguments, name) {
        Some(_) => Err(WordsFault::Repeated {
            name: Blob::from_slice(alloc, name.as_bytes())?,
        }),
        None => Ok((name, value)),
    }
}

/// A flag, which has no value of its own.
fn flag_start<'a>(
    alloc: Global,
    arguments: &[Argument<'_>],
    name: &'a str,
    value: Option<&'a str>,
) -> Result<(&'a str, Option<&'a str>), WordsFault>
    ensures { Gives is_words_memory start_seen result (flag_start (map setting_of arguments.now)
        name.entry.now (option_map (λ v. v.now) value.entry)) }
{
    match value {
        Some(_) => Err(WordsFault::Valued {
            name: Blob::from_slice(alloc, name.as_bytes())?,
        }),
        None => once(alloc, arguments, name, Some("")),
    }
}

/// An option of the command, by its name.
fn option_start<'a>(
    alloc: Global,
    shape: &Shape<'_>,
    arguments: &[Argument<'_>],
    name: &'a str,
    value: Option<&'a str>,
) -> Result<(&'a str, Option<&'a str>), WordsFault>
    ensures { Gives is_words_memory start_seen result (option_start (rules_of shape.now)
        (map setting_of arguments.now) (name.entry.now, option_map (λ v. v.now) value.entry)) }
{
    if is_among(shape.flags, name) {
        flag_start(alloc, arguments, name, value)
    } else if is_among(shape.options, name) {
        once(alloc, arguments, name, value)
    } else {
        Err(WordsFault::Unknown {
            name: Blob::from_slice(alloc, name.as_bytes())?,
        })
    }
}

/// A word that is no option, under the first name of a value that is not set.
fn value_start<'a>(
    alloc: Global,
    names: &'a [&'a str],
    arguments: &[Argument<'_>],
    word: &'a str,
) -> Result<(&'a str, Option<&'a str>), WordsFault>
    ensures { Gives is_words_memory start_seen result (value_start
        (map (λ n. n.now) names.entry.now) (map setting_of arguments.now) word.entry.now) }
{
    match free_name(names, arguments) {
        Some(name) => Ok((name, Some(word))),
        None => Err(WordsFault::Surplus {
            word: Blob::from_slice(alloc, word.as_bytes())?,
        }),
    }
}

/// What a word starts: an option, or a value.
fn start_of<'a>(
    alloc: Global,
    shape: &Shape<'a>,
    arguments: &[Argument<'_>],
    word: &'a str,
) -> Result<(&'a str, Option<&'a str>), WordsFault>
    ensures { Gives is_words_memory start_seen result (start_of (rules_of shape.now)
        (map setting_of arguments.now) word.entry.now) }
{
    if !is_option(word) {
        return value_start(alloc, shape.values, arguments, word);
    }
    let (name, value) = parted(word);
    option_start(alloc, shape, arguments, name, value)
}

/// What a word is: the value that an option waits for, or what it starts.
fn next_of<'a>(
    alloc: Global,
    shape: &Shape<'a>,
    arguments: &[Argument<'_>],
    waits: Option<&'a str>,
    word: &'a str,
) -> Result<(&'a str, Option<&'a str>), WordsFault>
    ensures { Gives is_words_memory start_seen result (next_of (rules_of shape.now)
        (map setting_of arguments.now) (option_map (λ o. o.now) waits.entry) word.entry.now) }
{
    match waits {
        Some(option) => Ok((option, Some(word))),
        None => start_of(alloc, shape, arguments, word),
    }
}

/// Adds an argument where its value has come. What comes back is the option that waits for its value.
fn add_start<'a>(
    arguments: &mut Vec<Argument<'a>>,
    name: &'a str,
    value: Option<&'a str>,
) -> Result<Option<&'a str>, OutOfMemory>
    ensures waits { IfOk result (λ waits. option_map (λ o. o.now) waits
        ≡ waits_of (name.entry.now, option_map (λ v. v.now) value.entry)) }
    ensures settings { IfOk result (λ _. map setting_of arguments.new.items
        ≡ with_start (map setting_of arguments.old.items)
        (name.entry.now, option_map (λ v. v.now) value.entry)) }
{
    match value {
        Some(value) => {
            arguments.push(Argument { name, value })?;
            Ok(None)
        }
        None => Ok(Some(name)),
    }
}

/// The arguments that the words are, or the first word that is wrong. An option is `--name value`, two
/// words, or `--name=value`, one; options and values come in any order.
pub fn arguments_in<'a>(
    alloc: Global,
    shape: &Shape<'a>,
    words: &'a [&'a str],
) -> Result<Vec<Argument<'a>>, WordsFault>
    ensures { Gives is_words_memory (λ arguments. map setting_of arguments.items) result
        (settings_in (rules_of shape.now) (map (λ w. w.now) words.entry.now)) }
{
    let mut arguments = Vec::new(alloc);
    let mut waits = None;
    let mut others = words;
    while let [word, after @ ..] = others {
        let (name, value) = next_of(alloc, shape, arguments.as_slice(), waits, word)?;
        let next = add_start(&mut arguments, name, value)?;
        waits = next;
        others = after;
    }
    match waits {
        None => Ok(arguments),
        Some(name) => Err(WordsFault::NoValue {
            name: Blob::from_slice(alloc, name.as_bytes())?,
        }),
    }
}

/// Whether the words behind a command's name ask for help: `--help` alone.
pub fn asks_for_help(words: &[&str]) -> bool
    ensures { result ≡ asks_for_help (map (λ w. w.now) words.now) }
{
    match words {
        [word] => *word == "--help",
        _ => false,
    }
}
