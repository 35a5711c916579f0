//! The values of arguments: forms, keys and signatures.
ghost use Rattle.std.specs.Prelude.{◌≡◌, map};
ghost use Rattle.spec_base.specs.Reading.{Gives};
ghost use Rattle.command_words.specs.Arguments.{setting_of};
ghost use Rattle.command_words.specs.Faults.{is_words_memory};
ghost use Rattle.text_words.specs.Forms.{form_given, form_named, look_given, sought_given, sought_in};

use crate::command::{Form, Look, Sought};
use command_words::{Argument, WordsFault, is_given, needed};
use hex::FromHex;
use sol_base::{Blob, Key};
use std::alloc::Global;

fn form_named(word: &str) -> Option<Form>
    ensures { result ≡ form_named word.now }
{
    match word {
        "snapshot" => Some(Form::Snapshot),
        "batch" => Some(Form::Batch),
        "record" => Some(Form::Record),
        "image" => Some(Form::Image),
        _ => None,
    }
}

/// The form that the argument FORM says.
pub(crate) fn form_of(alloc: Global, arguments: &[Argument<'_>]) -> Result<Form, WordsFault>
    ensures { Gives is_words_memory (λ form. form) result
        (form_given (map setting_of arguments.now)) }
{
    let word = needed(alloc, arguments, "FORM")?;
    match form_named(word) {
        Some(form) => Ok(form),
        None => Err(WordsFault::Form {
            name: Blob::from_slice(alloc, b"FORM")?,
            value: Blob::from_slice(alloc, word.as_bytes())?,
        }),
    }
}

/// How `json` writes.
pub(crate) fn look_of(alloc: Global, arguments: &[Argument<'_>]) -> Result<Look, WordsFault>
    ensures { Gives is_words_memory (λ look. look) result
        (look_given (map setting_of arguments.now)) }
{
    match (
        is_given(arguments, "--pretty"),
        is_given(arguments, "--shown"),
    ) {
        (false, false) => Ok(Look::Compact),
        (true, false) => Ok(Look::Pretty),
        (false, true) => Ok(Look::Shown),
        (true, true) => Err(WordsFault::Excluded {
            name: Blob::from_slice(alloc, b"--shown")?,
        }),
    }
}

/// What the hexadecimal digits name: 64 a key, 128 a signature.
fn sought_in(word: &str) -> Option<Sought>
    ensures { result ≡ sought_in word.now }
{
    if let Ok(key) = <[u8; 32] as FromHex>::from_hex(word) {
        return Some(Sought::Account(Key(key)));
    }
    match <[u8; 64] as FromHex>::from_hex(word) {
        Ok(signature) => Some(Sought::Transaction(signature)),
        Err(_) => None,
    }
}

/// What `view` looks for.
pub(crate) fn sought_of(alloc: Global, arguments: &[Argument<'_>]) -> Result<Sought, WordsFault>
    ensures { Gives is_words_memory (λ sought. sought) result
        (sought_given (map setting_of arguments.now)) }
{
    let word = needed(alloc, arguments, "KEY|SIGNATURE")?;
    match sought_in(word) {
        Some(sought) => Ok(sought),
        None => Err(WordsFault::Form {
            name: Blob::from_slice(alloc, b"KEY|SIGNATURE")?,
            value: Blob::from_slice(alloc, word.as_bytes())?,
        }),
    }
}
