//! The arguments of a command line.
ghost use Rattle.std.specs.Prelude.{◌≡◌, IfOk, IsUtf8, drop, map, string_bytes};
ghost use Rattle.command_parts.specs.declared.words.NoWords.TheVariants.{OutOfMemory as no_memory};
ghost use Rattle.command_parts.specs.Statuses.{status_without_words};

use crate::status::{OUT_OF_MEMORY, WORDS_REFUSED};
use sol_base::{Blob, OutOfMemory};
use std::alloc::{AllocError, Global};
use std::io::ErrorKind;
use std::rt::Env;
use std::{env, str};

/// Why there are no arguments.
#[derive(Clone, Copy)]
pub enum NoWords {
    /// One of them is no text.
    NotText,
    OutOfMemory,
}

impl NoWords {
    /// The status that a program without arguments ends with.
    pub fn status(self) -> u8
        ensures { result ≡ status_without_words self }
    {
        match self {
            NoWords::NotText => WORDS_REFUSED,
            NoWords::OutOfMemory => OUT_OF_MEMORY,
        }
    }
}

impl From<AllocError> for NoWords {
    ghost from_gives = { λ _ e. e ≡ no_memory };

    fn from(_e: AllocError) -> NoWords {
        NoWords::OutOfMemory
    }
}

impl From<OutOfMemory> for NoWords {
    ghost from_gives = { λ _ e. e ≡ no_memory };

    fn from(_e: OutOfMemory) -> NoWords {
        NoWords::OutOfMemory
    }
}

/// The arguments without the first, which is the program's name.
fn without_name(words: Vec<String>) -> Vec<String>
    ensures { result.items ≡ drop 1 words.items }
{
    let mut words = words;
    if !words.is_empty() {
        let _name = words.remove(0);
    }
    words
}

/// The arguments after the program's name. What a system hands a program no contract can say.
pub fn words_after_name<R: Env + AllocGlobal>(rt: &R) -> Result<Vec<String>, NoWords> {
    match env::args(rt) {
        Ok(args) => Ok(without_name(args.collect(rt.alloc())?)),
        Err(e) if e.kind() == ErrorKind::OutOfMemory => Err(NoWords::OutOfMemory),
        Err(_) => Err(NoWords::NotText),
    }
}

/// The arguments, lent.
pub fn lent_words(alloc: Global, texts: &[String]) -> Result<Vec<&str>, OutOfMemory>
    ensures { IfOk result (λ words. map (λ word. word.now) words.items
        ≡ map string_bytes texts.entry.now) }
{
    let mut words = Vec::with_capacity(alloc, texts.len())?;
    for text in texts {
        words.push(text.as_str())?;
    }
    Ok(words)
}

/// The path that an argument is. It is a text, as each argument is that `words_after_name` returns.
pub fn path_of(word: &Blob) -> &str
    ensures { IsUtf8 word.now → result.now ≡ word.now }
{
    match str::from_utf8(word.as_slice()) {
        Ok(text) => text,
        Err(_) => "",
    }
}
