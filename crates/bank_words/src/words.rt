//! The arguments that follow the name of a program.
ghost use Rattle.std.specs.Prelude.{◌≡◌, IfOk, IfSome, is_some, map, true};
ghost use Rattle.std.specs.List.{list_all};
ghost use Rattle.std.specs.Str.{is_utf8};

use sol_base::{Blob, Items, is_text};
use std::alloc::{AllocError, Global};
use std::marker::Model;
use std::str;

/// The arguments that follow the program's name: texts.
#[derive(Drop)]
pub struct Words {
    texts: Items<Blob>,
}

impl Model for Words {
    ghost use Rattle.std.specs.Prelude.{◌≡◌, List, ℕ, true};
    ghost use Rattle.std.specs.List.{list_all};
    ghost use Rattle.std.specs.Str.{is_utf8};

    ghost Value = { List (List ℕ) };

    ghost view = { λ w. w.texts };

    ghost invariant = { λ w. list_all is_utf8 w.texts ≡ true };
}

impl Words {
    /// The arguments, or None where one of them is not UTF-8.
    pub fn from_items(words: Items<Blob>) -> Option<Words>
        ensures texts { is_some result ≡ list_all is_utf8 words }
        ensures same { IfSome result (λ w. w ≡ words) }
    {
        if are_texts(words.as_slice()) {
            Some(Words { texts: words })
        } else {
            None
        }
    }

    /// The arguments as `clap` takes them.
    pub(crate) fn texts(&self, alloc: Global) -> Result<Vec<&str>, AllocError>
        ensures { IfOk result (λ texts. map (λ t. t.now) texts.items ≡ self.entry.now) }
    {
        texts_of(alloc, self.texts.as_slice())
    }
}

fn texts_of<'a>(alloc: Global, words: &'a [Blob]) -> Result<Vec<&'a str>, AllocError>
    requires { list_all is_utf8 words.now ≡ true }
    ensures { IfOk result (λ texts. map (λ t. t.now) texts.items ≡ words.entry.now) }
{
    let mut texts = Vec::with_capacity(alloc, words.len())?;
    for word in words {
        match str::from_utf8(word.as_slice()) {
            Ok(text) => texts.push(text)?,
            Err(_) => unreachable!(),
        }
    }
    Ok(texts)
}

fn are_texts(words: &[Blob]) -> bool
    ensures { result ≡ list_all is_utf8 words.now }
{
    words.iter().all(|word| is_text(word.as_slice()))
}
