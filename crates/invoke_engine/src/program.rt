//! Programs as log lines name them.
ghost use Rattle.std.specs.Prelude.{◌≡◌};
ghost use Rattle.hex.specs.Hex.{encode_lower};

use sol_base::{COMPUTE_BUDGET_PROGRAM, Key, SYSTEM_PROGRAM, key_text};
use std::marker::Model;

/// The text of the system program's key.
const SYSTEM_TEXT: [u8; 64] = [b'0'; 64];

/// The text of the compute budget program's key.
const COMPUTE_BUDGET_TEXT: [u8; 64] =
    *b"0306466fe5211732ffecadba72c39be7bc8ce5bbc5f7126b2c439b3a40000000";

/// The key of a program, and its text, which each line of a frame has.
#[derive(Drop)]
pub(crate) struct NamedProgram {
    key: Key,
    text: [u8; 64],
}

impl Model for NamedProgram {
    ghost use Rattle.std.specs.Prelude.{◌≡◌};
    ghost use Rattle.hex.specs.Hex.{encode_lower};
    ghost use Rattle.sol_base.specs.declared.key.Key.{Key};

    ghost Value = { Key };

    ghost view = { λ program. program.key };

    ghost invariant = { λ program. program.text ≡ encode_lower program.key.0 };
}

impl NamedProgram {
    pub(crate) fn of(key: Key) -> NamedProgram
        ensures { result ≡ key }
    {
        NamedProgram {
            key,
            text: text_of(&key),
        }
    }

    pub(crate) fn key(&self) -> Key
        ensures { result ≡ self.now }
    {
        self.key
    }

    pub(crate) fn text(&self) -> &[u8]
        ensures { result.now ≡ encode_lower self.now.0 }
    {
        &self.text
    }
}

/// The text of a key. Those of the programs that most instructions name are at hand.
fn text_of(key: &Key) -> [u8; 64]
    ensures { result ≡ encode_lower key.now.0 }
{
    if *key == SYSTEM_PROGRAM {
        SYSTEM_TEXT
    } else if *key == COMPUTE_BUDGET_PROGRAM {
        COMPUTE_BUDGET_TEXT
    } else {
        key_text(key)
    }
}
