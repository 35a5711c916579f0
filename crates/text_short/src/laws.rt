//! Laws over the definitions that the contracts of this crate cite. Their calls do nothing.
ghost use Rattle.text_short.specs.Laws.{BuiltBatchesAreRead, DigitsAreTheKey, MistypedKeysAreRefused};

/// A law: the bytes that JSON in the short form stands for are read as a batch.
pub fn built_batches_are_read()
    ensures { BuiltBatchesAreRead }
{}

/// A law: 64 hexadecimal digits are the key.
pub fn digits_are_the_key()
    ensures { DigitsAreTheKey }
{}

/// A law: from 16 on, another number of digits alone is refused with that number.
pub fn mistyped_keys_are_refused()
    ensures { MistypedKeysAreRefused }
{}
