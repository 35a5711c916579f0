//! What an instruction asks of an account that it names.
ghost use Rattle.std.specs.Prelude.{◌≡◌};
ghost use Rattle.text_short.specs.Calls.{signs_and_writes, signs, writes};

use sol_base::Key;
use tx_build::AccountMeta;

/// The account signs and is written.
pub(crate) fn signs_and_writes(key: Key) -> AccountMeta
    ensures { result ≡ signs_and_writes key }
{
    AccountMeta {
        key,
        signer: true,
        writable: true,
    }
}

/// The account signs and is only read.
pub(crate) fn signs(key: Key) -> AccountMeta
    ensures { result ≡ signs key }
{
    AccountMeta {
        key,
        signer: true,
        writable: false,
    }
}

/// The account is written and does not sign.
pub(crate) fn writes(key: Key) -> AccountMeta
    ensures { result ≡ writes key }
{
    AccountMeta {
        key,
        signer: false,
        writable: true,
    }
}
