//! Accounts that pay fees and collect them.
ghost use Rattle.std.specs.Prelude.{◌≡◌};
ghost use Rattle.account_rules.specs.Wallets.{is_wallet};

use sol_base::{Account, SYSTEM_PROGRAM};

/// Whether an account is one of the system program, no program itself and without data (Solana).
pub fn is_a_wallet(account: &Account) -> bool
    ensures { result ≡ is_wallet account.now }
{
    account.owner == SYSTEM_PROGRAM && !account.executable && account.bytes.is_empty()
}
