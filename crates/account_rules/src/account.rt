//! The rules over one account.
ghost use Rattle.std.specs.Prelude.{◌≡◌, IsTrue, true, false, Some, None, if◌then◌else◌};
ghost use Rattle.account_rules.specs.AccountRules.{broken_rule, has_byte, same_account, too_large};
ghost use Rattle.account_rules.specs.declared.rules.RuleFault.TheVariants.{TooLarge};

use crate::rules::RuleFault;
use sol_base::{Account, Key, MAX_DATA_LEN};

/// The first rule that one account breaks. Where it is known to be the same, its length alone
/// counts.
pub(crate) fn broken_at(
    program: &Key,
    writable: bool,
    same: bool,
    before: &Account,
    after: &Account,
    i: u8,
) -> Option<RuleFault>
    requires { IsTrue same → after.now ≡ before.now }
    ensures { result ≡ broken_rule program.now writable before.now after.now i }
{
    if same {
        too_large_at(after, i)
    } else {
        first_broken(program, writable, before, after, i)
    }
}

/// The first rule that one account breaks. Its data are compared only where it matters whether they
/// differ, and once.
fn first_broken(
    program: &Key,
    writable: bool,
    before: &Account,
    after: &Account,
    i: u8,
) -> Option<RuleFault>
    ensures { result ≡ broken_rule program.now writable before.now after.now i }
{
    if writable && !before.executable {
        broken_in_writable(program, before, after, i)
    } else if is_same(before, after) {
        too_large_at(after, i)
    } else if writable {
        Some(RuleFault::ExecutableChanged { i })
    } else {
        Some(RuleFault::ReadonlyChanged { i })
    }
}

fn broken_in_writable(program: &Key, before: &Account, after: &Account, i: u8) -> Option<RuleFault>
    requires { before.now.executable ≡ false }
    ensures { result ≡ broken_rule program.now true before.now after.now i }
{
    let owned = before.owner == *program;
    if after.executable {
        Some(RuleFault::ExecutableChanged { i })
    } else if before.owner != after.owner && (!owned || has_byte_set(after)) {
        Some(RuleFault::OwnerChange { i })
    } else if owned {
        too_large_at(after, i)
    } else if after.lamports < before.lamports {
        Some(RuleFault::ForeignDebit { i })
    } else if before.bytes.as_slice() != after.bytes.as_slice() {
        Some(RuleFault::ForeignData { i })
    } else {
        too_large_at(after, i)
    }
}

fn too_large_at(account: &Account, i: u8) -> Option<RuleFault>
    ensures { result ≡ (if too_large account.now then Some (TooLarge i) else None) }
{
    if account.bytes.len() > MAX_DATA_LEN {
        Some(RuleFault::TooLarge { i })
    } else {
        None
    }
}

fn is_same(before: &Account, after: &Account) -> bool
    ensures { result ≡ same_account before.now after.now }
{
    before.lamports == after.lamports
        && before.owner == after.owner
        && before.executable == after.executable
        && before.bytes.as_slice() == after.bytes.as_slice()
}

fn has_byte_set(account: &Account) -> bool
    ensures { result ≡ has_byte account.now }
{
    account.bytes.as_slice().iter().any(|byte| *byte != 0)
}
