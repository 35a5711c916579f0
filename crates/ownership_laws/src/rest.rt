//! Accounts whose owners do not run over them.
ghost use Rattle.ownership_laws.specs.Rest.{AccountsAtRestAreKept};

/// A law: an account over which the program that owns it does not run in a block has the same owner
/// after it, the same data unless it was a final buffer, and no less lamports than it had but for
/// the fees that it paid.
pub fn accounts_at_rest_are_kept()
    ensures kept { AccountsAtRestAreKept }
{}
