//! What the run of a block keeps.
ghost use Rattle.block_laws.specs.Laws.{ActivatedProgramsAreReady, BurnedIsAllThatLeaves, ExecutableAccountsStay, FeesLeaveTheAccounts};

/// A law: each transaction takes the fees that it pays out of the accounts, and what a block burns
/// is all that leaves them.
pub fn lamports_are_conserved()
    ensures fees { FeesLeaveTheAccounts }
    ensures burned { BurnedIsAllThatLeaves }
{}

/// A law: while the transactions of a block run, no account becomes executable, and none that is
/// changes.
pub fn executable_accounts_stay()
    ensures stay { ExecutableAccountsStay }
{}

/// A law: an account that became executable in a block holds an image with a verified text, and is
/// found as a program that is ready.
pub fn activated_programs_are_ready()
    ensures ready { ActivatedProgramsAreReady }
{}
