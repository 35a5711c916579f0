//! What the block of a batch keeps.
ghost use Rattle.block_laws.specs.Keeping.{BlocksKeepLamports, NewProgramsAreReady, NewProgramsAreReadyAgain, ProgramsStay, ProgramsStayAgain, ReplaysKeepLamports, TransactionsTakeTheirFees};

/// A law: each transaction of the block that a batch comes to takes the fees that it pays out of
/// the accounts, and what the block burns is all that leaves them; so too when it runs again.
pub fn blocks_keep_lamports()
    ensures fees { TransactionsTakeTheirFees }
    ensures burned { BlocksKeepLamports }
    ensures again { ReplaysKeepLamports }
{}

/// A law: while the transactions of a batch run, no account becomes executable and none that is
/// changes; one that is executable after the block was so before, or is a program that is ready. So
/// too where they run again.
pub fn blocks_keep_programs()
    ensures stay { ProgramsStay }
    ensures ready { NewProgramsAreReady }
    ensures stay_again { ProgramsStayAgain }
    ensures ready_again { NewProgramsAreReadyAgain }
{}
