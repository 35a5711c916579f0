//! Laws of transactions and of what they keep. Their calls do nothing.
ghost use Rattle.std.specs.Prelude.{◌≡◌, All, List, length};
ghost use Rattle.sol_base.specs.declared.account.Account.{Account as AccountValue};
ghost use Rattle.message_codec.specs.Roles.{all_keys};
ghost use Rattle.bank_law.specs.Lawful.{IsLawful};
ghost use Rattle.admission.specs.declared.chosen.Chosen.{Chosen as ChosenValue};
ghost use Rattle.admission.specs.Chosen.{IsChosen};
ghost use Rattle.tx_exec.specs.declared.admitted.AdmittedBlock.{AdmittedBlock as BlockValue};
ghost use Rattle.tx_exec.specs.Executing.{InBlock, fixed_for, performed};
ghost use Rattle.tx_exec.specs.Programs.{KeepsForeign, programs_of};
ghost use Rattle.tx_exec.specs.AdmittedBlock.{job_of};
ghost use Rattle.tx_exec.specs.Transaction.{transaction};
ghost use Rattle.tx_report.specs.Outcomes.{IsSmallOutcome};
ghost use Rattle.tx_exec.specs.TransactionLaws.{IsOutcomeOf, Keeps, UnitsAddUp, WritesFit};

/// A law: a transaction keeps the number of its accounts, their lamports but for the fees paid,
/// what it may not write, and the executable accounts. One that failed leaves only its fee, and a
/// dropped one leaves nothing. What it writes is one account for each write lock, and with the fees
/// paid these have the lamports that were lent for writing. Its outcome is small.
pub fn transactions_keep_accounts()
    ensures keeps { (block : InBlock) (t : ChosenValue) (values : List AccountValue) →
        IsChosen t → length values ≡ length (all_keys t.tx.message t.loaded) →
        Keeps t values (transaction block t values) }
    ensures fits { (block : InBlock) (t : ChosenValue) (values : List AccountValue) →
        IsChosen t → length values ≡ length (all_keys t.tx.message t.loaded) →
        WritesFit t values (transaction block t values) }
    ensures small { (block : InBlock) (t : ChosenValue) (values : List AccountValue) →
        IsChosen t → IsSmallOutcome (transaction block t values).outcome }
{}

/// A law: an account whose owner is none of the programs that run in a transaction keeps its owner
/// and its data, and its lamports fall by no more than the fee, where it is the payer.
pub fn transactions_keep_foreign_accounts()
    ensures foreign { (block : InBlock) (t : ChosenValue) (values : List AccountValue) →
        IsChosen t → length values ≡ length (all_keys t.tx.message t.loaded) →
        KeepsForeign t (programs_of block t values) values (transaction block t values).values }
{}

/// A law: the outcome of a transaction has a status that fits its fields, no more units than the
/// budget, and lines that are the log of texts. The units that its instructions used and those that
/// they left are the budget.
pub fn transactions_have_outcomes()
    ensures outcome { (block : InBlock) (t : ChosenValue) (values : List AccountValue) →
        IsChosen t → IsOutcomeOf t (transaction block t values).outcome }
    ensures units { (block : InBlock) (t : ChosenValue) (base : List AccountValue) →
        UnitsAddUp t base (performed (fixed_for block t) t base) }
{}

/// A law: the transactions of a block, a position for each, are a lawful work.
pub fn transactions_are_lawful_works()
    ensures lawful { (block : BlockValue) → All IsChosen block.chosen → IsLawful (job_of block) }
{}
