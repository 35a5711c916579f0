//! One instruction of the system program.
ghost use Rattle.std.specs.Prelude.{◌≡◌, ◌<◌, ◌≤◌, ◌^◌, IfOk, Ok, length};
ghost use Rattle.spec_base.specs.Reading.{Gives};
ghost use Rattle.sol_base.specs.Accounts.{accounts_of, lamports_in};
ghost use Rattle.sol_base.specs.Metas.{AreInRange, max_metas};
ghost use Rattle.system_prog.specs.Faults.{is_system_memory};
ghost use Rattle.system_prog.specs.SystemProgram.{AnswersSystem, counted_row, least_accounts, rules_kept, system_row};
ghost use Rattle.system_prog.specs.Written.{flags_of, written};

use crate::draft::Draft;
use crate::fault::SystemFault;
use crate::frame::Frame;
use crate::instruction::{Instruction, read_instruction};
use account_rules::check_listed;
use sol_base::{Account, Items, Key, Meta, OutOfMemory, SYSTEM_PROGRAM};
use std::alloc::Global;
use std::sync::Arc;

/// Runs one instruction of the system program (Solana; the causes of a failed derivation are the
/// project's own) over all accounts of a transaction, of which `metas` lists those of the
/// instruction. The answer shares the accounts that are not changed. The `i` of a
/// `MissingSignature` is the place in the list at which the account was asked to sign, that of a
/// broken rule the place of the account's first meta.
pub fn run_system(
    alloc: Global,
    keys: &[Key],
    accounts: &[Arc<Account>],
    metas: &[Meta],
    input: &[u8],
) -> Result<Items<Arc<Account>>, SystemFault>
    requires count { length (accounts_of accounts.now) ≡ length keys.now }
    requires most { length metas.now ≤ max_metas }
    requires range { AreInRange (length (accounts_of accounts.now)) metas.now }
    requires supply { lamports_in (accounts_of accounts.now) < 2 ^ 64 }
    ensures exact { AnswersSystem (system_row keys.now (accounts_of accounts.now)
        metas.now input.now) result }
{
    answer(alloc, &Frame::new(keys, metas), accounts, input)
}

#[tactic(auto, unfolding(crate::specs::SystemProgram::system_row))]
fn answer(
    alloc: Global,
    frame: &Frame<'_>,
    accounts: &[Arc<Account>],
    input: &[u8],
) -> Result<Items<Arc<Account>>, SystemFault>
    requires count { length (accounts_of accounts.now) ≡ length frame.now.keys }
    requires most { length frame.now.metas ≤ max_metas }
    requires supply { lamports_in (accounts_of accounts.now) < 2 ^ 64 }
    ensures { Gives is_system_memory accounts_of result
        (system_row frame.now.keys (accounts_of accounts.now) frame.now.metas input.now) }
{
    let instruction = read_instruction(input)?;
    let after = run_counted(alloc, frame, &instruction, accounts)?;
    check_rules(alloc, frame, &instruction, accounts, after.as_slice())?;
    Ok(after)
}

#[tactic(auto, unfolding(crate::specs::SystemProgram::counted_row))]
fn run_counted(
    alloc: Global,
    frame: &Frame<'_>,
    instruction: &Instruction<'_>,
    accounts: &[Arc<Account>],
) -> Result<Items<Arc<Account>>, SystemFault>
    requires count { length (accounts_of accounts.now) ≡ length frame.now.keys }
    requires supply { lamports_in (accounts_of accounts.now) < 2 ^ 64 }
    ensures { Gives is_system_memory accounts_of result
        (counted_row frame.now instruction.now (accounts_of accounts.now)) }
{
    if frame.metas().len() < instruction.least_accounts() {
        return Err(SystemFault::NotEnoughAccounts);
    }
    let mut draft = Draft::new(alloc, accounts)?;
    frame.run(alloc, &mut draft, instruction)?;
    Ok(draft.finish())
}

/// The account rules, where an instruction ended well.
#[tactic(auto, unfolding(crate::specs::SystemProgram::rules_kept))]
fn check_rules(
    alloc: Global,
    frame: &Frame<'_>,
    instruction: &Instruction<'_>,
    before: &[Arc<Account>],
    after: &[Arc<Account>],
) -> Result<(), SystemFault>
    requires count { length (accounts_of before.now) ≡ length frame.now.keys }
    requires most { length frame.now.metas ≤ max_metas }
    requires ended { counted_row frame.now instruction.now (accounts_of before.now) ≡
        Ok (accounts_of after.now) }
    ensures { Gives is_system_memory (λ _. tt) result
        (rules_kept frame.now.metas (accounts_of before.now) (accounts_of after.now)) }
{
    let touched = touched_by(alloc, frame, instruction, before.len())?;
    check_listed(
        &SYSTEM_PROGRAM,
        frame.metas(),
        touched.as_slice(),
        before,
        after,
    )?;
    Ok(())
}

/// Of each account whether the instruction may have changed it.
fn touched_by(
    alloc: Global,
    frame: &Frame<'_>,
    instruction: &Instruction<'_>,
    count: usize,
) -> Result<Vec<bool>, OutOfMemory>
    requires count { count ≡ length frame.now.keys }
    requires roles { least_accounts instruction.now ≤ length frame.now.metas }
    ensures { IfOk result
        (λ flags. flags.items ≡ flags_of frame.now (written instruction.now) count) }
{
    let (first, second) = instruction.written();
    let mut touched = vec![in alloc; false; count]?;
    touched[frame.place(first)] = true;
    touched[frame.place(second)] = true;
    Ok(touched)
}
