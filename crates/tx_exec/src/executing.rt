//! The instructions of a transaction, one after another.
ghost use Rattle.std.specs.Prelude.{◌≡◌, ◌≤◌, length, IfOk, MatchResult};
ghost use Rattle.sol_base.specs.Accounts.{accounts_of};
ghost use Rattle.sol_base.specs.Limits.{max_stack_height};
ghost use Rattle.message_codec.specs.Roles.{AreNamed, all_keys};
ghost use Rattle.message_codec.specs.Wire.{IsCountable};
ghost use Rattle.admission.specs.Chosen.{IsChosen};
ghost use Rattle.invoke_engine.specs.Frame.{instruction as run};
ghost use Rattle.invoke_engine.specs.Conditions.{AreAccountsOf};
ghost use Rattle.invoke_engine.specs.Invoked.{fixed_in};
ghost use Rattle.invoke_engine.specs.Ran.{IsRun};
ghost use Rattle.tx_exec.specs.Executing.{call_of, performed};

use crate::failure::Failure;
use crate::roles::metas_of;
use crate::transaction::Transaction;
use invoke_engine::{Accounts, Ended, Invocation, Ran, Watch, watch_invocation};
use message_codec::Instruction;
use sol_base::{Account, OutOfMemory};
use std::sync::Arc;
use tx_report::Logs;

/// What instructions did.
#[derive(Drop)]
pub struct Executed {
    /// The units left.
    pub units: u64,
    pub log: Logs,
    pub result: Result<Accounts, Failure>,
}

/// Runs all instructions on these accounts, with the units of the budget.
pub fn execute<W: Watch>(
    transaction: &Transaction<'_>,
    base: &[Arc<Account>],
    watch: &mut W,
) -> Result<Executed, OutOfMemory>
    requires height { (1 ≤ transaction.now.context.setting.height)
        × (transaction.now.context.setting.height ≤ max_stack_height) }
    requires chosen { IsChosen transaction.now.chosen.now }
    requires keys { transaction.now.context.keys
        ≡ all_keys transaction.now.chosen.now.tx.message transaction.now.chosen.now.loaded }
    requires base { AreAccountsOf (length transaction.now.context.keys) (accounts_of base.now) }
    ensures exact { IfOk result (λ e. e
        ≡ performed (fixed_in transaction.now.context) transaction.now.chosen.now
        (accounts_of base.now)) }
    ensures fits { IfOk result (λ e. MatchResult e.result
        (λ after. AreAccountsOf (length transaction.now.context.keys) after)
        (λ _. Unit {0})) }
{
    let mut log = Logs::new(transaction.context.alloc);
    let mut accounts = Accounts::share(transaction.context.alloc, base)?;
    let mut units = u64::from(transaction.chosen.budget.limit);
    let mut trace: u8 = 0;
    let message = &transaction.chosen.tx.message;
    for (index, instruction) in message.instructions.as_slice().iter().enumerate() {
        let ran = run_one(
            transaction,
            instruction,
            accounts,
            units,
            trace,
            &mut log,
            watch,
        )?;
        units = ran.units;
        trace = ran.trace;
        let Ran { ended, .. } = ran;
        match ended {
            Ended::Good(after) => accounts = Accounts::of(after),
            Ended::Failed(error) => {
                let failure = Failure {
                    index: index as u8,
                    cause: error.cause,
                    detail: error.detail,
                };
                return Ok(Executed {
                    units,
                    log,
                    result: Err(failure),
                });
            }
        }
    }
    Ok(Executed {
        units,
        log,
        result: Ok(accounts),
    })
}

/// Runs one instruction, after others that came to these accounts, units, trace and log.
fn run_one<W: Watch>(
    transaction: &Transaction<'_>,
    instruction: &Instruction,
    accounts: Accounts,
    units: u64,
    trace: u8,
    logs: &mut Logs,
    watch: &mut W,
) -> Result<Ran, OutOfMemory>
    requires height { (1 ≤ transaction.now.context.setting.height)
        × (transaction.now.context.setting.height ≤ max_stack_height) }
    requires chosen { IsChosen transaction.now.chosen.now }
    requires keys { transaction.now.context.keys
        ≡ all_keys transaction.now.chosen.now.tx.message transaction.now.chosen.now.loaded }
    requires accounts { AreAccountsOf (length transaction.now.context.keys) accounts }
    requires named { AreNamed transaction.now.chosen.now.tx.message
        transaction.now.chosen.now.loaded instruction.now }
    requires short { IsCountable instruction.now.input }
    ensures { IfOk result (λ ran. IsRun
        (run (fixed_in transaction.now.context) (call_of transaction.now.chosen.now instruction.now)
        accounts units trace logs.old)
        ran logs.new) }
{
    let metas = metas_of(transaction.context.alloc, transaction.chosen, instruction)?;
    let invocation = Invocation {
        program: instruction.program,
        metas: metas.as_slice(),
        input: instruction.input.as_slice(),
        accounts,
        units,
    };
    watch_invocation(&transaction.context, invocation, trace, logs, watch)
}
