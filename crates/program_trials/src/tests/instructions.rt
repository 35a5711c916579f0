//! Instructions of native programs, and examples "reentrancy and height", "chain limits", "foreign
//! data", "vault signer" and "endless loop".
ghost use Rattle.std.specs.Prelude.{◌≡◌, ◌+◌, ◌<◌, ◌≤◌, ◌^◌, [], IfOk, length};
ghost use Rattle.std.specs.Arc.{arc_value};
ghost use Rattle.sol_base.specs.Accounts.{accounts_of, empty_account, max_data_len, IsShort};
ghost use Rattle.sol_base.specs.Metas.{AreInRange};
ghost use Rattle.invoke_engine.specs.Conditions.{AreAccountsOf, IsCall};

use super::texts::{Text, VAULT, image};
use account_store::{Accounts, KeyedAccount, StoreFault};
use invoke_engine::{Call, Ended, Ran, Setting, StoppedAt, run_instruction};
use program_cache::Programs;
use sbpf_memory::AccessViolation;
use sol_base::{
    Account, Blob, COMPUTE_BUDGET_PROGRAM, Items, Key, LOADER_PROGRAM, Meta, OutOfMemory,
    SYSTEM_PROGRAM,
};
use std::alloc::Global;
use std::sync::Arc;
use std::test::Fail;
use tx_report::{Cause, Logs};

/// The program that is called at first, and one that it may call.
const PROGRAM: Key = Key([0x77; 32]);

const OTHER: Key = Key([0x66; 32]);

/// A key without an account.
const ABSENT: Key = Key([0x11; 32]);

/// The program, the account and the absent account, which are listed, and the system program.
const METAS: [Meta; 4] = [
    Meta {
        index: 1,
        signer: false,
        writable: true,
    },
    Meta {
        index: 2,
        signer: false,
        writable: true,
    },
    Meta {
        index: 0,
        signer: false,
        writable: false,
    },
    Meta {
        index: 3,
        signer: false,
        writable: false,
    },
];

/// What an instruction comes to: the units used, how many are started, the number of lines, and the
/// lamports and data that the second account is left with, or the cause with the height.
type Wanted = (u64, u8, usize, Result<(u64, &'static [u8]), (Cause, u8)>);

/// A list of accounts.
fn listed(alloc: Global, metas: &[Meta]) -> Result<Items<Meta>, OutOfMemory>
    ensures { IfOk result (λ list. list ≡ metas.now) }
{
    Ok(Items::from_vec(Vec::from_slice(alloc, metas)?))
}

/// A call of program 0 without data, with this list.
fn call_of(alloc: Global, metas: &[Meta]) -> Result<Call, OutOfMemory>
    ensures program { IfOk result (λ call. call.program ≡ 0) }
    ensures metas { IfOk result (λ call. call.metas ≡ metas.now) }
    ensures input { IfOk result (λ call. call.input ≡ []) }
{
    Ok(Call {
        program: 0,
        metas: listed(alloc, metas)?,
        input: Blob::new(alloc),
    })
}

/// Runs an instruction: what came of it, and how many lines. The tests need nothing of its
/// contract.
fn run(
    alloc: Global,
    programs: &Programs,
    height: u8,
    keys: &[Key; 4],
    accounts: &[Arc<Account>; 4],
    call: &Call,
    units: u64,
    trace: u8,
) -> Result<(Ran, usize), OutOfMemory>
    requires height { (1 ≤ height) × (height ≤ 9) }
    requires accounts { AreAccountsOf 4 (accounts_of accounts.now) }
    requires call { IsCall 4 call.now }
{
    let setting = Setting {
        slot: 7,
        heap: 32_768,
        height,
    };
    let mut logs = Logs::new(alloc);
    let ran = run_instruction(
        alloc, programs, &setting, keys, accounts, call, units, trace, &mut logs,
    )?;
    Ok((ran, logs.lines().len()))
}

/// Whether the second account of four is left so.
fn leaves(after: &[Arc<Account>], lamports: u64, bytes: &[u8]) -> bool {
    match after {
        [_, second, _, _] => second.lamports == lamports && second.bytes.as_slice() == bytes,
        _ => false,
    }
}

/// Whether it ends so.
fn ends_so(ended: &Ended, wanted: &Result<(u64, &[u8]), (Cause, u8)>) -> bool {
    match (ended, wanted) {
        (Ended::Good(after), Ok((lamports, bytes))) => leaves(after.as_slice(), *lamports, bytes),
        (Ended::Failed(error), Err((cause, height))) => {
            error.cause == *cause && error.height == *height
        }
        _ => false,
    }
}

/// Whether it comes to what is wanted, of so many units.
fn comes_to(ran: &Ran, lines: usize, units: u64, wanted: &Wanted) -> bool {
    units.checked_sub(ran.units) == Some(wanted.0)
        && ran.trace == wanted.1
        && lines == wanted.2
        && ends_so(&ran.ended, &wanted.3)
}

/// Programs of the runtime, and one that is not there.
#[derive(Clone, Copy)]
enum Native {
    Budget,
    System,
    Loader,
    Unknown,
}

fn native_key(native: Native) -> Key {
    match native {
        Native::Budget => COMPUTE_BUDGET_PROGRAM,
        Native::System => SYSTEM_PROGRAM,
        Native::Loader => LOADER_PROGRAM,
        Native::Unknown => PROGRAM,
    }
}

/// Instructions without accounts and data: the program, the units, how many were started before,
/// and what it comes to.
const CALLS: [(Native, u64, u8, Wanted); 7] = [
    (Native::Budget, 150, 0, (150, 1, 2, Ok((0, &[])))),
    (Native::Budget, 200, 63, (150, 64, 2, Ok((0, &[])))),
    (
        Native::Budget,
        149,
        0,
        (149, 1, 2, Err((Cause::UnitsSpent, 1))),
    ),
    (
        Native::System,
        150,
        0,
        (150, 1, 2, Err((Cause::InvalidInstruction, 1))),
    ),
    (
        Native::Loader,
        151,
        5,
        (150, 6, 2, Err((Cause::InvalidInstruction, 1))),
    ),
    (
        Native::Unknown,
        9,
        0,
        (0, 1, 2, Err((Cause::UnknownProgram, 1))),
    ),
    (
        Native::Budget,
        150,
        64,
        (0, 64, 0, Err((Cause::TraceTooLong, 1))),
    ),
];

fn absent(alloc: Global) -> Result<Arc<Account>, OutOfMemory>
    ensures { IfOk result (λ share. arc_value share ≡ empty_account) }
{
    Ok(Arc::new(alloc, Account::empty(alloc))?)
}

/// Four accounts that are absent.
fn no_accounts(alloc: Global) -> Result<[Arc<Account>; 4], OutOfMemory>
    ensures { IfOk result (λ accounts. AreAccountsOf 4 (accounts_of accounts)) }
{
    Ok([
        absent(alloc)?,
        absent(alloc)?,
        absent(alloc)?,
        absent(alloc)?,
    ])
}

/// What is kept of some keys.
fn programs_under(alloc: Global, state: &Accounts, keys: &[Key]) -> Result<Programs, OutOfMemory> {
    let keys = Items::from_vec(Vec::from_slice(alloc, keys)?);
    Programs::from_accounts(alloc, state, &keys)
}

/// What comes of an instruction where no program is kept and no account is there.
fn ran_alone(
    alloc: Global,
    native: Native,
    units: u64,
    trace: u8,
) -> Result<(Ran, usize), OutOfMemory> {
    let keys = [native_key(native), PROGRAM, OTHER, ABSENT];
    let programs = programs_under(alloc, &Accounts::new(alloc), &keys)?;
    let accounts = no_accounts(alloc)?;
    let call = call_of(alloc, &[])?;
    run(alloc, &programs, 5, &keys, &accounts, &call, units, trace)
}

/// Whether the instruction of a row comes to what is wanted.
fn is_done(alloc: Global, row: &(Native, u64, u8, Wanted)) -> Result<bool, OutOfMemory> {
    let (ran, lines) = ran_alone(alloc, row.0, row.1, row.2)?;
    Ok(comes_to(&ran, lines, row.1, &row.3))
}

#[test]
fn instructions_of_one_program_each(rt: HostRuntime) -> Result<(), Fail> {
    for row in &CALLS {
        assert!(rt; is_done(rt.alloc(), row)?);
    }
    Ok(())
}

/// What the second account is.
#[derive(Clone, Copy)]
enum Second {
    /// A program that calls the first one.
    Program,
    /// An account of one byte that is the program's own, and one that is not.
    Own,
    Foreign,
    Vault,
}

fn second_key(second: Second) -> Key {
    match second {
        Second::Program => OTHER,
        Second::Own | Second::Foreign => Key([0x44; 32]),
        Second::Vault => VAULT,
    }
}

fn second_owner(second: Second) -> Key {
    match second {
        Second::Program | Second::Foreign => OTHER,
        Second::Own => PROGRAM,
        Second::Vault => SYSTEM_PROGRAM,
    }
}

fn is_program(second: Second) -> bool {
    match second {
        Second::Program => true,
        _ => false,
    }
}

fn second_lamports(second: Second) -> u32 {
    match second {
        Second::Vault => 2_000_000,
        _ => 1_000,
    }
}

fn second_data(alloc: Global, second: Second) -> Result<Blob, OutOfMemory>
    ensures { IfOk result (λ bytes. length bytes ≤ max_data_len) }
{
    match second {
        Second::Program => image(alloc, Text::CallsBack, 0),
        Second::Own | Second::Foreign => Blob::from_slice(alloc, &[0]),
        Second::Vault => Ok(Blob::new(alloc)),
    }
}

fn second_account(alloc: Global, second: Second) -> Result<Account, OutOfMemory>
    ensures short { IfOk result IsShort }
    ensures few { IfOk result (λ account. account.lamports < 2 ^ 32) }
{
    let bytes = second_data(alloc, second)?;
    Ok(Account {
        lamports: u64::from(second_lamports(second)),
        owner: second_owner(second),
        executable: is_program(second),
        bytes,
    })
}

/// The account of the program: a plain one where there is no text.
fn program(alloc: Global, text: Text, number: u8) -> Result<Account, OutOfMemory>
    ensures short { IfOk result IsShort }
    ensures few { IfOk result (λ account. account.lamports ≡ 1) }
{
    let bytes = image(alloc, text, number)?;
    Ok(Account {
        lamports: 1,
        owner: OTHER,
        executable: !bytes.is_empty(),
        bytes,
    })
}

/// Instructions with the writable accounts of the second key and of one that is absent, the program
/// and the system program: the program with its number, the second account, the greatest height and
/// the units; and then what it comes to.
const EXAMPLES: [(Text, u8, Second, u8, u64, Wanted); 13] = [
    (
        Text::CallsOther,
        0,
        Second::Program,
        5,
        200_000,
        (2_012, 2, 6, Err((Cause::Reentrancy, 2))),
    ),
    (
        Text::CallsItself,
        5,
        Second::Own,
        5,
        200_000,
        (4_544, 5, 15, Ok((1_000, &[0]))),
    ),
    (
        Text::CallsItself,
        6,
        Second::Own,
        5,
        200_000,
        (5_540, 5, 15, Err((Cause::StackHeight, 5))),
    ),
    (
        Text::Plain,
        0,
        Second::Own,
        5,
        200_000,
        (0, 1, 2, Err((Cause::UnknownProgram, 1))),
    ),
    (
        Text::CallsItself,
        9,
        Second::Own,
        9,
        200_000,
        (8_984, 9, 27, Ok((1_000, &[0]))),
    ),
    (
        Text::CallsItself,
        10,
        Second::Own,
        9,
        200_000,
        (9_972, 9, 27, Err((Cause::StackHeight, 9))),
    ),
    (
        Text::CallsItself,
        2,
        Second::Own,
        1,
        200_000,
        (1_108, 1, 3, Err((Cause::StackHeight, 1))),
    ),
    (
        Text::Stores,
        0,
        Second::Foreign,
        5,
        200_000,
        (3, 1, 3, Err((Cause::ForeignData, 1))),
    ),
    (
        Text::Stores,
        0,
        Second::Own,
        5,
        200_000,
        (3, 1, 3, Ok((1_000, &[7]))),
    ),
    (
        Text::StoresAndCalls,
        0,
        Second::Foreign,
        5,
        200_000,
        (1_007, 1, 3, Err((Cause::ForeignData, 1))),
    ),
    (
        Text::Transfers,
        0,
        Second::Vault,
        5,
        200_000,
        (1_006, 1, 3, Err((Cause::PrivilegeEscalation, 1))),
    ),
    (
        Text::Transfers,
        1,
        Second::Vault,
        5,
        200_000,
        (1_158, 2, 5, Ok((1_000_000, &[]))),
    ),
    (
        Text::Loops,
        0,
        Second::Own,
        5,
        850,
        (850, 1, 3, Err((Cause::UnitsSpent, 1))),
    ),
];

/// The accounts of the four keys.
fn accounts_with(
    alloc: Global,
    program: Account,
    second: Account,
) -> Result<[Arc<Account>; 4], OutOfMemory>
    requires program { IsShort program }
    requires second { IsShort second }
    requires lamports { program.lamports + second.lamports < 2 ^ 64 }
    ensures { IfOk result (λ accounts. AreAccountsOf 4 (accounts_of accounts)) }
{
    Ok([
        Arc::new(alloc, program)?,
        Arc::new(alloc, second)?,
        absent(alloc)?,
        absent(alloc)?,
    ])
}

/// The accounts of an instruction of the program.
fn given(
    alloc: Global,
    text: Text,
    number: u8,
    second: Second,
) -> Result<[Arc<Account>; 4], OutOfMemory>
    ensures { IfOk result (λ accounts. AreAccountsOf 4 (accounts_of accounts)) }
{
    let first = program(alloc, text, number)?;
    accounts_with(alloc, first, second_account(alloc, second)?)
}

/// The state with the program, and the one that it may call.
fn state_with(alloc: Global, program: Account) -> Result<Accounts, StoreFault>
    requires { IsShort program }
{
    let mut entries = Items::new(alloc);
    entries.push(KeyedAccount {
        key: OTHER,
        account: second_account(alloc, Second::Program)?,
    })?;
    entries.push(KeyedAccount {
        key: PROGRAM,
        account: program,
    })?;
    Accounts::from_sorted(alloc, entries)
}

/// What is kept of both programs.
fn programs_with(alloc: Global, text: Text, number: u8) -> Result<Programs, StoreFault> {
    let state = state_with(alloc, program(alloc, text, number)?)?;
    Ok(programs_under(alloc, &state, &[PROGRAM, OTHER])?)
}

/// What comes of an instruction of the first program over these accounts.
fn ran_over(
    alloc: Global,
    programs: &Programs,
    accounts: &[Arc<Account>; 4],
    second: Second,
    height: u8,
    units: u64,
) -> Result<(Ran, usize), OutOfMemory>
    requires height { (1 ≤ height) × (height ≤ 9) }
    requires accounts { AreAccountsOf 4 (accounts_of accounts.now) }
{
    let keys = [PROGRAM, second_key(second), ABSENT, SYSTEM_PROGRAM];
    let call = call_of(alloc, &METAS)?;
    run(alloc, programs, height, &keys, accounts, &call, units, 0)
}

/// What comes of an instruction of the program.
fn ran_with(
    alloc: Global,
    text: Text,
    number: u8,
    second: Second,
    height: u8,
    units: u64,
) -> Result<(Ran, usize), StoreFault>
    requires height { (1 ≤ height) × (height ≤ 9) }
{
    let programs = programs_with(alloc, text, number)?;
    let accounts = given(alloc, text, number, second)?;
    Ok(ran_over(alloc, &programs, &accounts, second, height, units)?)
}

/// Whether the instruction of a row comes to what is wanted.
fn is_example(
    alloc: Global,
    row: &(Text, u8, Second, u8, u64, Wanted),
) -> Result<bool, StoreFault> {
    let (height, units) = (row.3, row.4);
    if height < 1 || height > 9 {
        return Ok(false);
    }
    let (ran, lines) = ran_with(alloc, row.0, row.1, row.2, height, units)?;
    Ok(comes_to(&ran, lines, units, &row.5))
}

#[test]
fn examples_of_programs(rt: HostRuntime) -> Result<(), Fail> {
    for row in &EXAMPLES {
        assert!(rt; is_example(rt.alloc(), row)?);
    }
    Ok(())
}

/// Where programs stop that fail: the program with its number, the second account, and where.
const STOPS: [(Text, u8, Second, Option<StoppedAt>); 8] = [
    (
        Text::CallsOther,
        0,
        Second::Program,
        Some(StoppedAt {
            program: OTHER,
            slot: 7,
            access: None,
        }),
    ),
    (
        Text::Loads,
        5,
        Second::Own,
        Some(StoppedAt {
            program: PROGRAM,
            slot: 2,
            access: Some(AccessViolation {
                addr: 5,
                len: 8,
                write: false,
            }),
        }),
    ),
    (
        Text::Logs,
        9,
        Second::Own,
        Some(StoppedAt {
            program: PROGRAM,
            slot: 2,
            access: Some(AccessViolation {
                addr: 0,
                len: 9,
                write: false,
            }),
        }),
    ),
    (
        Text::Asks,
        0,
        Second::Own,
        Some(StoppedAt {
            program: PROGRAM,
            slot: 2,
            access: Some(AccessViolation {
                addr: 0,
                len: 40,
                write: false,
            }),
        }),
    ),
    (
        Text::Stores,
        0,
        Second::Foreign,
        Some(StoppedAt {
            program: PROGRAM,
            slot: 2,
            access: None,
        }),
    ),
    (
        Text::Loops,
        0,
        Second::Own,
        Some(StoppedAt {
            program: PROGRAM,
            slot: 0,
            access: None,
        }),
    ),
    (Text::Stores, 0, Second::Own, None),
    (Text::Plain, 0, Second::Own, None),
];

/// Whether the instruction of a row stops where it should.
fn is_stop(alloc: Global, row: &(Text, u8, Second, Option<StoppedAt>)) -> Result<bool, StoreFault> {
    let (ran, _) = ran_with(alloc, row.0, row.1, row.2, 5, 5_000)?;
    Ok(ran.stopped_at == row.3)
}

#[test]
fn programs_that_fail_tell_where(rt: HostRuntime) -> Result<(), Fail> {
    for row in &STOPS {
        assert!(rt; is_stop(rt.alloc(), row)?);
    }
    Ok(())
}
