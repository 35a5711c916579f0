//! The instructions of the system program, and how they are read (Solana; that those of nonces are
//! not there is the project's own).
ghost use Rattle.std.specs.Prelude.{◌≡◌};
ghost use Rattle.spec_base.specs.Reading.{Gives};
ghost use Rattle.system_prog.specs.Faults.{is_system_memory};
ghost use Rattle.system_prog.specs.SystemProgram.{least_accounts};
ghost use Rattle.system_prog.specs.Written.{written};
ghost use Rattle.system_prog.specs.Instructions.{
  text_at,
  create_account_at,
  assign_at,
  transfer_at,
  create_account_with_seed_at,
  allocate_at,
  allocate_with_seed_at,
  assign_with_seed_at,
  transfer_with_seed_at,
  tagged,
  instruction_in,
};

use crate::fault::SystemFault;
use format_fields::key_field;
use sol_base::Key;
use spec_base::{bytes_field, u32_field, u64_field};
use std::marker::Model;
use std::str;

/// A text that a key is derived with.
#[derive(Drop)]
pub(crate) struct Seed<'a> {
    text: &'a str,
}

impl<'a> Model for Seed<'a> {
    ghost use Rattle.std.specs.Prelude.{List, ℕ};

    ghost Value = { List ℕ };

    ghost view = { λ s. s.text.now };
}

impl Seed<'_> {
    pub(crate) fn as_bytes(&self) -> &[u8]
        ensures { result.now ≡ self.now }
    {
        self.text.as_bytes()
    }
}

/// What an instruction asks for. Where an account was derived from a base, a seed and an owner, the
/// three are beside it.
#[derive(Drop)]
pub(crate) enum Instruction<'a> {
    CreateAccount {
        lamports: u64,
        space: u64,
        owner: Key,
    },
    Assign {
        owner: Key,
    },
    Transfer {
        lamports: u64,
    },
    CreateAccountWithSeed {
        base: Key,
        seed: Seed<'a>,
        lamports: u64,
        space: u64,
        owner: Key,
    },
    Allocate {
        space: u64,
    },
    AllocateWithSeed {
        base: Key,
        seed: Seed<'a>,
        space: u64,
        owner: Key,
    },
    AssignWithSeed {
        base: Key,
        seed: Seed<'a>,
        owner: Key,
    },
    TransferWithSeed {
        lamports: u64,
        seed: Seed<'a>,
        owner: Key,
    },
}

impl Instruction<'_> {
    /// How many accounts are listed at least.
    pub(crate) fn least_accounts(&self) -> usize
        ensures { result ≡ least_accounts self.now }
    {
        match self {
            Instruction::Assign { .. }
            | Instruction::Allocate { .. }
            | Instruction::AllocateWithSeed { .. }
            | Instruction::AssignWithSeed { .. } => 1,
            Instruction::CreateAccount { .. }
            | Instruction::Transfer { .. }
            | Instruction::CreateAccountWithSeed { .. } => 2,
            Instruction::TransferWithSeed { .. } => 3,
        }
    }

    /// The roles of the accounts that it may change: two, which may be one.
    pub(crate) fn written(&self) -> (u8, u8)
        ensures { result ≡ written self.now }
    {
        match self {
            Instruction::Assign { .. }
            | Instruction::Allocate { .. }
            | Instruction::AllocateWithSeed { .. }
            | Instruction::AssignWithSeed { .. } => (0, 0),
            Instruction::CreateAccount { .. }
            | Instruction::Transfer { .. }
            | Instruction::CreateAccountWithSeed { .. } => (0, 1),
            Instruction::TransferWithSeed { .. } => (0, 2),
        }
    }
}

/// The instruction that the data spell; bytes after its fields are ignored.
#[tactic(auto, unfolding(crate::specs::Instructions::instruction_in))]
pub(crate) fn read_instruction(input: &[u8]) -> Result<Instruction<'_>, SystemFault>
    ensures { Gives is_system_memory (λ x. x) result (instruction_in input.now) }
{
    let total = input.len();
    let (tag, rest) = u32_field::<SystemFault>(total, input)?;
    read_tagged(tag, total, rest)
}

#[tactic(auto, unfolding(crate::specs::Instructions::tagged))]
fn read_tagged(tag: u32, total: usize, bytes: &[u8]) -> Result<Instruction<'_>, SystemFault>
    ensures { Gives is_system_memory (λ x. x) result (tagged tag total bytes.now) }
{
    match tag {
        0 => read_create_account(total, bytes),
        1 => read_assign(total, bytes),
        2 => read_transfer(total, bytes),
        3 => read_create_account_with_seed(total, bytes),
        8 => read_allocate(total, bytes),
        9 => read_allocate_with_seed(total, bytes),
        10 => read_assign_with_seed(total, bytes),
        11 => read_transfer_with_seed(total, bytes),
        _ => Err(SystemFault::InvalidInstruction),
    }
}

#[tactic(auto, unfolding(crate::specs::Instructions::text_at))]
fn read_text(total: usize, bytes: &[u8]) -> Result<(Seed<'_>, &[u8]), SystemFault>
    ensures { Gives is_system_memory (λ x. (x.0, x.1.now)) result (text_at total bytes.now) }
{
    let (count, rest) = u64_field::<SystemFault>(total, bytes)?;
    let (text, rest) = bytes_field::<SystemFault>(total, count as usize, rest)?;
    match str::from_utf8(text) {
        Ok(text) => Ok((Seed { text }, rest)),
        Err(_) => Err(SystemFault::InvalidInstruction),
    }
}

#[tactic(auto, unfolding(crate::specs::Instructions::create_account_at))]
fn read_create_account(total: usize, bytes: &[u8]) -> Result<Instruction<'_>, SystemFault>
    ensures { Gives is_system_memory (λ x. x) result (create_account_at total bytes.now) }
{
    let (lamports, rest) = u64_field::<SystemFault>(total, bytes)?;
    let (space, rest) = u64_field::<SystemFault>(total, rest)?;
    let (owner, _) = key_field::<SystemFault>(total, rest)?;
    Ok(Instruction::CreateAccount {
        lamports,
        space,
        owner,
    })
}

#[tactic(auto, unfolding(crate::specs::Instructions::assign_at))]
fn read_assign(total: usize, bytes: &[u8]) -> Result<Instruction<'_>, SystemFault>
    ensures { Gives is_system_memory (λ x. x) result (assign_at total bytes.now) }
{
    let (owner, _) = key_field::<SystemFault>(total, bytes)?;
    Ok(Instruction::Assign { owner })
}

#[tactic(auto, unfolding(crate::specs::Instructions::transfer_at))]
fn read_transfer(total: usize, bytes: &[u8]) -> Result<Instruction<'_>, SystemFault>
    ensures { Gives is_system_memory (λ x. x) result (transfer_at total bytes.now) }
{
    let (lamports, _) = u64_field::<SystemFault>(total, bytes)?;
    Ok(Instruction::Transfer { lamports })
}

#[tactic(auto, unfolding(crate::specs::Instructions::create_account_with_seed_at))]
fn read_create_account_with_seed(total: usize, bytes: &[u8]) -> Result<Instruction<'_>, SystemFault>
    ensures { Gives is_system_memory (λ x. x) result (create_account_with_seed_at total bytes.now) }
{
    let (base, rest) = key_field::<SystemFault>(total, bytes)?;
    let (seed, rest) = read_text(total, rest)?;
    let (lamports, rest) = u64_field::<SystemFault>(total, rest)?;
    let (space, rest) = u64_field::<SystemFault>(total, rest)?;
    let (owner, _) = key_field::<SystemFault>(total, rest)?;
    Ok(Instruction::CreateAccountWithSeed {
        base,
        seed,
        lamports,
        space,
        owner,
    })
}

#[tactic(auto, unfolding(crate::specs::Instructions::allocate_at))]
fn read_allocate(total: usize, bytes: &[u8]) -> Result<Instruction<'_>, SystemFault>
    ensures { Gives is_system_memory (λ x. x) result (allocate_at total bytes.now) }
{
    let (space, _) = u64_field::<SystemFault>(total, bytes)?;
    Ok(Instruction::Allocate { space })
}

#[tactic(auto, unfolding(crate::specs::Instructions::allocate_with_seed_at))]
fn read_allocate_with_seed(total: usize, bytes: &[u8]) -> Result<Instruction<'_>, SystemFault>
    ensures { Gives is_system_memory (λ x. x) result (allocate_with_seed_at total bytes.now) }
{
    let (base, rest) = key_field::<SystemFault>(total, bytes)?;
    let (seed, rest) = read_text(total, rest)?;
    let (space, rest) = u64_field::<SystemFault>(total, rest)?;
    let (owner, _) = key_field::<SystemFault>(total, rest)?;
    Ok(Instruction::AllocateWithSeed {
        base,
        seed,
        space,
        owner,
    })
}

#[tactic(auto, unfolding(crate::specs::Instructions::assign_with_seed_at))]
fn read_assign_with_seed(total: usize, bytes: &[u8]) -> Result<Instruction<'_>, SystemFault>
    ensures { Gives is_system_memory (λ x. x) result (assign_with_seed_at total bytes.now) }
{
    let (base, rest) = key_field::<SystemFault>(total, bytes)?;
    let (seed, rest) = read_text(total, rest)?;
    let (owner, _) = key_field::<SystemFault>(total, rest)?;
    Ok(Instruction::AssignWithSeed { base, seed, owner })
}

#[tactic(auto, unfolding(crate::specs::Instructions::transfer_with_seed_at))]
fn read_transfer_with_seed(total: usize, bytes: &[u8]) -> Result<Instruction<'_>, SystemFault>
    ensures { Gives is_system_memory (λ x. x) result (transfer_with_seed_at total bytes.now) }
{
    let (lamports, rest) = u64_field::<SystemFault>(total, bytes)?;
    let (seed, rest) = read_text(total, rest)?;
    let (owner, _) = key_field::<SystemFault>(total, rest)?;
    Ok(Instruction::TransferWithSeed {
        lamports,
        seed,
        owner,
    })
}
