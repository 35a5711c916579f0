//! What each instruction does.
ghost use Rattle.std.specs.Prelude.{◌≡◌, ◌<◌, ◌≤◌, ◌^◌, length};
ghost use Rattle.spec_base.specs.Reading.{Gives};
ghost use Rattle.sol_base.specs.Accounts.{lamports_in};
ghost use Rattle.system_prog.specs.Faults.{is_system_memory};
ghost use Rattle.system_prog.specs.SystemProgram.{
  allocate_with_seed,
  assign_with_seed,
  create_with_seed,
  least_accounts,
  row,
  transfer_with_seed,
};

use crate::authority::Authority;
use crate::draft::Draft;
use crate::fault::SystemFault;
use crate::frame::Frame;
use crate::instruction::{Instruction, Seed};
use sol_base::Key;
use std::alloc::Global;

impl Frame<'_> {
    /// What an instruction does, where enough accounts are listed.
    #[tactic(auto, unfolding(crate::specs::SystemProgram::row))]
    pub(crate) fn run(
        &self,
        alloc: Global,
        draft: &mut Draft,
        instruction: &Instruction<'_>,
    ) -> Result<(), SystemFault>
        requires roles { least_accounts instruction.now ≤ length self.now.metas }
        requires count { length draft.old ≡ length self.now.keys }
        requires supply { lamports_in draft.old < 2 ^ 64 }
        ensures gives { Gives is_system_memory (λ _. draft.new) result
            (row self.now instruction.now draft.old) }
        ensures count { length draft.new ≡ length draft.old }
    {
        match instruction {
            Instruction::CreateAccount {
                lamports,
                space,
                owner,
            } => self.create(alloc, draft, Authority::Itself, *lamports, *space, *owner),
            Instruction::Assign { owner } => self.assign(draft, Authority::Itself, 0, *owner),
            Instruction::Transfer { lamports } => {
                self.transfer(draft, Authority::Itself, 0, 1, *lamports)
            }
            Instruction::CreateAccountWithSeed {
                base,
                seed,
                lamports,
                space,
                owner,
            } => self.create_with_seed(alloc, draft, base, seed, *lamports, *space, owner),
            Instruction::Allocate { space } => {
                self.allocate(alloc, draft, Authority::Itself, 0, *space)
            }
            Instruction::AllocateWithSeed {
                base,
                seed,
                space,
                owner,
            } => self.allocate_with_seed(alloc, draft, base, seed, *space, owner),
            Instruction::AssignWithSeed { base, seed, owner } => {
                self.assign_with_seed(draft, base, seed, owner)
            }
            Instruction::TransferWithSeed {
                lamports,
                seed,
                owner,
            } => self.transfer_with_seed(draft, *lamports, seed, owner),
        }
    }

    #[tactic(auto, unfolding(crate::specs::SystemProgram::create_with_seed))]
    fn create_with_seed(
        &self,
        alloc: Global,
        draft: &mut Draft,
        base: &Key,
        seed: &Seed<'_>,
        lamports: u64,
        space: u64,
        owner: &Key,
    ) -> Result<(), SystemFault>
        requires roles { 1 < length self.now.metas }
        requires count { length draft.old ≡ length self.now.keys }
        requires supply { lamports_in draft.old < 2 ^ 64 }
        ensures gives { Gives is_system_memory (λ _. draft.new) result
            (create_with_seed self.now base.now seed.now lamports space owner.now draft.old) }
        ensures count { length draft.new ≡ length draft.old }
    {
        self.check_derived(1, base, seed.as_bytes(), owner)?;
        let authority = self.by_base(1, *base);
        self.create(alloc, draft, authority, lamports, space, *owner)
    }

    #[tactic(auto, unfolding(crate::specs::SystemProgram::allocate_with_seed))]
    fn allocate_with_seed(
        &self,
        alloc: Global,
        draft: &mut Draft,
        base: &Key,
        seed: &Seed<'_>,
        space: u64,
        owner: &Key,
    ) -> Result<(), SystemFault>
        requires roles { 0 < length self.now.metas }
        requires count { length draft.old ≡ length self.now.keys }
        ensures gives { Gives is_system_memory (λ _. draft.new) result
            (allocate_with_seed self.now base.now seed.now space owner.now draft.old) }
        ensures count { length draft.new ≡ length draft.old }
    {
        self.check_derived(0, base, seed.as_bytes(), owner)?;
        let authority = self.by_base(0, *base);
        self.allocate(alloc, draft, authority, 0, space)?;
        self.assign(draft, authority, 0, *owner)
    }

    #[tactic(auto, unfolding(crate::specs::SystemProgram::assign_with_seed))]
    fn assign_with_seed(
        &self,
        draft: &mut Draft,
        base: &Key,
        seed: &Seed<'_>,
        owner: &Key,
    ) -> Result<(), SystemFault>
        requires roles { 0 < length self.now.metas }
        requires count { length draft.old ≡ length self.now.keys }
        ensures gives { Gives is_system_memory (λ _. draft.new) result
            (assign_with_seed self.now base.now seed.now owner.now draft.old) }
        ensures count { length draft.new ≡ length draft.old }
    {
        self.check_derived(0, base, seed.as_bytes(), owner)?;
        let authority = self.by_base(0, *base);
        self.assign(draft, authority, 0, *owner)
    }

    /// The account in role 1 is the base of the one in role 0, which pays the one in role 2.
    #[tactic(auto, unfolding(crate::specs::SystemProgram::transfer_with_seed))]
    fn transfer_with_seed(
        &self,
        draft: &mut Draft,
        lamports: u64,
        seed: &Seed<'_>,
        owner: &Key,
    ) -> Result<(), SystemFault>
        requires roles { 2 < length self.now.metas }
        requires count { length draft.old ≡ length self.now.keys }
        requires supply { lamports_in draft.old < 2 ^ 64 }
        ensures gives { Gives is_system_memory (λ _. draft.new) result
            (transfer_with_seed self.now lamports seed.now owner.now draft.old) }
        ensures count { length draft.new ≡ length draft.old }
    {
        if !self.signs(Authority::Itself, 1) {
            return Err(SystemFault::MissingSignature { i: 1 });
        }
        let base = self.key(1);
        self.check_derived(0, &base, seed.as_bytes(), owner)?;
        self.pay(draft, 0, 2, lamports)
    }
}
