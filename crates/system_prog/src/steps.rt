//! The steps that the instructions share.
ghost use Rattle.std.specs.Prelude.{◌≡◌, ◌<◌, ◌^◌, OnOk, length};
ghost use Rattle.spec_base.specs.Reading.{Gives};
ghost use Rattle.sol_base.specs.Accounts.{lamports_in};
ghost use Rattle.system_prog.specs.Faults.{is_system_memory};
ghost use Rattle.system_prog.specs.SystemProgram.{allocate, assign, create, derived, has_data, is_taken, not_derived, pay, transfer};

use crate::authority::Authority;
use crate::draft::{Change, Draft};
use crate::fault::SystemFault;
use crate::frame::Frame;
use crate::zeros::zeros;
use sol_base::{Account, Key, MAX_DATA_LEN, SYSTEM_PROGRAM, SeedFault, seed_key};
use std::alloc::Global;

/// The account is in use already.
const IN_USE: SystemFault = SystemFault::Custom { code: 0 };

/// The payer has fewer lamports than it is to pay.
const TOO_POOR: SystemFault = SystemFault::Custom { code: 1 };

/// More bytes are asked for than an account may have.
const TOO_LARGE: SystemFault = SystemFault::Custom { code: 3 };

/// The seed has too many bytes.
const SEED_TOO_LONG: SystemFault = SystemFault::Custom { code: 4 };

/// The account's key is not the one that is derived.
const NOT_DERIVED: SystemFault = SystemFault::Custom { code: 5 };

impl Frame<'_> {
    /// The account in a role has the key that is derived from a base, a seed and an owner.
    #[tactic(auto, unfolding(crate::specs::SystemProgram::derived))]
    pub(crate) fn check_derived(
        &self,
        role: u8,
        base: &Key,
        seed: &[u8],
        owner: &Key,
    ) -> Result<(), SystemFault>
        requires { role < length self.now.metas }
        ensures { Gives is_system_memory (λ _. tt) result
            (derived self.now role base.now seed.now owner.now) }
    {
        match seed_key(base, seed, owner) {
            Ok(key) if key == self.key(role) => Ok(()),
            Ok(_) => Err(NOT_DERIVED),
            Err(fault) => Err(not_derived(fault)),
        }
    }

    #[tactic(auto, unfolding(crate::specs::SystemProgram::allocate))]
    pub(crate) fn allocate(
        &self,
        alloc: Global,
        draft: &mut Draft,
        authority: Authority,
        role: u8,
        space: u64,
    ) -> Result<(), SystemFault>
        requires role { role < length self.now.metas }
        requires count { length draft.old ≡ length self.now.keys }
        ensures gives { Gives is_system_memory (λ _. draft.new) result
            (allocate self.now authority role space draft.old) }
        ensures count { length draft.new ≡ length draft.old }
        ensures lamports { OnOk result (lamports_in draft.new ≡ lamports_in draft.old) }
    {
        if !self.signs(authority, role) {
            return Err(SystemFault::MissingSignature { i: role });
        }
        let place = self.place(role);
        if is_taken(draft.account(place)) {
            return Err(IN_USE);
        }
        if space > MAX_DATA_LEN as u64 {
            return Err(TOO_LARGE);
        }
        let bytes = zeros(alloc, space as usize)?;
        draft.change(place, Change::Bytes(bytes))?;
        Ok(())
    }

    #[tactic(auto, unfolding(crate::specs::SystemProgram::assign))]
    pub(crate) fn assign(
        &self,
        draft: &mut Draft,
        authority: Authority,
        role: u8,
        owner: Key,
    ) -> Result<(), SystemFault>
        requires role { role < length self.now.metas }
        requires count { length draft.old ≡ length self.now.keys }
        ensures gives { Gives is_system_memory (λ _. draft.new) result
            (assign self.now authority role owner draft.old) }
        ensures count { length draft.new ≡ length draft.old }
        ensures lamports { OnOk result (lamports_in draft.new ≡ lamports_in draft.old) }
    {
        let place = self.place(role);
        if draft.account(place).owner == owner {
            return Ok(());
        }
        if !self.signs(authority, role) {
            return Err(SystemFault::MissingSignature { i: role });
        }
        draft.change(place, Change::Owner(owner))?;
        Ok(())
    }

    /// A payment, whoever signs.
    #[tactic(auto, unfolding(crate::specs::SystemProgram::pay))]
    pub(crate) fn pay(
        &self,
        draft: &mut Draft,
        from: u8,
        to: u8,
        lamports: u64,
    ) -> Result<(), SystemFault>
        requires from { from < length self.now.metas }
        requires to { to < length self.now.metas }
        requires count { length draft.old ≡ length self.now.keys }
        requires supply { lamports_in draft.old < 2 ^ 64 }
        ensures gives { Gives is_system_memory (λ _. draft.new) result
            (pay self.now from to lamports draft.old) }
        ensures count { length draft.new ≡ length draft.old }
    {
        let from = self.place(from);
        let to = self.place(to);
        let payer = draft.account(from);
        if has_data(payer) {
            return Err(SystemFault::InvalidArgument);
        }
        if payer.lamports < lamports {
            return Err(TOO_POOR);
        }
        if from == to {
            return Ok(());
        }
        let left = payer.lamports - lamports;
        draft.change(from, Change::Lamports(left))?;
        let sum = draft.account(to).lamports + lamports;
        draft.change(to, Change::Lamports(sum))?;
        Ok(())
    }

    /// A payment that the payer signs.
    #[tactic(auto, unfolding(crate::specs::SystemProgram::transfer))]
    pub(crate) fn transfer(
        &self,
        draft: &mut Draft,
        authority: Authority,
        from: u8,
        to: u8,
        lamports: u64,
    ) -> Result<(), SystemFault>
        requires from { from < length self.now.metas }
        requires to { to < length self.now.metas }
        requires count { length draft.old ≡ length self.now.keys }
        requires supply { lamports_in draft.old < 2 ^ 64 }
        ensures gives { Gives is_system_memory (λ _. draft.new) result
            (transfer self.now authority from to lamports draft.old) }
        ensures count { length draft.new ≡ length draft.old }
    {
        if !self.signs(authority, from) {
            return Err(SystemFault::MissingSignature { i: from });
        }
        self.pay(draft, from, to, lamports)
    }

    /// The account in role 1 gets room, an owner, and lamports of the one in role 0.
    #[tactic(auto, unfolding(crate::specs::SystemProgram::create))]
    pub(crate) fn create(
        &self,
        alloc: Global,
        draft: &mut Draft,
        authority: Authority,
        lamports: u64,
        space: u64,
        owner: Key,
    ) -> Result<(), SystemFault>
        requires roles { 1 < length self.now.metas }
        requires count { length draft.old ≡ length self.now.keys }
        requires supply { lamports_in draft.old < 2 ^ 64 }
        ensures gives { Gives is_system_memory (λ _. draft.new) result
            (create self.now authority lamports space owner draft.old) }
        ensures count { length draft.new ≡ length draft.old }
    {
        if draft.account(self.place(1)).lamports != 0 {
            return Err(IN_USE);
        }
        self.allocate(alloc, draft, authority, 1, space)?;
        self.assign(draft, authority, 1, owner)?;
        self.transfer(draft, authority, 0, 1, lamports)
    }
}

fn not_derived(fault: SeedFault) -> SystemFault
    ensures { result ≡ not_derived fault }
{
    match fault {
        SeedFault::TooLong => SEED_TOO_LONG,
        SeedFault::IllegalOwner => SystemFault::InvalidArgument,
    }
}

fn has_data(account: &Account) -> bool
    ensures { result ≡ has_data account.now }
{
    account.bytes.len() != 0
}

/// Whether an account has data or an owner, so that no one may allocate it.
fn is_taken(account: &Account) -> bool
    ensures { result ≡ is_taken account.now }
{
    has_data(account) || account.owner != SYSTEM_PROGRAM
}
