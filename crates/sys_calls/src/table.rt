//! The system calls by their numbers, with their costs (Solana; the numbers, and the costs of slot,
//! rent and reading what was returned, are the project's own).
ghost use Rattle.std.specs.Prelude.{◌≡◌};
ghost use Rattle.sbpf_isa.specs.Calls.{IsServed};
ghost use Rattle.sys_calls.specs.Costs.{call_numbered, cost_of};

use compute_meter::BYTES_OF_UNIT;

/// A system call other than the cross-program call.
#[derive(Clone, Copy, PartialEq, Eq)]
pub enum SystemCall {
    Abort,
    Log,
    Log64,
    LogKey,
    LogUnits,
    Sha256,
    Memcpy,
    Memmove,
    Memcmp,
    Memset,
    ProgramKey,
    GetSlot,
    GetRent,
    SetReturn,
    GetReturn,
    GetHeight,
}

/// What most calls cost.
pub(crate) const BASE_COST: u64 = 100;

/// What a call on many bytes costs at least.
pub(crate) const MIN_BYTES_COST: u64 = 10;

/// What hashing costs beside what each slice costs.
pub(crate) const HASH_COST: u64 = 85;

/// What deriving a key costs.
pub(crate) const KEY_COST: u64 = 1_500;

/// What reading the slot costs (the project's own).
pub(crate) const SLOT_COST: u64 = 108;

/// What reading the rent costs (the project's own).
pub(crate) const RENT_COST: u64 = 116;

impl SystemCall {
    /// The call of a number.
    pub(crate) fn numbered(number: u32) -> SystemCall
        requires { IsServed number }
        ensures { result ≡ call_numbered number }
    {
        match number {
            1 => SystemCall::Abort,
            2 => SystemCall::Log,
            3 => SystemCall::Log64,
            4 => SystemCall::LogKey,
            5 => SystemCall::LogUnits,
            6 => SystemCall::Sha256,
            7 => SystemCall::Memcpy,
            8 => SystemCall::Memmove,
            9 => SystemCall::Memcmp,
            10 => SystemCall::Memset,
            11 => SystemCall::ProgramKey,
            12 => SystemCall::GetSlot,
            13 => SystemCall::GetRent,
            14 => SystemCall::SetReturn,
            15 => SystemCall::GetReturn,
            _ => SystemCall::GetHeight,
        }
    }

    /// What the call costs before it does anything, by its arguments and by how many returned bytes
    /// are kept.
    pub(crate) fn cost(self, arguments: [u64; 5], kept: u64) -> u64
        ensures { result ≡ cost_of self arguments kept }
    {
        let [_, second, third, _, _] = arguments;
        match self {
            SystemCall::Abort
            | SystemCall::Log64
            | SystemCall::LogKey
            | SystemCall::LogUnits
            | SystemCall::GetHeight => BASE_COST,
            SystemCall::Log => second.max(BASE_COST),
            SystemCall::Sha256 => HASH_COST,
            SystemCall::Memcpy | SystemCall::Memmove | SystemCall::Memcmp | SystemCall::Memset =>
                (third / BYTES_OF_UNIT).max(MIN_BYTES_COST),
            SystemCall::ProgramKey => KEY_COST,
            SystemCall::GetSlot => SLOT_COST,
            SystemCall::GetRent => RENT_COST,
            SystemCall::SetReturn => BASE_COST + second / BYTES_OF_UNIT,
            SystemCall::GetReturn => BASE_COST + second.min(kept) / BYTES_OF_UNIT,
        }
    }
}
