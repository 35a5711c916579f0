//! Laws of system calls.
ghost use Rattle.std.specs.Prelude.{◌≡◌, ℕ, ◌≤◌, List};
ghost use Rattle.sbpf_memory.specs.Memory.{Ranges};
ghost use Rattle.tx_report.specs.LogLines.{HasGrown};
ghost use Rattle.sys_calls.specs.declared.env.Env.{Env};
ghost use Rattle.sys_calls.specs.SysCalls.{Service, IsServedMemory, sys_row};

use crate::returned::MAX_RETURNED;
use crate::sha256::MAX_SLICES;
use crate::slices::SLICE_LEN;
use crate::table::{BASE_COST, HASH_COST, KEY_COST, MIN_BYTES_COST, RENT_COST, SLOT_COST};

/// The costs and the bounds of calls, and the bytes of a slice in a list (Solana; the costs of slot
/// and rent are the project's own).
pub fn numbers_are_as_stated()
    ensures base { BASE_COST ≡ 100 }
    ensures least { MIN_BYTES_COST ≡ 10 }
    ensures hash { HASH_COST ≡ 85 }
    ensures key { KEY_COST ≡ 1_500 }
    ensures slot { SLOT_COST ≡ 108 }
    ensures rent { RENT_COST ≡ 116 }
    ensures slices { MAX_SLICES ≡ 20_000 }
    ensures returned { MAX_RETURNED ≡ 1_024 }
    ensures slice { SLICE_LEN ≡ 16 }
{}

/// A law: no call leaves more units than there were.
pub fn calls_gain_no_units()
    ensures units { (number : ℕ) (arguments : List ℕ) (m : Ranges) (env : Env) →
        (sys_row number arguments m env).units ≤ env.units }
{}

/// A law: a served call leaves a memory with as many bytes in its input, which was made to lend the
/// same accounts, and what held of each memory holds still.
pub fn calls_keep_sizes()
    ensures memory { (number : ℕ) (arguments : List ℕ) (m : Ranges) (env : Env)
        (service : Service) → (sys_row number arguments m env).answer ≡ Ok service →
        IsServedMemory m service.memory }
{}

/// A law: a served call lets the log grow by lines, each a text of a byte at least, and changes
/// nothing else of it.
pub fn calls_add_lines()
    ensures lines { (number : ℕ) (arguments : List ℕ) (m : Ranges) (env : Env)
        (service : Service) → (sys_row number arguments m env).answer ≡ Ok service →
        HasGrown env.logs service.log }
{}
