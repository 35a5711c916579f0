//! What operations compute and when jumps are taken.
ghost use Rattle.std.specs.Prelude.{◌≡◌, ◌≢◌, ◌%◌, ◌^◌, true};
ghost use Rattle.std.specs.Int.{w32, w64};
ghost use Rattle.sbpf_machine.specs.Values.{value_of, divides, holds, negative, low_bits, swapped_bits};

use sbpf_isa::{Condition, Operation};

/// The low 32 bits.
#[inline(always)]
pub fn low(number: u64) -> u32
    ensures { result ≡ number % 2 ^ 32 }
{
    (number & 0xffff_ffff) as u32
}

/// What an operation computes of two numbers of as many bits.
macro_rules! value_of {
    ($operation:expr, $d:expr, $s:expr, $bits:expr) => {
        match $operation {
            Operation::Add => $d.wrapping_add($s),
            Operation::Sub => $d.wrapping_sub($s),
            Operation::Mul => $d.wrapping_mul($s),
            Operation::Div => $d / $s,
            Operation::Or => $d | $s,
            Operation::And => $d & $s,
            Operation::Lsh => $d << ($s % $bits),
            Operation::Rsh => $d >> ($s % $bits),
            Operation::Mod => $d % $s,
            Operation::Xor => $d ^ $s,
            Operation::Mov => $s,
            Operation::Arsh => ($d.cast_signed() >> ($s % $bits)).cast_unsigned(),
        }
    };
}

/// What an operation of class 7 computes.
#[inline(always)]
pub fn value64(operation: Operation, d: u64, s: u64) -> u64
    requires { divides operation ≡ true → s ≢ 0 }
    ensures { result ≡ value_of operation w64 d s }
{
    value_of!(operation, d, s, 64)
}

/// What an operation of class 4 computes.
#[inline(always)]
pub fn value32(operation: Operation, d: u32, s: u32) -> u32
    requires { divides operation ≡ true → s ≢ 0 }
    ensures { result ≡ value_of operation w32 d s }
{
    value_of!(operation, d, s, 32)
}

/// Whether a jump is taken.
#[inline(always)]
pub fn is_taken(when: Condition, d: u64, s: u64) -> bool
    ensures { result ≡ holds when d s }
{
    match when {
        Condition::Equal => d == s,
        Condition::NotEqual => d != s,
        Condition::Greater => d > s,
        Condition::GreaterOrEqual => d >= s,
        Condition::Less => d < s,
        Condition::LessOrEqual => d <= s,
        Condition::Set => d & s != 0,
        Condition::SignedGreater => d.cast_signed() > s.cast_signed(),
        Condition::SignedGreaterOrEqual => d.cast_signed() >= s.cast_signed(),
        Condition::SignedLess => d.cast_signed() < s.cast_signed(),
        Condition::SignedLessOrEqual => d.cast_signed() <= s.cast_signed(),
    }
}

/// 0 minus a number of 64 bits.
#[inline(always)]
pub fn negative64(d: u64) -> u64
    ensures { result ≡ negative w64 d }
{
    0u64.wrapping_sub(d)
}

/// 0 minus a number of 32 bits.
#[inline(always)]
pub fn negative32(d: u32) -> u32
    ensures { result ≡ negative w32 d }
{
    0u32.wrapping_sub(d)
}

/// The low 16, 32 or 64 bits.
pub fn low_bits(bits: u64, d: u64) -> u64
    ensures { result ≡ low_bits bits d }
{
    match bits {
        16 => d % 65536,
        32 => u64::from(low(d)),
        _ => d,
    }
}

/// The bytes of the low 16, 32 or 64 bits, in the other order.
pub fn swapped_bits(bits: u64, d: u64) -> u64
    ensures { result ≡ swapped_bits bits d }
{
    match bits {
        16 => u64::from(((d % 65536) as u16).swap_bytes()),
        32 => u64::from(low(d).swap_bytes()),
        _ => d.swap_bytes(),
    }
}
