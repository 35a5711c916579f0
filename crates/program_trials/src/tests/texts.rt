//! Programs that the examples call, in words of eight bytes: the numbers of slots and of constant
//! bytes, the slots, and the constants.
ghost use Rattle.std.specs.Prelude.{◌≤◌, IfOk, length};
ghost use Rattle.sol_base.specs.Accounts.{max_data_len};

use sol_base::{Blob, Key, MAX_DATA_LEN, OutOfMemory};
use std::alloc::Global;

/// `lddw r1, CALL`, `mov64 r2, 0`, `mov64 r3, 0`, `lddw r4, SIGNERS`, `mov64 r5, 0`, `syscall 17`,
/// `mov64 r0, 0`, `exit`, where the call is of the other program, with both of them as accounts.
const CALLS_OTHER: [u64; 32] = [
    0xa8_0000_000a,
    0x50_0000_0118,
    0x1_0000_0000,
    0x2b7,
    0x3b7,
    0xf8_0000_0418,
    0x1_0000_0000,
    0x5b7,
    0x11_0000_0085,
    0xb7,
    0x95,
    0x1_0000_0078,
    0x1_0000_0098,
    0x02,
    0x1_0000_00f8,
    0,
    0x6666_6666_6666_6666,
    0x6666_6666_6666_6666,
    0x6666_6666_6666_6666,
    0x6666_6666_6666_6666,
    0x1_0000_00b8,
    0,
    0x1_0000_00d8,
    0,
    0x7777_7777_7777_7777,
    0x7777_7777_7777_7777,
    0x7777_7777_7777_7777,
    0x7777_7777_7777_7777,
    0x6666_6666_6666_6666,
    0x6666_6666_6666_6666,
    0x6666_6666_6666_6666,
    0x6666_6666_6666_6666,
];

/// The instructions of `CALLS_OTHER`, with a call of the first program.
const CALLS_BACK: [u64; 26] = [
    0x78_0000_000a,
    0x50_0000_0118,
    0x1_0000_0000,
    0x2b7,
    0x3b7,
    0xc8_0000_0418,
    0x1_0000_0000,
    0x5b7,
    0x11_0000_0085,
    0xb7,
    0x95,
    0x1_0000_0078,
    0x1_0000_0098,
    0x01,
    0x1_0000_00c8,
    0,
    0x7777_7777_7777_7777,
    0x7777_7777_7777_7777,
    0x7777_7777_7777_7777,
    0x7777_7777_7777_7777,
    0x1_0000_00a8,
    0,
    0x7777_7777_7777_7777,
    0x7777_7777_7777_7777,
    0x7777_7777_7777_7777,
    0x7777_7777_7777_7777,
];

/// `syscall 16`, `jge r0, NUMBER, +8`, and then the same with a call of itself.
const CALLS_ITSELF: [u64; 28] = [
    0x78_0000_000c,
    0x10_0000_0085,
    0x8_0035,
    0x60_0000_0118,
    0x1_0000_0000,
    0x2b7,
    0x3b7,
    0xd8_0000_0418,
    0x1_0000_0000,
    0x5b7,
    0x11_0000_0085,
    0xb7,
    0x95,
    0x1_0000_0088,
    0x1_0000_00a8,
    0x01,
    0x1_0000_00d8,
    0,
    0x7777_7777_7777_7777,
    0x7777_7777_7777_7777,
    0x7777_7777_7777_7777,
    0x7777_7777_7777_7777,
    0x1_0000_00b8,
    0,
    0x7777_7777_7777_7777,
    0x7777_7777_7777_7777,
    0x7777_7777_7777_7777,
    0x7777_7777_7777_7777,
];

/// `stb [r1+96], 7`, `mov64 r0, 0`, `exit`.
const STORES: [u64; 4] = [0x03, 0x7_0060_0172, 0xb7, 0x95];

/// `stb [r1+96], 7`, and then a call of the system program without accounts.
const STORES_AND_CALLS: [u64; 23] = [
    0x58_0000_000b,
    0x7_0060_0172,
    0x58_0000_0118,
    0x1_0000_0000,
    0x2b7,
    0x3b7,
    0xb0_0000_0418,
    0x1_0000_0000,
    0x5b7,
    0x11_0000_0085,
    0xb7,
    0x95,
    0x1_0000_0080,
    0x1_0000_00a0,
    0,
    0x1_0000_00a0,
    0x0c,
    0,
    0,
    0,
    0,
    0x02,
    0,
];

/// `mov64 r2, 0`, `mov64 r5, NUMBER`, and then a call of the system program for a transfer of
/// 1,000,000 lamports from the vault, with so many signers; the one that is there has the seed
/// `vault`.
const TRANSFERS: [u64; 39] = [
    0xe0_0000_000a,
    0x2b7,
    0x5b7,
    0x50_0000_0118,
    0x1_0000_0000,
    0x3b7,
    0x108_0000_0418,
    0x1_0000_0000,
    0x11_0000_0085,
    0xb7,
    0x95,
    0x1_0000_0078,
    0x1_0000_0098,
    0x02,
    0x1_0000_00f8,
    0x0c,
    0,
    0,
    0,
    0,
    0x1_0000_00b8,
    0x101,
    0x1_0000_00d8,
    0x01,
    0xdba4_b071_d177_98ce,
    0x9241_f430_2efa_73bf,
    0x38a1_7c37_8409_fb88,
    0x1c59_f830_443c_8a78,
    0x1111_1111_1111_1111,
    0x1111_1111_1111_1111,
    0x1111_1111_1111_1111,
    0x1111_1111_1111_1111,
    0xf_4240_0000_0002,
    0,
    0x1_0000_0118,
    0x01,
    0x1_0000_0128,
    0x05,
    0x74_6c75_6176,
];

/// `ja -1`.
const LOOPS: [u64; 2] = [0x01, 0xffff_0005];

/// `mov64 r0, 0`, `mov64 r2, NUMBER`, `ldxdw r0, [r2]`, `exit`.
const LOADS: [u64; 5] = [0x04, 0xb7, 0x2b7, 0x2079, 0x95];

/// `mov64 r1, 0`, `mov64 r2, NUMBER`, `syscall 2`, `exit`.
const LOGS: [u64; 5] = [0x04, 0x1b7, 0x2b7, 0x2_0000_0085, 0x95];

/// `mov64 r1, 0`, `mov64 r2, NUMBER`, `syscall 17`, `exit`.
const ASKS: [u64; 5] = [0x04, 0x1b7, 0x2b7, 0x11_0000_0085, 0x95];

/// The key of the seed `vault` and the program of 32 bytes 0x77.
pub const VAULT: Key = Key([
    0xce, 0x98, 0x77, 0xd1, 0x71, 0xb0, 0xa4, 0xdb, 0xbf, 0x73, 0xfa, 0x2e, 0x30, 0xf4, 0x41, 0x92,
    0x88, 0xfb, 0x09, 0x84, 0x37, 0x7c, 0xa1, 0x38, 0x78, 0x8a, 0x3c, 0x44, 0x30, 0xf8, 0x59, 0x1c,
]);

/// What a program does.
#[derive(Clone, Copy)]
pub enum Text {
    CallsOther,
    CallsBack,
    /// It calls itself up to a height.
    CallsItself,
    Stores,
    StoresAndCalls,
    /// It transfers from the vault, with a number of signers.
    Transfers,
    Loops,
    /// It loads from the address of its number.
    Loads,
    /// It logs a text of so many bytes at address 0.
    Logs,
    /// It calls by a request at address 0.
    Asks,
    /// It is no program.
    Plain,
}

fn words(text: Text) -> &'static [u64] {
    match text {
        Text::CallsOther => &CALLS_OTHER,
        Text::CallsBack => &CALLS_BACK,
        Text::CallsItself => &CALLS_ITSELF,
        Text::Stores => &STORES,
        Text::StoresAndCalls => &STORES_AND_CALLS,
        Text::Transfers => &TRANSFERS,
        Text::Loops => &LOOPS,
        Text::Loads => &LOADS,
        Text::Logs => &LOGS,
        Text::Asks => &ASKS,
        Text::Plain => &[],
    }
}

/// Adds the words, the third of which gets the number.
fn add_words(bytes: &mut Blob, words: &[u64], number: u8) -> Result<(), OutOfMemory> {
    let mut place = 0u8;
    for word in words {
        let more = if place == 2 {
            u64::from(number) << 32
        } else {
            0
        };
        bytes.append(&(*word | more).to_le_bytes())?;
        place = place.wrapping_add(1);
    }
    Ok(())
}

/// The image of a program, with the number in its second slot; no data for none.
pub fn image(alloc: Global, text: Text, number: u8) -> Result<Blob, OutOfMemory>
    ensures { IfOk result (λ bytes. length bytes ≤ max_data_len) }
{
    let words = words(text);
    if words.is_empty() {
        return Ok(Blob::new(alloc));
    }
    let mut bytes = Blob::from_slice(alloc, b"SBPFIMG1")?;
    add_words(&mut bytes, words, number)?;
    if bytes.len() > MAX_DATA_LEN {
        return Err(OutOfMemory);
    }
    Ok(bytes)
}
