//! Compact lengths (Solana): 7 bits a byte, low bits first, in as few bytes as hold the number.
ghost use Rattle.std.specs.Prelude.{◌≡◌, ◌≤◌, ◌++◌, OnOk};
ghost use Rattle.spec_base.specs.Reading.{Gives};
ghost use Rattle.message_codec.specs.Compact.{compact, max_count};
ghost use Rattle.message_codec.specs.WireReading.{is_wire_memory, compact_at};

use crate::fault::WireFault;
use sol_base::{Blob, OutOfMemory};

/// The greatest compact length, which is also the greatest number of two bytes (Solana).
pub const MAX_COUNT: usize = 65_535;

/// The length at the front of the bytes, and the bytes after it. `total` is the length of the whole
/// text.
#[tactic(auto, unfolding(crate::specs::WireReading::compact_at, format_fields::specs::Lengths::length_at))]
pub(crate) fn read_length(total: usize, bytes: &[u8]) -> Result<(usize, &[u8]), WireFault>
    ensures { Gives is_wire_memory (λ x. (x.0, x.1.now)) result (compact_at total bytes.now) }
{
    format_fields::read_length::<WireFault>(total, bytes)
}

/// Adds the length's one spelling to the bytes.
#[tactic(auto, unfolding(crate::specs::Compact::compact))]
pub fn write_length(out: &mut Blob, length: usize) -> Result<(), OutOfMemory>
    requires { length ≤ max_count }
    ensures { OnOk result (out.new ≡ out.old ++ compact length) }
{
    if length < 128 {
        out.append(&[length as u8])
    } else if length < 16_384 {
        out.append(&[(length % 128 + 128) as u8, (length / 128) as u8])
    } else {
        out.append(&[
            (length % 128 + 128) as u8,
            (length / 128 % 128 + 128) as u8,
            (length / 16_384) as u8,
        ])
    }
}
