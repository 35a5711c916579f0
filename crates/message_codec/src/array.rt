//! Compact arrays (Solana): a compact length, and then so many items.
ghost use Rattle.std.specs.Prelude.{◌≡◌, ◌≤◌, ◌++◌, All, OnOk};
ghost use Rattle.spec_base.specs.Reading.{Gives};
ghost use Rattle.message_codec.specs.Wire.{IsCountable, array_bytes, blob_bytes};
ghost use Rattle.message_codec.specs.WireReading.{is_wire_memory, array_at, blob_at};

use crate::compact::{read_length, write_length};
use crate::fault::WireFault;
use format_fields::{Item, read_many};
use sol_base::{Blob, Items, OutOfMemory};
use spec_base::bytes_field;
use std::alloc::Global;

/// What compact arrays of a wire hold, as it is written.
pub(crate) trait Spelled {
    ghost use Rattle.std.specs.Prelude.{ℕ, List};

    /// The bytes of the item.
    ghost item_bytes: { Self → List ℕ };

    /// Whether the item has bytes.
    ghost CanSpell: { Self → Type 0 };

    fn write(&self, out: &mut Blob) -> Result<(), OutOfMemory>
        requires { CanSpell self.now }
        ensures { OnOk result (out.new ≡ out.old ++ item_bytes self.now) };
}

/// The array at the front of the bytes, and the bytes after it.
#[tactic(auto, unfolding(crate::specs::WireReading::array_at))]
pub(crate) fn read_array<T: Item<WireFault>>(
    alloc: Global,
    total: usize,
    bytes: &[u8],
) -> Result<(Items<T>, &[u8]), WireFault>
    ensures { Gives is_wire_memory (λ x. (x.0, x.1.now)) result
        (array_at T.item_at total bytes.now) }
{
    let (count, rest) = read_length(total, bytes)?;
    read_many::<WireFault, T>(alloc, total, count, rest)
}

/// The compact array of bytes at the front, one field after its length, and the bytes after it.
#[tactic(auto, unfolding(crate::specs::WireReading::blob_at))]
pub(crate) fn read_blob(
    alloc: Global,
    total: usize,
    bytes: &[u8],
) -> Result<(Blob, &[u8]), WireFault>
    ensures { Gives is_wire_memory (λ x. (x.0, x.1.now)) result (blob_at total bytes.now) }
{
    let (count, rest) = read_length(total, bytes)?;
    let (field, rest) = bytes_field::<WireFault>(total, count, rest)?;
    Ok((Blob::from_slice(alloc, field)?, rest))
}

/// Adds the array to the bytes.
pub(crate) fn write_array<T: Spelled>(out: &mut Blob, items: &Items<T>) -> Result<(), OutOfMemory>
    requires short { IsCountable items.now }
    requires spelled { All T.CanSpell items.now }
    ensures { OnOk result (out.new ≡ out.old ++ array_bytes T.item_bytes items.now) }
{
    let items = items.as_slice();
    write_length(out, items.len())?;
    for item in items {
        item.write(out)?;
    }
    Ok(())
}

/// Adds the compact array of bytes to the bytes.
pub(crate) fn write_blob(out: &mut Blob, bytes: &Blob) -> Result<(), OutOfMemory>
    requires { IsCountable bytes.now }
    ensures { OnOk result (out.new ≡ out.old ++ blob_bytes bytes.now) }
{
    let bytes = bytes.as_slice();
    write_length(out, bytes.len())?;
    out.append(bytes)
}
