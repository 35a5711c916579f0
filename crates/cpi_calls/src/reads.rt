//! Reads of the structures of the C interface.
ghost use Rattle.std.specs.Prelude.{◌≡◌};
ghost use Rattle.cpi_calls.specs.Reads.{item_at};

/// The bytes of each item of a list (the C interface).
pub(crate) const ITEM_LEN: usize = 16;

/// The address of an item of a list. Addresses wrap, as those of a program do.
pub(crate) fn item_addr(list: u64, index: u8) -> u64
    ensures { result ≡ item_at list index }
{
    list.wrapping_add(ITEM_LEN as u64 * u64::from(index))
}
