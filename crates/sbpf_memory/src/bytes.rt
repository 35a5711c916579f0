//! Bytes of lists, read and written at a place.
ghost use Rattle.std.specs.Prelude.{◌≡◌, ◌≤◌, ◌+◌, length, take, drop};
ghost use Rattle.spec_base.specs.Bytes.{with_bytes};

/// Copies bytes from a place of a list on.
#[inline(always)]
pub(crate) fn read_into(list: &[u8], at: usize, into: &mut [u8])
    requires { at + length into.old ≤ length list.now }
    ensures { into.new ≡ take (length into.old) (drop at list.now) }
{
    let end = at + into.len();
    into.copy_from_slice(&list[at..end]);
}

/// The `N` bytes of a list from a place on.
#[inline(always)]
pub(crate) fn array_from<const N: usize>(list: &[u8], at: usize) -> [u8; N]
    requires { at + N ≤ length list.now }
    ensures { result ≡ take N (drop at list.now) }
{
    let mut bytes = [0; N];
    bytes.copy_from_slice(&list[at..at + N]);
    bytes
}

/// Copies bytes to a place of a list.
#[inline(always)]
pub(crate) fn write_into(list: &mut [u8], at: usize, bytes: &[u8])
    requires { at + length bytes.now ≤ length list.old }
    ensures { list.new ≡ with_bytes list.old at bytes.now }
{
    let end = at + bytes.len();
    list[at..end].copy_from_slice(bytes);
}

/// Puts `N` bytes at a place of a list.
#[inline(always)]
pub(crate) fn put_into<const N: usize>(list: &mut [u8], at: usize, bytes: [u8; N])
    requires { at + N ≤ length list.old }
    ensures { list.new ≡ with_bytes list.old at bytes.entry }
{
    let end = at + N;
    put_over(&mut list[at..end], bytes);
}

/// Puts `N` bytes in the place of as many.
#[inline(always)]
fn put_over<const N: usize>(list: &mut [u8], bytes: [u8; N])
    requires { length list.old ≡ N }
    ensures { list.new ≡ bytes.entry }
{
    if let Some(chunk) = list.first_chunk_mut::<N>() {
        *chunk = bytes;
    }
}
