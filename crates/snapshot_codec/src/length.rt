//! How many bytes a snapshot takes, by its lengths alone.
ghost use Rattle.std.specs.Prelude.{◌≡◌, Some, Ok, option_map};
ghost use Rattle.snapshot_codec.specs.declared.snapshot.Prefix.{Prefix as PrefixValue};
ghost use Rattle.snapshot_codec.specs.SnapshotReading.{prefix_of};
ghost use Rattle.snapshot_codec.specs.Length.{behind as behind_of, count_in_front as count_in_front_of, behind_many as behind_many_of, behind_items as behind_items_of, head_len as head_len_of, behind_snapshot as behind_snapshot_of, told_length};

use crate::head::{is_version_one, is_version_two};
use crate::marks::NAME_LEN;
use account_store::KeyedAccount;
use spec_base::place;
use status_cache::Mark;

/// The bytes of a snapshot before its marks, in version 1.
const HEAD_LEN: usize = 16;

/// The bytes of a snapshot before its marks, in version 2, which has limits there.
const LIMITED_HEAD_LEN: usize = 35;

/// The bytes of a mark before the number of its messages: its hash.
const MARK_HEAD_LEN: usize = 32;

/// The bytes of an account before the number of its data's bytes: its key, lamports, owner, and
/// whether it is executable.
const ACCOUNT_HEAD_LEN: usize = 73;

/// What is behind so many bytes.
#[tactic(auto, unfolding(crate::specs::Length::behind))]
pub(crate) fn behind(count: usize, bytes: &[u8]) -> Option<&[u8]>
    ensures { option_map (λ rest. rest.now) result ≡ behind_of count bytes.now }
{
    match bytes.split_at_checked(count) {
        Some((_, rest)) => Some(rest),
        None => None,
    }
}

/// The number in the first four bytes, and the bytes after them.
#[tactic(auto, unfolding(crate::specs::Length::count_in_front))]
pub(crate) fn count_in_front(bytes: &[u8]) -> Option<(u32, &[u8])>
    ensures { option_map (λ x. (x.0, x.1.now)) result ≡ count_in_front_of bytes.now }
{
    match bytes.split_first_chunk::<4>() {
        Some((number, rest)) => Some((u32::from_le_bytes(*number), rest)),
        None => None,
    }
}

/// What a snapshot repeats, passed by its lengths.
trait Passed {
    ghost use Rattle.std.specs.Prelude.{◌≡◌, ℕ, List, Option, option_map};

    /// What is behind one of them.
    ghost behind_one: { List ℕ → Option (List ℕ) };

    fn pass(bytes: &[u8]) -> Option<&[u8]>
        ensures { option_map (λ rest. rest.now) result ≡ behind_one bytes.now };
}

impl Passed for Mark {
    ghost use Rattle.snapshot_codec.specs.Length.{behind_mark};

    ghost behind_one = { behind_mark };

    #[tactic(auto, unfolding(crate::specs::Length::behind_mark))]
    fn pass(bytes: &[u8]) -> Option<&[u8]> {
        let (names, rest) = count_in_front(behind(MARK_HEAD_LEN, bytes)?)?;
        behind(names as usize * NAME_LEN, rest)
    }
}

impl Passed for KeyedAccount {
    ghost use Rattle.snapshot_codec.specs.Length.{behind_account};

    ghost behind_one = { behind_account };

    #[tactic(auto, unfolding(crate::specs::Length::behind_account))]
    fn pass(bytes: &[u8]) -> Option<&[u8]> {
        let (len, rest) = count_in_front(behind(ACCOUNT_HEAD_LEN, bytes)?)?;
        behind(len as usize, rest)
    }
}

/// What is behind so many items.
fn behind_many<T: Passed>(count: u32, bytes: &[u8]) -> Option<&[u8]>
    ensures { option_map (λ rest. rest.now) result
        ≡ behind_many_of T.behind_one count bytes.now }
{
    let mut rest = bytes;
    for _ in 0..count {
        rest = T::pass(rest)?;
    }
    Some(rest)
}

/// What is behind items, whose number is before them.
#[tactic(auto, unfolding(crate::specs::Length::behind_items))]
fn behind_items<T: Passed>(bytes: &[u8]) -> Option<&[u8]>
    ensures { option_map (λ rest. rest.now) result ≡ behind_items_of T.behind_one bytes.now }
{
    let (count, rest) = count_in_front(bytes)?;
    behind_many::<T>(count, rest)
}

/// The bytes before the marks, as the version has them that the first eight bytes name.
#[tactic(auto, unfolding(crate::specs::Length::head_len))]
fn head_len(bytes: &[u8]) -> Option<usize>
    ensures { result ≡ head_len_of bytes.now }
{
    match bytes.split_first_chunk::<8>() {
        Some((magic, _)) if is_version_one(magic) => Some(HEAD_LEN),
        Some((magic, _)) if is_version_two(magic) => Some(LIMITED_HEAD_LEN),
        _ => None,
    }
}

/// What is behind the snapshot.
#[tactic(auto, unfolding(crate::specs::Length::behind_snapshot))]
fn behind_snapshot(bytes: &[u8]) -> Option<&[u8]>
    ensures { option_map (λ rest. rest.now) result ≡ behind_snapshot_of bytes.now }
{
    let marks = behind(head_len(bytes)?, bytes)?;
    let accounts = behind_items::<Mark>(marks)?;
    behind_items::<KeyedAccount>(accounts)
}

#[tactic(auto, unfolding(crate::specs::Length::told_length))]
fn length_told(bytes: &[u8]) -> Option<usize>
    ensures { result ≡ told_length bytes.now }
{
    let rest = behind_snapshot(bytes)?;
    Some(place(bytes.len(), rest))
}

/// The number of bytes that a snapshot at the front of the bytes takes, as far as they tell. It is
/// passed by its lengths alone, and nothing else of it is looked at.
///
/// None where the bytes name no version, or end before the snapshot does.
pub fn snapshot_length(bytes: &[u8]) -> Option<usize>
    ensures exact { result ≡ told_length bytes.now }
    // Where a snapshot is read, it has this length.
    ensures reader { (prefix : PrefixValue) → prefix_of bytes.now ≡ Ok prefix →
        result ≡ Some prefix.length }
{
    length_told(bytes)
}
