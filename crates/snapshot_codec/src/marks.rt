//! The newest blocks of a chain, as a snapshot has them.
ghost use Rattle.std.specs.Prelude.{◌≡◌, [], IfOk};
ghost use Rattle.spec_base.specs.Reading.{Gives, many_after};
ghost use Rattle.status_cache.specs.Recent.{IsRecent};
ghost use Rattle.snapshot_codec.specs.SnapshotReading.{is_snapshot_memory, name_after, marks_at};

use crate::fault::SnapshotFault;
use crate::head::count_field;
use format_fields::{Item, hash_field, read_many};
use sol_base::{Hash32, Items, MAX_TRANSACTIONS, OutOfMemory};
use spec_base::place;
use status_cache::{MAX_MARKS, Mark, Recent};
use std::alloc::Global;

/// The bytes of a mark without messages.
const MARK_LEN: usize = 36;

/// The bytes of the name of a message.
pub(crate) const NAME_LEN: usize = 32;

/// The name that is after those before it.
#[tactic(auto, unfolding(crate::specs::SnapshotReading::name_after, spec_base::specs::Reading::read_if))]
fn read_name<'a>(
    total: usize,
    before: &[Hash32],
    bytes: &'a [u8],
) -> Result<(Hash32, &'a [u8]), SnapshotFault>
    ensures { Gives is_snapshot_memory (λ x. (x.0, x.1.now)) result
        (name_after total before.now bytes.now) }
{
    let (name, rest) = hash_field::<SnapshotFault>(total, bytes)?;
    if let Some(last) = before.last()
        && !last.cmp(&name).is_lt()
    {
        return Err(SnapshotFault::OutOfOrder {
            at: place(total, bytes),
        });
    }
    Ok((name, rest))
}

/// So many names, and the bytes after them.
fn read_names(
    alloc: Global,
    total: usize,
    count: u32,
    bytes: &[u8],
) -> Result<(Items<Hash32>, &[u8]), SnapshotFault>
    ensures { Gives is_snapshot_memory (λ x. (x.0, x.1.now)) result
        (many_after (name_after total) [] count bytes.now) }
{
    let mut names = Items::with_capacity(alloc, (count as usize).min(bytes.len() / NAME_LEN))?;
    let mut rest = bytes;
    for _ in 0..count {
        let (name, after) = read_name(total, names.as_slice(), rest)?;
        names.push(name)?;
        rest = after;
    }
    Ok((names, rest))
}

impl Item<SnapshotFault> for Mark {
    ghost use Rattle.snapshot_codec.specs.SnapshotReading.{mark_at};

    ghost item_at = { mark_at };

    const LEAST_LEN: usize = MARK_LEN;

    #[tactic(auto, unfolding(crate::specs::SnapshotReading::mark_at))]
    fn read(alloc: Global, total: usize, bytes: &[u8]) -> Result<(Mark, &[u8]), SnapshotFault> {
        let (hash, rest) = hash_field::<SnapshotFault>(total, bytes)?;
        let (count, rest) = count_field(MAX_TRANSACTIONS as u32, total, rest)?;
        let (messages, rest) = read_names(alloc, total, count, rest)?;
        Ok((Mark { hash, messages }, rest))
    }
}

/// The number of marks, and the marks.
#[tactic(auto, unfolding(crate::specs::SnapshotReading::marks_at))]
fn read_marks(
    alloc: Global,
    total: usize,
    bytes: &[u8],
) -> Result<(Items<Mark>, &[u8]), SnapshotFault>
    ensures { Gives is_snapshot_memory (λ x. (x.0, x.1.now)) result (marks_at total bytes.now) }
{
    let (count, rest) = count_field(MAX_MARKS as u32, total, bytes)?;
    read_many::<SnapshotFault, Mark>(alloc, total, count as usize, rest)
}

/// The marks, newest first, as a chain keeps them.
fn recent_of(alloc: Global, mut marks: Items<Mark>) -> Result<Recent, OutOfMemory>
    requires { IsRecent marks }
    ensures { IfOk result (λ recent. recent ≡ marks) }
{
    let mut recent = Recent::new(alloc);
    while let Some(mark) = marks.pop() {
        recent.advance(mark)?;
    }
    Ok(recent)
}

/// The newest blocks at the front of the bytes, and the bytes after them.
pub(crate) fn read_recent(
    alloc: Global,
    total: usize,
    bytes: &[u8],
) -> Result<(Recent, &[u8]), SnapshotFault>
    ensures { Gives is_snapshot_memory (λ x. (x.0, x.1.now)) result (marks_at total bytes.now) }
{
    let (marks, rest) = read_marks(alloc, total, bytes)?;
    Ok((recent_of(alloc, marks)?, rest))
}
