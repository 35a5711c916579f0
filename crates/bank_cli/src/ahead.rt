//! A batch and its transactions, read behind the snapshot or beside it.
ghost use Rattle.std.specs.Prelude.{◌≡◌, ◌≤◌, IfOk, IfSome, drop, length, max, min};
ghost use Rattle.spec_base.specs.Reading.{Gives};
ghost use Rattle.sol_base.specs.Limits.{max_senders};
ghost use Rattle.snapshot_codec.specs.Snapshot.{BeginsWith};
ghost use Rattle.snapshot_codec.specs.SnapshotReading.{is_snapshot_memory, prefix_of};
ghost use Rattle.bank_cli.specs.Ahead.{Decodes, IsReadIn};

use block_end::MANY_TRANSACTIONS;
use block_run::Decoded;
use intake::{SendGate, gather};
use message_codec::MAX_WIRE_LEN;
use side_by_side::call_both;
use snapshot_codec::{
    BATCH_HEAD_LEN, BATCH_MAGIC, BatchFault, Prefix, SnapshotFault, WIRE_LENGTH_LEN, batch_count,
    read_batch, read_snapshot, snapshot_length,
};
use sol_base::Blob;
use std::alloc::Global;
use std::sync::Wait;
use std::thread::Threads;

/// The bytes that a batch of few transactions takes at most.
const FEW_ROOM: usize = BATCH_HEAD_LEN + MANY_TRANSACTIONS * (WIRE_LENGTH_LEN + MAX_WIRE_LEN);

/// So many senders, and the gate that each passes before it parses.
#[derive(Drop)]
pub(crate) struct Senders<'a, H> {
    pub(crate) count: u32,
    pub(crate) gate: &'a H,
    ghost some: { 1 ≤ count },
    ghost most: { count ≤ max_senders },
}

/// A batch that was read where one seemed to begin, for a block after the slot that seemed to be
/// the snapshot's.
#[derive(Drop)]
pub(crate) struct Ahead {
    pub(crate) place: usize,
    pub(crate) slot: u64,
    pub(crate) read: Result<Decoded, BatchFault>,
}

/// The batch behind a snapshot. One that was read there before, for a block after its slot, is taken.
pub(crate) fn read_behind<H: SendGate, R: Threads + Wait + Sync>(
    rt: &R,
    alloc: Global,
    bytes: &[u8],
    prefix: &Prefix,
    ahead: Option<Ahead>,
    senders: &Senders<'_, H>,
) -> Result<Decoded, BatchFault>
    requires within { prefix.now.length ≤ length bytes.now }
    requires ahead { IfSome ahead (IsReadIn bytes.now) }
    ensures { Decodes prefix.now.snapshot.slot (drop prefix.now.length bytes.now) result }
{
    let (place, slot) = (prefix.length, prefix.snapshot.slot);
    match ahead {
        Some(ahead) if ahead.place == place && ahead.slot == slot => ahead.read,
        _ => read_decoded(rt, alloc, &bytes[place..], slot, senders),
    }
}

/// The batch that the bytes are. Senders decode its transactions, each once.
fn read_decoded<H: SendGate, R: Threads + Wait + Sync>(
    rt: &R,
    alloc: Global,
    bytes: &[u8],
    before: u64,
    senders: &Senders<'_, H>,
) -> Result<Decoded, BatchFault>
    ensures { Decodes before bytes.now result }
{
    let batch = read_batch(alloc, bytes, before)?;
    let busy = busy_senders(senders.count, batch.wires.len());
    let parsed = gather(rt, alloc, &batch.wires, busy, senders.gate)?.parsed;
    Ok(Decoded {
        batch,
        parsed,
        room: Blob::new(alloc),
    })
}

/// No more senders than transactions, and one at least.
fn busy_senders(senders: u32, transactions: usize) -> u32
    requires { 1 ≤ senders }
    ensures { result ≡ min senders (max 1 transactions) }
{
    (senders as usize).min(transactions.max(1)) as u32
}

/// The snapshot that the bytes begin with; and on several lanes the batch after it, where it is seen
/// at once to have many transactions.
pub(crate) fn read_parts<H: SendGate, R: Threads + Wait + Sync>(
    rt: &R,
    alloc: Global,
    bytes: &[u8],
    lanes: u32,
    senders: &Senders<'_, H>,
) -> (Result<Prefix, SnapshotFault>, Option<Ahead>)
    ensures found { IfOk result.0 (BeginsWith bytes.now) }
    ensures exact { Gives is_snapshot_memory (λ prefix. prefix) result.0 (prefix_of bytes.now) }
    ensures ahead { IfSome result.1 (IsReadIn bytes.now) }
{
    let many = if lanes == 1 {
        None
    } else {
        place_of_many(bytes)
    };
    match many {
        Some(place) => read_beside(rt, alloc, bytes, place, senders),
        None => (read_snapshot(alloc, bytes), None),
    }
}

/// Whether the bytes begin as a batch of many transactions does, or of few; none where they begin
/// as no batch.
fn begins_many(bytes: &[u8]) -> Option<bool> {
    Some(batch_count(bytes)? as usize >= MANY_TRANSACTIONS)
}

/// What is behind the last place, near the end, where a batch seems to begin.
fn last_batch(bytes: &[u8]) -> Option<&[u8]> {
    let tail = bytes.get(bytes.len().saturating_sub(FEW_ROOM)..)?;
    let place = tail
        .windows(BATCH_MAGIC.len())
        .rposition(|front| front == BATCH_MAGIC.as_slice())?;
    tail.get(place..)
}

/// Whether the bytes seem to end with a batch of few transactions. No snapshot is walked over for
/// that.
fn ends_with_few(bytes: &[u8]) -> bool {
    match last_batch(bytes) {
        Some(batch) => begins_many(batch) == Some(false),
        None => false,
    }
}

/// Where a batch of many transactions seems to begin.
fn place_of_many(bytes: &[u8]) -> Option<usize>
    ensures { IfSome result (λ place. place ≤ length bytes.now) }
{
    if ends_with_few(bytes) {
        return None;
    }
    let place = snapshot_length(bytes)?;
    if begins_many(bytes.get(place..)?)? {
        Some(place)
    } else {
        None
    }
}

/// Reads the snapshot, and the batch beside it. The snapshot takes more memory, which costs least on
/// the caller's thread.
fn read_beside<H: SendGate, R: Threads + Wait + Sync>(
    rt: &R,
    alloc: Global,
    bytes: &[u8],
    place: usize,
    senders: &Senders<'_, H>,
) -> (Result<Prefix, SnapshotFault>, Option<Ahead>)
    requires place { place ≤ length bytes.now }
    ensures found { IfOk result.0 (BeginsWith bytes.now) }
    ensures exact { Gives is_snapshot_memory (λ prefix. prefix) result.0 (prefix_of bytes.now) }
    ensures ahead { IfSome result.1 (IsReadIn bytes.now) }
{
    let (count, gate) = (senders.count, senders.gate);
    call_both(
        rt,
        || -> Result<Prefix, SnapshotFault>
            ensures found { IfOk result (BeginsWith bytes.entry.now) }
            ensures exact { Gives is_snapshot_memory (λ prefix. prefix) result
                (prefix_of bytes.entry.now) }
        { read_snapshot(alloc, bytes) },
        || -> Option<Ahead>
            requires { (1 ≤ count) × (count ≤ max_senders) × (place ≤ length bytes.now) }
            ensures { IfSome result (IsReadIn bytes.entry.now) }
        { read_ahead(rt, alloc, bytes, place, &Senders { count, gate }) },
    )
}

/// Reads the batch where one seems to begin.
fn read_ahead<H: SendGate, R: Threads + Wait + Sync>(
    rt: &R,
    alloc: Global,
    bytes: &[u8],
    place: usize,
    senders: &Senders<'_, H>,
) -> Option<Ahead>
    requires place { place ≤ length bytes.now }
    ensures { IfSome result (IsReadIn bytes.now) }
{
    let slot = u64::from_le_bytes(*bytes.get(8..)?.first_chunk()?);
    let read = read_decoded(rt, alloc, &bytes[place..], slot, senders);
    Some(Ahead { place, slot, read })
}
