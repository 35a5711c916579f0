//! The top call: lanes and senders at once, and devices that fail.
use crate::tests::gates::{CountingGate, KeepingGate};
use crate::tests::inputs::{
    NO_BARRIER, REPEATED, SNAPSHOT, TWO_TRANSFERS, Transfer, front, input_of, joined,
};
use crate::tests::words::words_of;
use bank_cli::bank_main;
use bank_lanes::{Gate, OpenGate};
use bank_words::Words;
use intake::{OpenSend, SendGate};
use sol_base::{Blob, Hash32, Items, OutOfMemory, hash};
use sol_io::{MemSink, MemSource};
use std::alloc::Global;
use std::sync::Wait;
use std::test::Fail;
use std::thread::Threads;

/// The hash of the output of example "two transfers".
const TWO_OUTPUT: Hash32 = Hash32([
    0x56, 0x98, 0xaf, 0x1f, 0x12, 0x66, 0x56, 0x18, 0x45, 0xb2, 0xa6, 0x11, 0x9f, 0xc4, 0x13, 0x4e,
    0x07, 0x84, 0x25, 0xed, 0x9a, 0xd5, 0x03, 0xe7, 0x4b, 0x93, 0x7a, 0xb2, 0x6c, 0xe7, 0x01, 0x85,
]);

/// The hash of the output of example "no barrier".
const NO_BARRIER_OUTPUT: Hash32 = Hash32([
    0x83, 0x4a, 0x3c, 0x2f, 0x0d, 0x91, 0xb1, 0x73, 0xd8, 0xfd, 0x09, 0x13, 0x95, 0xdb, 0xdb, 0x3f,
    0xa9, 0x28, 0xdd, 0x8f, 0xa1, 0x2f, 0xb8, 0x84, 0xf4, 0x08, 0x95, 0x72, 0xb6, 0x06, 0x2e, 0x4b,
]);

/// The call of the source, of the output and of the notes that fails.
type Calls = (u32, u32, u32);

/// A call that no run here makes.
const NEVER: u32 = u32::MAX;

const NONE_FAILS: Calls = (NEVER, NEVER, NEVER);

/// A status, and what the sinks took.
#[derive(Drop)]
struct Told {
    status: u8,
    out: MemSink,
    notes: MemSink,
}

/// A list of one call.
fn failing(alloc: Global, call: u32) -> Result<Items<u32>, OutOfMemory> {
    let mut calls = Items::new(alloc);
    calls.push(call)?;
    Ok(calls)
}

/// A source of these bytes.
fn source_of(alloc: Global, input: &[u8], call: u32) -> Result<MemSource, OutOfMemory> {
    let bytes = Blob::from_slice(alloc, input)?;
    Ok(MemSource::new(bytes, failing(alloc, call)?))
}

fn sink_of(alloc: Global, call: u32) -> Result<MemSink, OutOfMemory> {
    Ok(MemSink::new(alloc, failing(alloc, call)?))
}

/// Both sinks, not written to yet.
fn sinks_of(alloc: Global, calls: Calls) -> Result<Told, OutOfMemory> {
    let out = sink_of(alloc, calls.1)?;
    let notes = sink_of(alloc, calls.2)?;
    Ok(Told {
        status: 0,
        out,
        notes,
    })
}

/// What the top call comes to for these arguments.
fn answer<G: Gate, H: SendGate, R: Threads + Wait + Sync>(
    rt: &R,
    alloc: Global,
    words: &Words,
    source: &mut MemSource,
    told: &mut Told,
    gate: &G,
    send: &H,
) {
    told.status = bank_main(
        rt,
        alloc,
        words,
        source,
        &mut told.out,
        &mut told.notes,
        gate,
        send,
    );
}

/// What is answered to a line of arguments and an input, where these calls fail.
fn ask<G: Gate, H: SendGate, R: Threads + Wait + Sync>(
    rt: &R,
    alloc: Global,
    line: &str,
    input: &[u8],
    calls: Calls,
    gate: &G,
    send: &H,
) -> Result<Told, Fail> {
    let words = words_of(alloc, line)?;
    let mut source = source_of(alloc, input, calls.0)?;
    let mut told = sinks_of(alloc, calls)?;
    answer(rt, alloc, &words, &mut source, &mut told, gate, send);
    Ok(told)
}

/// What is answered to the snapshot and a batch of these transfers.
fn ask_batch<G: Gate, H: SendGate, R: Threads + Wait + Sync>(
    rt: &R,
    alloc: Global,
    line: &str,
    transfers: &[Transfer],
    gate: &G,
    send: &H,
) -> Result<Told, Fail> {
    let input = input_of(alloc, transfers)?;
    ask(rt, alloc, line, input.as_slice(), NONE_FAILS, gate, send)
}

/// What is answered where nothing fails and nobody is kept.
fn ask_plainly<R: Threads + Wait + Sync>(
    rt: &R,
    alloc: Global,
    line: &str,
    input: &[u8],
) -> Result<Told, Fail> {
    ask(rt, alloc, line, input, NONE_FAILS, &OpenGate, &OpenSend)
}

/// Whether it ended well, with an output of this hash and no notes.
fn is_output(told: &Told, wanted: &Hash32) -> bool {
    told.status == 0 && told.notes.held().is_empty() && hash(told.out.held()) == *wanted
}

/// Whether the output is this one on two lanes, where position 0 is kept until another passes.
fn lanes_meet<R: Threads + Wait + Sync>(
    rt: &R,
    alloc: Global,
    transfers: &[Transfer],
    until: u32,
    wanted: &Hash32,
) -> Result<bool, Fail> {
    let gate = KeepingGate::new(until);
    let told = ask_batch(rt, alloc, "produce --lanes 2", transfers, &gate, &OpenSend)?;
    Ok(gate.was_passed() && is_output(&told, wanted))
}

#[test]
fn two_lanes_at_once(rt: HostRuntime) -> Result<(), Fail> {
    assert!(rt; lanes_meet(&rt, rt.alloc(), &TWO_TRANSFERS, 1, &TWO_OUTPUT)?);
    Ok(())
}

#[test]
fn no_barrier_between_lanes(rt: HostRuntime) -> Result<(), Fail> {
    assert!(rt; lanes_meet(&rt, rt.alloc(), &NO_BARRIER, 2, &NO_BARRIER_OUTPUT)?);
    Ok(())
}

/// Whether the output is that of one sender, where position 0 is kept until the other passes.
fn senders_meet<R: Threads + Wait + Sync>(rt: &R, alloc: Global) -> Result<bool, Fail> {
    let send = KeepingGate::new(1);
    let line = "produce --senders 2 --lanes 3";
    let told = ask_batch(rt, alloc, line, &TWO_TRANSFERS, &OpenGate, &send)?;
    Ok(send.was_passed() && is_output(&told, &TWO_OUTPUT))
}

#[test]
fn two_senders_at_once(rt: HostRuntime) -> Result<(), Fail> {
    assert!(rt; senders_meet(&rt, rt.alloc())?);
    Ok(())
}

/// Whether both transactions are parsed once.
fn are_parsed_once<R: Threads + Wait + Sync>(
    rt: &R,
    alloc: Global,
    line: &str,
) -> Result<bool, Fail> {
    let send = CountingGate::new();
    let told = ask_batch(rt, alloc, line, &TWO_TRANSFERS, &OpenGate, &send)?;
    Ok(is_output(&told, &TWO_OUTPUT) && send.count() == 2)
}

#[test]
fn each_transaction_is_parsed_once(rt: HostRuntime) -> Result<(), Fail> {
    assert!(rt; are_parsed_once(&rt, rt.alloc(), "produce --senders 2")?);
    assert!(rt; are_parsed_once(&rt, rt.alloc(), "produce --lanes 2")?);
    Ok(())
}

/// The snapshot, and the record of example "two transfers".
fn replay_input<R: Threads + Wait + Sync>(rt: &R, alloc: Global) -> Result<Blob, Fail> {
    let batch = input_of(alloc, &TWO_TRANSFERS)?;
    let told = ask_plainly(rt, alloc, "produce", batch.as_slice())?;
    let mut input = joined(alloc, &SNAPSHOT)?;
    input.append(front(told.out.held(), 984))?;
    Ok(input)
}

/// What is answered to that record.
const MATCH: &[u8] = b"match 5ac2780a2cad36511b268659031ce877124723219d91d9b99eb77546785486b8\n";

/// Whether that record is its own replay on two lanes, where position 0 is kept until position 1
/// passes.
fn replays_match<R: Threads + Wait + Sync>(rt: &R, alloc: Global) -> Result<bool, Fail> {
    let gate = KeepingGate::new(1);
    let input = replay_input(rt, alloc)?;
    let line = "replay --lanes=2";
    let told = ask(
        rt,
        alloc,
        line,
        input.as_slice(),
        NONE_FAILS,
        &gate,
        &OpenSend,
    )?;
    Ok(gate.was_passed() && told.status == 0 && told.out.held() == MATCH)
}

#[test]
fn replay_on_two_lanes(rt: HostRuntime) -> Result<(), Fail> {
    assert!(rt; replays_match(&rt, rt.alloc())?);
    Ok(())
}

/// What `produce` comes to where a call fails: the status, the length of the output, the notes.
type Failing = (Calls, u8, usize, &'static [u8]);

const READ_FAILS: &[u8] = b"read failed\n";

/// Example "two transfers", which makes two reads and one write of the output.
const OF_TWO: [Failing; 6] = [
    ((0, NEVER, NEVER), 4, 0, READ_FAILS),
    ((1, NEVER, NEVER), 4, 0, READ_FAILS),
    ((2, NEVER, NEVER), 0, 1548, b""),
    ((NEVER, 0, NEVER), 5, 0, b""),
    ((NEVER, 1, NEVER), 0, 1548, b""),
    ((0, NEVER, 0), 5, 0, b""),
];

/// A transfer that is repeated: its note would not be empty, and is one write behind the output.
const OF_REPEATED: [Failing; 3] = [
    ((NEVER, 0, NEVER), 5, 0, b""),
    ((NEVER, NEVER, 0), 5, 1029, b""),
    ((NEVER, NEVER, 1), 0, 1029, b"refused 1: RepeatedInBatch\n"),
];

/// Whether the run on this input ends so.
fn ends_so<R: Threads + Wait + Sync>(
    rt: &R,
    alloc: Global,
    input: &[u8],
    (calls, status, length, notes): Failing,
) -> Result<bool, Fail> {
    let told = ask(rt, alloc, "produce", input, calls, &OpenGate, &OpenSend)?;
    Ok(told.status == status && told.out.held().len() == length && told.notes.held() == notes)
}

/// Whether each run on a batch of these transfers ends as its row says.
fn end_so<R: Threads + Wait + Sync>(
    rt: &R,
    alloc: Global,
    transfers: &[Transfer],
    rows: &[Failing],
) -> Result<bool, Fail> {
    let input = input_of(alloc, transfers)?;
    for row in rows {
        if !ends_so(rt, alloc, input.as_slice(), *row)? {
            return Ok(false);
        }
    }
    Ok(true)
}

#[test]
fn every_failing_read_and_write(rt: HostRuntime) -> Result<(), Fail> {
    assert!(rt; end_so(&rt, rt.alloc(), &TWO_TRANSFERS, &OF_TWO)?);
    Ok(())
}

#[test]
fn every_failing_note(rt: HostRuntime) -> Result<(), Fail> {
    assert!(rt; end_so(&rt, rt.alloc(), &REPEATED, &OF_REPEATED)?);
    Ok(())
}
