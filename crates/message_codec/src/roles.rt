//! What the keys of a message may do.
ghost use Rattle.std.specs.Prelude.{◌≡◌, ◌↔◌, ◌+◌, ◌^◌, ◌++◌, ℕ, false, length, map, IsTrue, Contains, IfOk, OnOk, slice_get, ◌||◌, ◌<◌};
ghost use Rattle.std.specs.List.{slice_index_or, enumerate_from};
ghost use Rattle.std.specs.Option.{option_copied};
ghost use Rattle.message_codec.specs.Roles.{is_reserved, reserved_keys, all_keys, is_signer_at, is_program, is_writable_static, has_writable_place, may_write, is_writable_at, lock_of, locks_of};

use crate::message::{Header, Instruction, Loaded, Message};
use sol_base::{
    CLOCK_SYSVAR, COMPUTE_BUDGET_PROGRAM, Items, Key, Lock, LockList, OutOfMemory, RENT_SYSVAR,
    SYSTEM_PROGRAM,
};
use std::alloc::Global;

/// Whether no transaction may write this key's account: the system program, the compute budget
/// program and the two sysvars (the project's own table).
pub fn reserved(key: &Key) -> bool
    ensures exact { result ≡ is_reserved key.now }
    ensures listed { IsTrue result ↔ Contains reserved_keys key.now }
{
    *key == SYSTEM_PROGRAM
        || *key == COMPUTE_BUDGET_PROGRAM
        || *key == CLOCK_SYSVAR
        || *key == RENT_SYSVAR
}

/// Whether the key at this place signs the message (Solana).
pub fn is_signer(message: &Message, index: u8) -> bool
    ensures { result ≡ is_signer_at message.now index }
{
    index < message.header.required
}

/// Whether the message may write the account of the key at this place, among the static keys and
/// then the loaded ones (Solana; that programs and reserved keys are never writable in this width
/// is the project's own).
pub fn is_writable(message: &Message, loaded: &Loaded, index: u8) -> bool
    ensures { result ≡ is_writable_at message.now loaded.now index }
{
    let place = usize::from(index);
    match key_at(message, loaded, place) {
        None => false,
        Some(key) => {
            let program = is_program(message.instructions.as_slice(), index);
            may_write(message, loaded, place, key, program)
        }
    }
}

/// The rule of writability: whether the place of a key allows it, and the key is neither a program
/// nor reserved.
fn may_write(message: &Message, loaded: &Loaded, place: usize, key: &Key, program: bool) -> bool
    requires { program ≡ is_program message.now.instructions place }
    ensures { result ≡ may_write message.now loaded.now place key.now }
{
    has_writable_place(message, loaded, place) && !program && !reserved(key)
}

/// The key at a place among all keys.
fn key_at<'a>(message: &'a Message, loaded: &'a Loaded, place: usize) -> Option<&'a Key>
    ensures { option_copied result ≡ slice_get (all_keys message.now loaded.now) place }
{
    let keys = message.keys.as_slice();
    let writable = loaded.writable.as_slice();
    let readonly = loaded.readonly.as_slice();
    if place < keys.len() {
        return keys.get(place);
    }
    let place = place - keys.len();
    if place < writable.len() {
        return writable.get(place);
    }
    readonly.get(place - writable.len())
}

fn has_writable_place(message: &Message, loaded: &Loaded, place: usize) -> bool
    ensures { result ≡ has_writable_place message.now loaded.now place }
{
    let key_count = message.keys.len();
    if place < key_count {
        is_writable_static(message.header, key_count, place)
    } else {
        place - key_count < loaded.writable.len()
    }
}

fn is_writable_static(header: Header, key_count: usize, place: usize) -> bool
    requires { place < key_count }
    ensures { result ≡ is_writable_static header key_count place }
{
    let required = usize::from(header.required);
    let readonly_signed = usize::from(header.readonly_signed);
    let readonly_unsigned = usize::from(header.readonly_unsigned);
    place < required.saturating_sub(readonly_signed)
        || required <= place && place < key_count.saturating_sub(readonly_unsigned)
}

fn is_program(instructions: &[Instruction], index: u8) -> bool
    ensures { result ≡ is_program instructions.now index }
{
    instructions
        .iter()
        .any(|instruction| instruction.program == index)
}

/// All keys of the message: the static keys, the loaded keys to write and the loaded keys to read.
pub fn keys_of(alloc: Global, message: &Message, loaded: &Loaded) -> Result<Items<Key>, OutOfMemory>
    ensures { IfOk result (λ keys. keys ≡ all_keys message.now loaded.now) }
{
    let mut keys = Vec::with_capacity(alloc, all_count(message, loaded))?;
    keys.extend_from_slice(message.keys.as_slice())?;
    keys.extend_from_slice(loaded.writable.as_slice())?;
    keys.extend_from_slice(loaded.readonly.as_slice())?;
    Ok(Items::from_vec(keys))
}

/// How much room all keys take.
fn all_count(message: &Message, loaded: &Loaded) -> usize {
    message
        .keys
        .len()
        .saturating_add(loaded.writable.len())
        .saturating_add(loaded.readonly.len())
}

/// How many places a byte can name.
const BYTE_PLACES: usize = 256;

/// The locks of the message: each key in order, with write where it is writable. The program keys
/// are marked once.
pub fn locks(alloc: Global, message: &Message, loaded: &Loaded) -> Result<LockList, OutOfMemory>
    ensures { IfOk result (λ locks. locks ≡ locks_of message.now loaded.now) }
{
    let programs = program_marks(message.instructions.as_slice());
    let keys = message.keys.as_slice();
    let writable = loaded.writable.as_slice();
    let readonly = loaded.readonly.as_slice();
    let first_loaded = keys.len();
    let first_readonly = first_loaded + writable.len();
    let mut locks = Items::with_capacity(alloc, first_readonly + readonly.len())?;
    push_locks(&mut locks, message, loaded, &programs, keys, 0)?;
    push_locks(
        &mut locks,
        message,
        loaded,
        &programs,
        writable,
        first_loaded,
    )?;
    push_locks(
        &mut locks,
        message,
        loaded,
        &programs,
        readonly,
        first_readonly,
    )?;
    Ok(locks)
}

/// Adds the locks of keys that stand one after the other, the first at place `first`.
fn push_locks(
    locks: &mut LockList,
    message: &Message,
    loaded: &Loaded,
    programs: &[bool; BYTE_PLACES],
    keys: &[Key],
    first: usize,
) -> Result<(), OutOfMemory>
    requires room { first + length keys.now < 2 ^ 64 }
    requires marked { (i : ℕ) → slice_index_or programs.now i false
        ≡ is_program message.now.instructions i }
    ensures { OnOk result (locks.new
        ≡ locks.old ++ map (lock_of message.now loaded.now) (enumerate_from first keys.now)) }
{
    for (offset, key) in keys.iter().enumerate() {
        locks.push(lock_of(message, loaded, programs, first + offset, key))?;
    }
    Ok(())
}

fn lock_of(
    message: &Message,
    loaded: &Loaded,
    programs: &[bool; BYTE_PLACES],
    place: usize,
    key: &Key,
) -> Lock
    requires { (i : ℕ) → slice_index_or programs.now i false
        ≡ is_program message.now.instructions i }
    ensures { result ≡ lock_of message.now loaded.now (place, key.now) }
{
    Lock {
        key: *key,
        write: may_write(message, loaded, place, key, is_marked(programs, place)),
    }
}

/// The places that an instruction names as its program.
fn program_marks(instructions: &[Instruction]) -> [bool; BYTE_PLACES]
    ensures { (i : ℕ) → slice_index_or result i false ≡ is_program instructions.now i }
{
    let mut marks = [false; BYTE_PLACES];
    for instruction in instructions {
        marks[usize::from(instruction.program)] = true;
    }
    marks
}

fn is_marked(marks: &[bool; BYTE_PLACES], place: usize) -> bool
    ensures { result ≡ slice_index_or marks.now place false }
{
    place < BYTE_PLACES && marks[place]
}
