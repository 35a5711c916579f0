//! What the keys of a message may do, and transactions that are not sane.
use crate::tests::pieces::joined;
use message_codec::{
    Loaded, Message, SanitizeFault, WireFault, has_repeated_key, is_signer, is_writable, keys_of,
    locks, read_wire, reserved, sanitize,
};
use sol_base::{Blob, Items, Key, Lock, OutOfMemory};
use std::alloc::Global;

/// What each of four keys may do, and its last byte.
const ROLES: [(u8, bool, bool, u8); 4] = [
    (0, true, true, 0x01),
    (1, false, false, 0),
    (2, false, true, 0x11),
    (3, false, false, 0x22),
];

/// The data of a transfer of one lamport.
const TRANSFER: [u8; 12] = [2, 0, 0, 0, 1, 0, 0, 0, 0, 0, 0, 0];

/// A transfer as a version 0 message, with its second account and the lookup's indexes as given.
fn zero(alloc: Global, account: u8, indexes: &[u8]) -> Result<Blob, OutOfMemory> {
    joined(
        alloc,
        &[
            &[1],
            &[0; 64],
            &[128, 1, 0, 1, 2],
            &[0x01; 32],
            &[0; 32],
            &[0xaa; 32],
            &[1, 1, 2, 0, account, 12],
            &TRANSFER,
            &[1],
            &[0x70; 32],
            indexes,
        ],
    )
}

/// The list of one key.
fn only(alloc: Global, key: Key) -> Result<Items<Key>, OutOfMemory> {
    let mut keys = Items::new(alloc);
    keys.push(key)?;
    Ok(keys)
}

/// A key that is loaded to be written, and one to be read.
fn loaded(alloc: Global) -> Result<Loaded, OutOfMemory> {
    Ok(Loaded {
        writable: only(alloc, Key([0x11; 32]))?,
        readonly: only(alloc, Key([0x22; 32]))?,
    })
}

/// Whether the lock allows that, on a key with that last byte.
fn is_lock(lock: Option<&Lock>, writes: bool, byte: u8) -> bool {
    match lock {
        Some(lock) => lock.write == writes && lock.key.0[31] == byte,
        None => false,
    }
}

/// Whether the key has that last byte, and is reserved where it is 0.
fn is_key(key: Option<&Key>, byte: u8) -> bool {
    match key {
        Some(key) => key.0[31] == byte && reserved(key) == (byte == 0),
        None => false,
    }
}

/// Whether each key may do what its role says.
fn may_do(message: &Message, loaded: &Loaded) -> bool {
    for (place, signs, writes, _byte) in &ROLES {
        if is_signer(message, *place) != *signs || is_writable(message, loaded, *place) != *writes {
            return false;
        }
    }
    true
}

/// Whether the locks and the keys are those of the roles.
fn are_held(locks: &[Lock], keys: &[Key]) -> bool {
    for (place, _signs, writes, byte) in &ROLES {
        let place = usize::from(*place);
        if !is_lock(locks.get(place), *writes, *byte) || !is_key(keys.get(place), *byte) {
            return false;
        }
    }
    locks.len() == 4 && keys.len() == 4
}

/// Whether the message's locks and keys are those of the roles.
fn holds_keys(alloc: Global, message: &Message, loaded: &Loaded) -> Result<bool, OutOfMemory> {
    let locks = locks(alloc, message, loaded)?;
    let keys = keys_of(alloc, message, loaded)?;
    Ok(are_held(locks.as_slice(), keys.as_slice()))
}

/// Whether each key of the message has its role.
fn has_roles(alloc: Global, message: &Message) -> Result<bool, OutOfMemory> {
    let loaded = loaded(alloc)?;
    Ok(may_do(message, &loaded) && holds_keys(alloc, message, &loaded)?)
}

/// Whether the wire has the roles, and is sane with 64 keys and not with 2.
fn is_sane(alloc: Global, wire: &[u8]) -> Result<bool, WireFault> {
    let tx = read_wire(alloc, wire)?;
    Ok(
        sanitize(&tx, 64).is_ok()
            && sanitize(&tx, 2) == Err(SanitizeFault::TooManyKeys)
            && has_roles(alloc, &tx.message)?,
    )
}

/// Whether a wire that loads two keys is so.
fn has_loaded_keys(alloc: Global) -> Result<bool, WireFault> {
    let wire = zero(alloc, 2, &[1, 0, 1, 1])?;
    is_sane(alloc, wire.as_slice())
}

#[test]
fn keys_have_their_roles(rt: HostRuntime) {
    assert!(rt; has_loaded_keys(rt.alloc()) == Ok(true));
}

/// Whether the wire's first lookup loads no key.
fn loads_none(alloc: Global, wire: &[u8]) -> Result<bool, WireFault> {
    let tx = read_wire(alloc, wire)?;
    Ok(sanitize(&tx, 64) == Err(SanitizeFault::EmptyLookup { lookup: 0 }))
}

/// Whether a wire with an empty lookup is so.
fn has_empty_lookup(alloc: Global) -> Result<bool, WireFault> {
    let wire = zero(alloc, 1, &[0, 0])?;
    loads_none(alloc, wire.as_slice())
}

#[test]
fn an_empty_lookup_is_refused(rt: HostRuntime) {
    assert!(rt; has_empty_lookup(rt.alloc()) == Ok(true));
}

const A: Key = Key([1; 32]);

const B: Key = Key([2; 32]);

const C: Key = Key([3; 32]);

/// Lists of keys, and whether a key is given again.
const GIVEN: [(&[Key], bool); 4] = [
    (&[], false),
    (&[A, B, C], false),
    (&[A, B, A], true),
    (&[C, A, B, B], true),
];

#[test]
fn keys_that_are_given_again_are_told(rt: HostRuntime) {
    for (keys, again) in &GIVEN {
        assert!(rt; has_repeated_key(keys) == *again);
    }
}
