//! When a transaction is sane.
ghost use Rattle.std.specs.Prelude.{◌≡◌, ◌+◌, ◌≤◌, nat_le, IsOk, ◌↔◌};
ghost use Rattle.std.specs.List.{list_any};
ghost use Rattle.message_codec.specs.Wire.{HasShortLists, IsCountable};
ghost use Rattle.message_codec.specs.Roles.{sanitized, IsSane, key_count, has_bad_program, has_bad_account, has_repeated_key, has_reserved_payer, empty_lookup, loads_none, lookups_sanitized};

use crate::fault::SanitizeFault;
use crate::message::{Header, Instruction, Lookup, Message, Tx};
use crate::roles::reserved;
use sol_base::Key;

/// Whether the transaction is sane: the first refusal that holds, in the order of the variants. At
/// most `most` keys are allowed, static and loaded ones together.
///
/// Repeated keys are found by comparing each pair of static keys, of which a wire has at most 35.
pub fn sanitize(tx: &Tx, most: u16) -> Result<(), SanitizeFault>
    requires { HasShortLists tx.now.message }
    ensures exact { result ≡ sanitized tx.now most }
    ensures sane { IsOk result ↔ IsSane tx.now most }
{
    first_fault(tx, most)
}

fn first_fault(tx: &Tx, most: u16) -> Result<(), SanitizeFault>
    requires { HasShortLists tx.now.message }
    ensures { result ≡ sanitized tx.now most }
{
    let Header {
        required,
        readonly_signed,
        readonly_unsigned,
    } = tx.message.header;
    let keys = tx.message.keys.as_slice();
    let instructions = tx.message.instructions.as_slice();
    let count = key_count(&tx.message);
    if tx.signatures.len() != usize::from(required) {
        return Err(SanitizeFault::SignatureCount);
    }
    if usize::from(required) + usize::from(readonly_unsigned) > keys.len() {
        return Err(SanitizeFault::HeaderRange);
    }
    if readonly_signed >= required {
        return Err(SanitizeFault::NoWritablePayer);
    }
    if has_bad_program(instructions, keys.len()) {
        return Err(SanitizeFault::ProgramIndex);
    }
    if has_bad_account(instructions, count) {
        return Err(SanitizeFault::AccountIndex);
    }
    if count > usize::from(most) {
        return Err(SanitizeFault::TooManyKeys);
    }
    if has_repeated_key(keys) {
        return Err(SanitizeFault::RepeatedKey);
    }
    if has_reserved_payer(keys) {
        return Err(SanitizeFault::PayerReserved);
    }
    check_lookups(tx.message.lookups.as_slice())
}

fn check_lookups(lookups: &[Lookup]) -> Result<(), SanitizeFault>
    requires { IsCountable lookups.now }
    ensures { result ≡ lookups_sanitized (empty_lookup lookups.now) }
{
    match empty_lookup(lookups) {
        None => Ok(()),
        Some(lookup) => Err(SanitizeFault::EmptyLookup {
            lookup: lookup as u16,
        }),
    }
}

/// How many keys the message has, those that its lookups load among them.
fn key_count(message: &Message) -> usize
    requires { HasShortLists message.now }
    ensures { result ≡ key_count message.now }
{
    let mut count = message.keys.len();
    for lookup in message.lookups.as_slice() {
        count += lookup.writable.len() + lookup.readonly.len();
    }
    count
}

fn has_bad_program(instructions: &[Instruction], key_count: usize) -> bool
    ensures { result ≡ has_bad_program instructions.now key_count }
{
    instructions.iter().any(|instruction| instruction.program == 0
        || usize::from(instruction.program) >= key_count)
}

fn has_bad_account(instructions: &[Instruction], key_count: usize) -> bool
    ensures { result ≡ has_bad_account instructions.now key_count }
{
    instructions.iter().any(|instruction| has_index_from(
        instruction.accounts.as_slice(),
        key_count,
    ))
}

fn has_index_from(indexes: &[u8], key_count: usize) -> bool
    ensures { result ≡ list_any (λ index. nat_le key_count index) indexes.now }
{
    indexes.iter().any(|index| usize::from(*index) >= key_count)
}

/// Whether a key is given again. Each pair is compared: a message has at most 128 keys.
pub fn has_repeated_key(keys: &[Key]) -> bool
    ensures { result ≡ has_repeated_key keys.now }
{
    let mut others = keys;
    while let [key, after @ ..] = others {
        if after.contains(key) {
            return true;
        }
        others = after;
    }
    false
}

fn has_reserved_payer(keys: &[Key]) -> bool
    ensures { result ≡ has_reserved_payer keys.now }
{
    match keys {
        [] => false,
        [payer, ..] => reserved(payer),
    }
}

fn empty_lookup(lookups: &[Lookup]) -> Option<usize>
    ensures { result ≡ empty_lookup lookups.now }
{
    lookups.iter().position(loads_none)
}

fn loads_none(lookup: &Lookup) -> bool
    ensures { result ≡ loads_none lookup.now }
{
    lookup.writable.is_empty() && lookup.readonly.is_empty()
}
