//! The rights that a called program is granted.
ghost use Rattle.std.specs.Prelude.{◌≡◌, ◌<◌, ◌≤◌, length, position, IfSome};
ghost use Rattle.std.specs.List.{list_any, position_from, zip};
ghost use Rattle.spec_base.specs.Reading.{Gives};
ghost use Rattle.sol_base.specs.Keys.{same_key};
ghost use Rattle.sol_base.specs.Metas.{is_listed as is_listed_at, is_listed_signer, is_listed_writable};
ghost use Rattle.cpi_calls.specs.Limits.{max_keys, max_metas};
ghost use Rattle.cpi_calls.specs.Rights.{rights_of, metas_found, place_of, exceeds_at, exceeds_with, or_escalation, is_rights_memory, Grants};

use crate::fault::RightsFault;
use crate::request::{CallRequest, KeyMeta};
use sol_base::{Items, Key, Meta};
use std::alloc::Global;

/// What a callee is given: the place of its program among the transaction's keys, and its list of
/// accounts.
#[derive(Drop)]
pub struct Granted {
    pub program: u8,
    pub metas: Items<Meta>,
}

/// What the callee of a request is given, by the transaction's keys and the caller's list of
/// accounts. Every account of the request is looked for before any right is.
#[tactic(auto, using(crate::proofs::Grants::grants), unfolding(crate::specs::Rights::rights_of))]
pub fn grant_rights(
    alloc: Global,
    request: &CallRequest,
    keys: &[Key],
    caller: &[Meta],
) -> Result<Granted, RightsFault>
    requires keys { length keys.now ≤ max_keys }
    requires metas { length request.now.metas ≤ max_metas }
    ensures { Grants (rights_of request.now keys.now caller.now) result }
{
    let asked = request.metas.as_slice();
    let metas = find_accounts(alloc, asked, keys, caller)?;
    let Some(program) = find_account(&request.program, keys, caller) else {
        return Err(RightsFault::MissingAccount {
            i: asked.len() as u8,
        });
    };
    check_rights(asked, metas.as_slice(), request.signers.as_slice(), caller)?;
    Ok(Granted { program, metas })
}

/// The metas of the accounts that are asked for.
fn find_accounts(
    alloc: Global,
    asked: &[KeyMeta],
    keys: &[Key],
    caller: &[Meta],
) -> Result<Items<Meta>, RightsFault>
    requires keys { length keys.now ≤ max_keys }
    requires metas { length asked.now ≤ max_metas }
    ensures { Gives is_rights_memory (λ metas. metas) result
        (metas_found keys.now caller.now asked.now) }
{
    let mut metas = Items::with_capacity(alloc, asked.len())?;
    for (i, meta) in asked.iter().enumerate() {
        match find_account(&meta.key, keys, caller) {
            None => return Err(RightsFault::MissingAccount { i: i as u8 }),
            Some(index) => metas.push(Meta {
                index,
                signer: meta.signer,
                writable: meta.writable,
            })?,
        }
    }
    Ok(metas)
}

/// The place of a key, if the caller lists it.
fn find_account(key: &Key, keys: &[Key], caller: &[Meta]) -> Option<u8>
    requires { length keys.now ≤ max_keys }
    ensures { result ≡ place_of keys.now caller.now key.now }
{
    match find_key(key, keys) {
        None => None,
        Some(place) => {
            let index = place as u8;
            if is_listed(index, caller) {
                Some(index)
            } else {
                None
            }
        }
    }
}

/// The place of a key.
fn find_key(key: &Key, keys: &[Key]) -> Option<usize>
    ensures place { result ≡ position (λ other. same_key other key.now) keys.now }
    ensures within { IfSome result (λ place. place < length keys.now) }
{
    keys.iter().position(|other| *other == *key)
}

fn is_listed(index: u8, caller: &[Meta]) -> bool
    ensures { result ≡ is_listed_at caller.now index }
{
    caller.iter().any(|meta| meta.index == index)
}

fn is_writable(index: u8, caller: &[Meta]) -> bool
    ensures { result ≡ is_listed_writable caller.now index }
{
    caller
        .iter()
        .any(|meta| meta.index == index && meta.writable)
}

fn is_signer(index: u8, caller: &[Meta]) -> bool
    ensures { result ≡ is_listed_signer caller.now index }
{
    caller.iter().any(|meta| meta.index == index && meta.signer)
}

fn is_given(key: &Key, signers: &[Key]) -> bool
    ensures { result ≡ list_any (λ signer. same_key signer key.now) signers.now }
{
    signers.iter().any(|signer| *signer == *key)
}

/// Whether no meta has rights that neither the caller nor a signer has.
fn check_rights(
    asked: &[KeyMeta],
    metas: &[Meta],
    signers: &[Key],
    caller: &[Meta],
) -> Result<(), RightsFault>
    requires metas { length metas.now ≡ length asked.now }
    requires most { length asked.now ≤ max_metas }
    ensures { result ≡ or_escalation
        (position_from (exceeds_with signers.now caller.now) 0 (zip asked.now metas.now)) }
{
    for i in 0..asked.len() {
        let too_much = exceeds(&asked[i], metas[i].index, signers, caller);
        if too_much {
            return Err(RightsFault::PrivilegeEscalation { i: i as u8 });
        }
    }
    Ok(())
}

/// Whether a right is asked for that the caller cannot give.
fn exceeds(asked: &KeyMeta, index: u8, signers: &[Key], caller: &[Meta]) -> bool
    ensures { result ≡ exceeds_at signers.now caller.now asked.now index }
{
    let may_sign = is_given(&asked.key, signers) || is_signer(index, caller);
    let may_write = is_writable(index, caller);
    if asked.signer && !may_sign {
        return true;
    }
    asked.writable && !may_write
}
