//! The order of a message's own keys, and its header.
ghost use Rattle.std.specs.Prelude.{◌≡◌, ◌≤◌, ◌++◌, IfOk, OnOk, length, count_by};
ghost use Rattle.tx_build.specs.declared.message.TheConstants.{MAX_OWN_KEYS};
ghost use Rattle.tx_build.specs.Classes.{is_writable_signer, is_readonly_signer, is_writable_other, is_readonly_other, keys_where, ordered_keys, header_of};

use crate::mentions::Mention;
use message_codec::Header;
use sol_base::{Items, Key, OutOfMemory};
use std::alloc::Global;

fn is_readonly_signer(mention: &Mention) -> bool
    ensures { result ≡ is_readonly_signer mention.now }
{
    mention.signer && !mention.writable
}

fn is_readonly_other(mention: &Mention) -> bool
    ensures { result ≡ is_readonly_other mention.now }
{
    !mention.signer && !mention.writable
}

/// Adds the keys that sign and are written.
fn add_writable_signers(keys: &mut Items<Key>, mentions: &[Mention]) -> Result<(), OutOfMemory>
    ensures { OnOk result (keys.new ≡ keys.old ++ keys_where is_writable_signer mentions.now) }
{
    for mention in mentions {
        if mention.signer && mention.writable {
            keys.push(mention.key)?;
        }
    }
    Ok(())
}

/// Adds the keys that only sign.
fn add_readonly_signers(keys: &mut Items<Key>, mentions: &[Mention]) -> Result<(), OutOfMemory>
    ensures { OnOk result (keys.new ≡ keys.old ++ keys_where is_readonly_signer mentions.now) }
{
    for mention in mentions {
        if mention.signer && !mention.writable {
            keys.push(mention.key)?;
        }
    }
    Ok(())
}

/// Adds the keys that are written and do not sign.
fn add_writable_others(keys: &mut Items<Key>, mentions: &[Mention]) -> Result<(), OutOfMemory>
    ensures { OnOk result (keys.new ≡ keys.old ++ keys_where is_writable_other mentions.now) }
{
    for mention in mentions {
        if !mention.signer && mention.writable {
            keys.push(mention.key)?;
        }
    }
    Ok(())
}

/// Adds the keys that neither sign nor are written.
fn add_readonly_others(keys: &mut Items<Key>, mentions: &[Mention]) -> Result<(), OutOfMemory>
    ensures { OnOk result (keys.new ≡ keys.old ++ keys_where is_readonly_other mentions.now) }
{
    for mention in mentions {
        if !mention.signer && !mention.writable {
            keys.push(mention.key)?;
        }
    }
    Ok(())
}

/// The keys of the four classes, one class after the other.
pub(crate) fn ordered_keys(alloc: Global, mentions: &[Mention]) -> Result<Items<Key>, OutOfMemory>
    ensures { IfOk result (λ keys. keys ≡ ordered_keys mentions.now) }
{
    let mut keys = Items::new(alloc);
    add_writable_signers(&mut keys, mentions)?;
    add_readonly_signers(&mut keys, mentions)?;
    add_writable_others(&mut keys, mentions)?;
    add_readonly_others(&mut keys, mentions)?;
    Ok(keys)
}

fn signer_count(mentions: &[Mention]) -> u8
    requires { length mentions.now ≤ MAX_OWN_KEYS }
    ensures { result ≡ count_by (λ mention. mention.signer) mentions.now }
{
    mentions.iter().filter(|mention| mention.signer).count() as u8
}

fn readonly_signer_count(mentions: &[Mention]) -> u8
    requires { length mentions.now ≤ MAX_OWN_KEYS }
    ensures { result ≡ count_by is_readonly_signer mentions.now }
{
    mentions
        .iter()
        .filter(|mention| is_readonly_signer(mention))
        .count() as u8
}

fn readonly_other_count(mentions: &[Mention]) -> u8
    requires { length mentions.now ≤ MAX_OWN_KEYS }
    ensures { result ≡ count_by is_readonly_other mentions.now }
{
    mentions
        .iter()
        .filter(|mention| is_readonly_other(mention))
        .count() as u8
}

/// How many keys sign, and how many of either kind are only read.
pub(crate) fn header_of(mentions: &[Mention]) -> Header
    requires { length mentions.now ≤ MAX_OWN_KEYS }
    ensures { result ≡ header_of mentions.now }
{
    Header {
        required: signer_count(mentions),
        readonly_signed: readonly_signer_count(mentions),
        readonly_unsigned: readonly_other_count(mentions),
    }
}
