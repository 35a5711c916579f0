//! The keys that a draft mentions, each once, with their rights.
ghost use Rattle.std.specs.Prelude.{◌≡◌, ◌++◌, if◌then◌else◌, IfOk, OnOk, None, Some, option_to_list};
ghost use Rattle.std.specs.BTreeMap.{get};
ghost use Rattle.sol_base.specs.declared.key.Key.{Key as KeyValue};
ghost use Rattle.sol_base.specs.Keys.{key_cmp, same_key};
ghost use Rattle.tx_build.specs.Mentions.{account_mention, is_of, joined, mentioned, instruction_mentions, mentions_of, listed};

use crate::draft::{AccountMeta, Draft, KeyedInstruction};
use sol_base::{Items, Key, OutOfMemory};
use std::alloc::Global;
use std::collections::BTreeMap;

/// A key that a draft mentions, and what is asked of it there.
#[derive(Clone, Copy)]
pub(crate) struct Mention {
    pub(crate) key: Key,
    pub(crate) signer: bool,
    pub(crate) writable: bool,
    /// Whether it is an instruction's program.
    pub(crate) program: bool,
}

fn account_mention(account: &AccountMeta) -> Mention
    ensures { result ≡ account_mention account.now }
{
    Mention {
        key: account.key,
        signer: account.signer,
        writable: account.writable,
        program: false,
    }
}

/// Adds the program of the instruction, and then its accounts.
fn add_mentions(
    mentions: &mut Items<Mention>,
    instruction: &KeyedInstruction,
) -> Result<(), OutOfMemory>
    ensures { OnOk result (mentions.new ≡ mentions.old ++ instruction_mentions instruction.now) }
{
    mentions.push(Mention {
        key: instruction.program,
        signer: false,
        writable: false,
        program: true,
    })?;
    for account in instruction.accounts.as_slice() {
        mentions.push(account_mention(account))?;
    }
    Ok(())
}

/// All that the draft mentions: the fee payer, and then what its instructions do.
fn mentions_of(alloc: Global, draft: &Draft) -> Result<Items<Mention>, OutOfMemory>
    ensures { IfOk result (λ mentions. mentions ≡ mentions_of draft.now) }
{
    let mut mentions = Items::new(alloc);
    mentions.push(Mention {
        key: draft.payer,
        signer: true,
        writable: true,
        program: false,
    })?;
    for instruction in draft.instructions.as_slice() {
        add_mentions(&mut mentions, instruction)?;
    }
    Ok(mentions)
}

/// What is asked of a key, with what one more mention of it asks.
fn joined(before: Option<Mention>, mention: Mention) -> Mention
    ensures { result ≡ joined before mention }
{
    match before {
        Some(before) => Mention {
            key: mention.key,
            signer: before.signer || mention.signer,
            writable: before.writable || mention.writable,
            program: before.program || mention.program,
        },
        None => mention,
    }
}

/// Joins the mention with those of its key.
fn join(strongest: &mut BTreeMap<Key, Mention>, mention: &Mention) -> Result<(), OutOfMemory>
    ensures { OnOk result ((key : KeyValue) →
        get key_cmp strongest.new key
        ≡ (if is_of key mention.now
        then Some (joined (get key_cmp strongest.old mention.now.key) mention.now)
        else get key_cmp strongest.old key)) }
{
    let before = strongest.get(&mention.key).copied();
    strongest.insert(mention.key, joined(before, *mention))?;
    Ok(())
}

/// Each key that is mentioned, with all that is asked of it anywhere.
fn strongest_of(alloc: Global, mentions: &[Mention]) -> Result<BTreeMap<Key, Mention>, OutOfMemory>
    ensures { IfOk result (λ strongest. (key : KeyValue) →
        get key_cmp strongest key ≡ mentioned mentions.now key) }
{
    let mut strongest = BTreeMap::new(alloc);
    for mention in mentions {
        join(&mut strongest, mention)?;
    }
    Ok(strongest)
}

/// Moves the key from those that are not listed yet to the list, unless it is there.
fn list_once(
    once: &mut Items<Mention>,
    unlisted: &mut BTreeMap<Key, Mention>,
    key: &Key,
) -> Result<(), OutOfMemory>
    ensures moved { OnOk result (once.new
        ≡ once.old ++ option_to_list (get key_cmp unlisted.old key.now)) }
    ensures left { (other : KeyValue) →
        get key_cmp unlisted.new other
        ≡ (if same_key key.now other then None else get key_cmp unlisted.old other) }
{
    match unlisted.remove(key) {
        Some(mention) => once.push(mention),
        None => Ok(()),
    }
}

/// Each key that the draft mentions once, in the order of their first mentions.
#[tactic(auto, unfolding(crate::specs::Mentions::listed))]
pub(crate) fn listed(alloc: Global, draft: &Draft) -> Result<Items<Mention>, OutOfMemory>
    ensures { IfOk result (λ mentions. mentions ≡ listed draft.now) }
{
    let mentions = mentions_of(alloc, draft)?;
    let mentions = mentions.as_slice();
    let mut unlisted = strongest_of(alloc, mentions)?;
    let mut once = Items::new(alloc);
    for mention in mentions {
        list_once(&mut once, &mut unlisted, &mention.key)?;
    }
    Ok(once)
}
