//! The bytes of the transaction that is built from a draft.
ghost use Rattle.std.specs.Prelude.{◌≡◌, ◌≤◌, IfOk, length};
ghost use Rattle.std.specs.List.{list_any};
ghost use Rattle.spec_base.specs.Reading.{Gives};
ghost use Rattle.message_codec.specs.Wire.{AllowsLookups, max_wire_len};
ghost use Rattle.tx_build.specs.Built.{is_build_memory, is_long_instruction, is_long_lookup, has_long_instructions, has_long_lookups, is_long_message, sized, built};

use crate::draft::Draft;
use crate::fault::BuildFault;
use crate::message::message_of;
use crate::signing::signed;
use message_codec::{Instruction, Lookup, MAX_WIRE_LEN, Message, write_wire};
use sol_base::Blob;
use std::alloc::Global;

fn is_long_instruction(instruction: &Instruction) -> bool
    ensures { result ≡ is_long_instruction instruction.now }
{
    instruction.accounts.len() > MAX_WIRE_LEN || instruction.input.len() > MAX_WIRE_LEN
}

fn is_long_lookup(lookup: &Lookup) -> bool
    ensures { result ≡ is_long_lookup lookup.now }
{
    lookup.writable.len() > MAX_WIRE_LEN || lookup.readonly.len() > MAX_WIRE_LEN
}

fn has_long_instruction(instructions: &[Instruction]) -> bool
    ensures { result ≡ list_any is_long_instruction instructions.now }
{
    instructions.iter().any(is_long_instruction)
}

fn has_long_lookup(lookups: &[Lookup]) -> bool
    ensures { result ≡ list_any is_long_lookup lookups.now }
{
    lookups.iter().any(is_long_lookup)
}

fn has_long_instructions(instructions: &[Instruction]) -> bool
    ensures { result ≡ has_long_instructions instructions.now }
{
    instructions.len() > MAX_WIRE_LEN || has_long_instruction(instructions)
}

fn has_long_lookups(lookups: &[Lookup]) -> bool
    ensures { result ≡ has_long_lookups lookups.now }
{
    lookups.len() > MAX_WIRE_LEN || has_long_lookup(lookups)
}

fn is_long_message(message: &Message) -> bool
    ensures { result ≡ is_long_message message.now }
{
    message.keys.len() > MAX_WIRE_LEN
        || has_long_instructions(message.instructions.as_slice())
        || has_long_lookups(message.lookups.as_slice())
}

/// The bytes of the message's transaction.
#[tactic(auto, using(crate::proofs::Lengths::short_lists))]
fn sized(alloc: Global, message: Message) -> Result<Blob, BuildFault>
    requires { AllowsLookups message.kind message.lookups }
    ensures exact { Gives is_build_memory (λ bytes. bytes) result (sized message) }
    ensures short { IfOk result (λ bytes. length bytes ≤ max_wire_len) }
{
    if is_long_message(&message) {
        return Err(BuildFault::TooLong);
    }
    let tx = signed(alloc, message)?;
    let bytes = write_wire(alloc, &tx)?;
    if bytes.len() > MAX_WIRE_LEN {
        return Err(BuildFault::TooLong);
    }
    Ok(bytes)
}

/// The bytes of the transaction that is built from the draft, in Solana's wire format.
///
/// Its keys are the fee payer and all that the instructions name, each once, with all rights that
/// any of them asks for: the writable signers, those that only sign, the writable others and those
/// that are only read, in each class in the order in which they come, an instruction's program
/// before its accounts. In a version 0 message a key that neither signs nor is a program is loaded
/// from the first table that holds it. Each signature is the hash of the message and the hash of
/// that and the signer's key (the project's own).
#[tactic(auto, unfolding(crate::specs::Built::built))]
pub fn build_wire(alloc: Global, draft: &Draft) -> Result<Blob, BuildFault>
    ensures exact { Gives is_build_memory (λ bytes. bytes) result (built draft.now) }
    ensures short { IfOk result (λ bytes. length bytes ≤ max_wire_len) }
{
    let message = message_of(alloc, draft)?;
    sized(alloc, message)
}
