//! The texts of refusals.
ghost use Rattle.std.specs.Prelude.{◌≡◌, ◌++◌, IfOk, OnOk};
ghost use Rattle.admission.specs.Refusals.{budget_text, lookup_text, numbered, sanitize_text, text_of, wire_text};

use crate::lookups::LookupFault;
use crate::refusal::Refusal;
use fee_rules::BudgetFault;
use itoa::Buffer;
use message_codec::{SanitizeFault, WireFault};
use sol_base::{Blob, OutOfMemory};
use std::alloc::Global;

/// The name of the cause, and after it that of the fault within, with its place or number.
pub fn refusal_text(alloc: Global, cause: &Refusal) -> Result<Blob, OutOfMemory>
    ensures { IfOk result (λ text. text ≡ text_of cause.now) }
{
    let mut text = Blob::new(alloc);
    match *cause {
        Refusal::Wire(fault) => {
            text.append(b"Wire ")?;
            append_wire(&mut text, fault)?;
        }
        Refusal::Sanitize(fault) => {
            text.append(b"Sanitize ")?;
            append_sanitize(&mut text, fault)?;
        }
        Refusal::Lookup(fault) => {
            text.append(b"Lookup ")?;
            append_lookup(&mut text, fault)?;
        }
        Refusal::UnknownBlockhash => text.append(b"UnknownBlockhash")?,
        Refusal::AlreadyProcessed => text.append(b"AlreadyProcessed")?,
        Refusal::RepeatedInBatch => text.append(b"RepeatedInBatch")?,
        Refusal::Budget(fault) => {
            text.append(b"Budget ")?;
            append_budget(&mut text, fault)?;
        }
        Refusal::BlockUnits => text.append(b"BlockUnits")?,
        Refusal::KeyUnits => text.append(b"KeyUnits")?,
    }
    Ok(text)
}

fn append_wire(text: &mut Blob, fault: WireFault) -> Result<(), OutOfMemory>
    ensures { OnOk result (text.new ≡ text.old ++ wire_text fault) }
{
    match fault {
        WireFault::TooLong => text.append(b"TooLong"),
        WireFault::Truncated { at } => append_numbered(text, b"Truncated at", at),
        WireFault::BadLength { at } => append_numbered(text, b"BadLength at", at),
        WireFault::Version { byte } => append_numbered(text, b"Version", usize::from(byte)),
        WireFault::Trailing { at } => append_numbered(text, b"Trailing at", at),
        WireFault::OutOfMemory => text.append(b"OutOfMemory"),
    }
}

fn append_sanitize(text: &mut Blob, fault: SanitizeFault) -> Result<(), OutOfMemory>
    ensures { OnOk result (text.new ≡ text.old ++ sanitize_text fault) }
{
    match fault {
        SanitizeFault::SignatureCount => text.append(b"SignatureCount"),
        SanitizeFault::HeaderRange => text.append(b"HeaderRange"),
        SanitizeFault::NoWritablePayer => text.append(b"NoWritablePayer"),
        SanitizeFault::ProgramIndex => text.append(b"ProgramIndex"),
        SanitizeFault::AccountIndex => text.append(b"AccountIndex"),
        SanitizeFault::TooManyKeys => text.append(b"TooManyKeys"),
        SanitizeFault::RepeatedKey => text.append(b"RepeatedKey"),
        SanitizeFault::PayerReserved => text.append(b"PayerReserved"),
        SanitizeFault::EmptyLookup { lookup } => {
            append_numbered(text, b"EmptyLookup", usize::from(lookup))
        }
    }
}

fn append_lookup(text: &mut Blob, fault: LookupFault) -> Result<(), OutOfMemory>
    ensures { OnOk result (text.new ≡ text.old ++ lookup_text fault) }
{
    match fault {
        LookupFault::NoTable { lookup } => append_numbered(text, b"NoTable", usize::from(lookup)),
        LookupFault::BadTable { lookup } => {
            append_numbered(text, b"BadTable", usize::from(lookup))
        }
        LookupFault::BadIndex { lookup } => {
            append_numbered(text, b"BadIndex", usize::from(lookup))
        }
        LookupFault::RepeatedKey => text.append(b"RepeatedKey"),
        LookupFault::OutOfMemory => text.append(b"OutOfMemory"),
    }
}

fn append_budget(text: &mut Blob, fault: BudgetFault) -> Result<(), OutOfMemory>
    ensures { OnOk result (text.new ≡ text.old ++ budget_text fault) }
{
    match fault {
        BudgetFault::BadBudget { index } => {
            append_numbered(text, b"BadBudget", usize::from(index))
        }
        BudgetFault::RepeatedBudget { index } => {
            append_numbered(text, b"RepeatedBudget", usize::from(index))
        }
    }
}

/// Adds a name and a number.
fn append_numbered(text: &mut Blob, name: &[u8], number: usize) -> Result<(), OutOfMemory>
    ensures { OnOk result (text.new ≡ text.old ++ numbered name.now number) }
{
    text.append(name)?;
    text.append(b" ")?;
    text.append(Buffer::new().format(number).as_bytes())
}
