//! Why a JSON text stands for no bytes of a format.
ghost use Rattle.std.specs.Prelude.{◌≡◌, [], ◌∷◌, MatchBool, IfOk, map};
ghost use Rattle.spec_base.specs.Reading.{Gives};
ghost use Rattle.json_parts.specs.declared.fault.JsonFault.TheVariants.{Refused, OutOfMemory as no_memory};
ghost use Rattle.json_parts.specs.declared.fault.Step.TheVariants.{Member, Item};
ghost use Rattle.json_parts.specs.declared.fault.Wanted.TheVariants.{Absence, Instruction};
ghost use Rattle.json_parts.specs.Faults.{is_json_memory, deeper, within as within_step};

use block_record::RecordFault;
use snapshot_codec::{BatchFault, SnapshotFault};
use sol_base::{Blob, Items, OutOfMemory};
use std::alloc::{AllocError, Global};

/// A step of the way to a value in a JSON text.
#[derive(Drop)]
pub enum Step {
    /// To the member of an object that has this name.
    Member { name: Blob },
    /// To the item of an array that is after so many others.
    Item { at: usize },
}

/// What is wanted at a place of a JSON text.
#[derive(Drop)]
pub enum Wanted {
    Object,
    /// An array of no more items than these.
    Array { most: usize },
    /// A number from the least to the greatest.
    Number { least: u64, most: u64 },
    /// Two hexadecimal digits for each of so many bytes.
    Digits { bytes: usize },
    /// Two hexadecimal digits for each of so many bytes, where another number of them was found.
    DigitCount { bytes: usize, found: usize },
    /// 64 hexadecimal digits, or a name.
    KeyOrName,
    /// No more bytes than these, in one of their spellings.
    Bytes { most: usize },
    /// True or false.
    Flag,
    /// A text.
    Text,
    /// The version of a message: the text `legacy` or the number 0.
    Version,
    /// The members of a transaction of no more than 1,232 bytes (Solana).
    Transaction,
    /// How a transaction ended: the text `ok`, or an object with `failed` or `dropped`.
    Ending,
    /// The member itself.
    Presence,
    /// No member of this name: the object may have these.
    Absence { known: Items<Blob> },
    /// No more than 38 keys of a transaction's own, and no more than 256 with loaded ones (Solana).
    FewKeys,
    /// The name of an instruction, which is one of these.
    Instruction { known: Items<Blob> },
}

/// Why a JSON text stands for no bytes of a format.
#[derive(Drop)]
pub enum JsonFault {
    /// The text is no JSON from this place on.
    NoJson { line: usize, column: usize },
    /// Something else is wanted at the end of this path, whose last step is first.
    Refused { path: Items<Step>, wanted: Wanted },
    /// The members are those of a snapshot that its format refuses.
    BadSnapshot { fault: SnapshotFault },
    /// The members are those of a batch that its format refuses.
    BadBatch { fault: BatchFault },
    /// The members are those of a record that its format refuses.
    BadRecord { fault: RecordFault },
    /// The members are those of no program image.
    BadImage,
    /// Other bytes follow from this place on.
    Trailing { at: usize },
    OutOfMemory,
}

impl From<OutOfMemory> for JsonFault {
    ghost from_gives = { λ _ e. e ≡ no_memory };

    fn from(_e: OutOfMemory) -> JsonFault {
        JsonFault::OutOfMemory
    }
}

impl From<AllocError> for JsonFault {
    ghost from_gives = { λ _ e. e ≡ no_memory };

    fn from(_e: AllocError) -> JsonFault {
        JsonFault::OutOfMemory
    }
}

/// Something else is wanted at this value.
pub fn refused(alloc: Global, wanted: Wanted) -> JsonFault
    ensures { result ≡ Refused [] wanted }
{
    JsonFault::Refused {
        path: Items::new(alloc),
        wanted,
    }
}

/// The fault as it is one step further out.
fn from_further_out(fault: JsonFault, step: Step) -> JsonFault
    ensures { MatchBool (is_json_memory result) (Unit {0}) (result ≡ deeper step fault) }
{
    match fault {
        JsonFault::Refused { mut path, wanted } => match path.push(step) {
            Ok(()) => JsonFault::Refused { path, wanted },
            Err(OutOfMemory) => JsonFault::OutOfMemory,
        },
        other => other,
    }
}

/// What was read of a member, or its fault as it is in the object.
pub fn in_member<T: Drop>(
    alloc: Global,
    name: &str,
    read: Result<T, JsonFault>,
) -> Result<T, JsonFault>
    ensures { Gives is_json_memory (λ x. x) result
        (within_step (Member name.now) read) }
{
    match read {
        Ok(value) => Ok(value),
        Err(fault) => {
            let name = Blob::from_slice(alloc, name.as_bytes())?;
            Err(from_further_out(fault, Step::Member { name }))
        }
    }
}

/// What was read of the item after so many others, or its fault as it is in the array.
pub fn in_item<T: Drop>(at: usize, read: Result<T, JsonFault>) -> Result<T, JsonFault>
    ensures { Gives is_json_memory (λ x. x) result (within_step (Item at) read) }
{
    match read {
        Ok(value) => Ok(value),
        Err(fault) => Err(from_further_out(fault, Step::Item { at })),
    }
}

/// Something else is wanted at the member of that name.
pub fn refused_member(alloc: Global, name: &str, wanted: Wanted) -> JsonFault
    ensures { MatchBool (is_json_memory result) (Unit {0})
        (result ≡ Refused (Member name.now ∷ []) wanted) }
{
    match Blob::from_slice(alloc, name.as_bytes()) {
        Ok(name) => from_further_out(refused(alloc, wanted), Step::Member { name }),
        Err(OutOfMemory) => JsonFault::OutOfMemory,
    }
}

/// The names, as a refusal has them.
fn owned(alloc: Global, names: &[&str]) -> Result<Items<Blob>, OutOfMemory>
    ensures { IfOk result (λ known. known ≡ map (λ n. n.now) names.now) }
{
    let mut known = Items::new(alloc);
    for name in names {
        known.push(Blob::from_slice(alloc, name.as_bytes())?)?;
    }
    Ok(known)
}

/// The object has a member of that name, which is none of those that it may have.
pub fn refused_name(alloc: Global, name: &str, known: &[&str]) -> JsonFault
    ensures { MatchBool (is_json_memory result) (Unit {0})
        (result ≡ Refused (Member name.now ∷ []) (Absence (map (λ n. n.now) known.now))) }
{
    match owned(alloc, known) {
        Ok(known) => refused_member(alloc, name, Wanted::Absence { known }),
        Err(OutOfMemory) => JsonFault::OutOfMemory,
    }
}

/// The member of that name is none of these instructions.
pub fn refused_instruction(alloc: Global, name: &str, known: &[&str]) -> JsonFault
    ensures { MatchBool (is_json_memory result) (Unit {0})
        (result ≡ Refused (Member name.now ∷ []) (Instruction (map (λ n. n.now) known.now))) }
{
    match owned(alloc, known) {
        Ok(known) => refused_member(alloc, name, Wanted::Instruction { known }),
        Err(OutOfMemory) => JsonFault::OutOfMemory,
    }
}
