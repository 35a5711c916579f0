//! Arrays of a JSON text.
ghost use Rattle.std.specs.Prelude.{◌≡◌, ◌≤◌, IfOk, length, map};
ghost use Rattle.spec_base.specs.Reading.{Gives};
ghost use Rattle.serde_json.specs.View.{view, items_view};
ghost use Rattle.json_parts.specs.Faults.{is_json_memory};
ghost use Rattle.json_parts.specs.Parts.{or_refused, if_few, items_in, array_in, list_in, member_in};
ghost use Rattle.json_parts.specs.Written.{list_json};
ghost use Rattle.json_parts.specs.declared.fault.Wanted.TheVariants.{Array};

use crate::fault::{JsonFault, Wanted, in_item, in_member, refused};
use crate::parts::found;
use serde_json::Value;
use sol_base::Blob;
use std::alloc::{AllocError, Global};

/// What items of arrays stand for in a format.
pub trait Part {
    ghost use Rattle.std.specs.Prelude.{List, ℕ, Result};
    ghost use Rattle.serde_json.specs.Data.{Data};
    ghost use Rattle.json_parts.specs.declared.fault.JsonFault.{JsonFault};

    /// The bytes that the value stands for.
    ghost part_in: { Data → Result (List ℕ) JsonFault };

    fn read(alloc: Global, value: &Value) -> Result<Blob, JsonFault>
        ensures { Gives is_json_memory (λ bytes. bytes) result (part_in (view value.now)) };
}

/// What the items stand for, one after the other.
fn items<P: Part>(alloc: Global, values: &[Value]) -> Result<Blob, JsonFault>
    ensures { Gives is_json_memory (λ bytes. bytes) result
        (items_in P.part_in 0 (map view values.now)) }
{
    let mut out = Blob::new(alloc);
    for (at, value) in values.iter().enumerate() {
        let bytes = in_item(at, P::read(alloc, value))?;
        out.append(bytes.as_slice())?;
    }
    Ok(out)
}

/// The items, where they are no more than these.
fn few(alloc: Global, values: &[Value], most: usize) -> Result<&[Value], JsonFault>
    ensures gives { Gives is_json_memory (λ items. map view items.now) result
        (or_refused (if_few most (items_view values.now)) (Array most)) }
    ensures fits { IfOk result (λ items. length items.now ≤ most) }
{
    if values.len() > most {
        return Err(refused(alloc, Wanted::Array { most }));
    }
    Ok(values)
}

/// The items of the array that the value is, where they are no more than these.
#[tactic(auto, unfolding(crate::specs::Parts::array_in))]
pub fn array(alloc: Global, value: &Value, most: usize) -> Result<&[Value], JsonFault>
    ensures gives { Gives is_json_memory (λ items. map view items.now) result
        (array_in most (view value.now)) }
    ensures fits { IfOk result (λ items. length items.now ≤ most) }
{
    match value.as_array() {
        Some(values) => few(alloc, values.as_slice(), most),
        None => Err(refused(alloc, Wanted::Array { most })),
    }
}

/// The number of items, and what they stand for.
#[tactic(auto, unfolding(crate::specs::Parts::list_in))]
fn list<P: Part>(alloc: Global, value: &Value, most: usize) -> Result<(usize, Blob), JsonFault>
    ensures gives { Gives is_json_memory (λ x. x) result (list_in most P.part_in (view value.now)) }
    ensures fits { IfOk result (λ x. x.0 ≤ most) }
{
    let values = array(alloc, value, most)?;
    let bytes = items::<P>(alloc, values)?;
    Ok((values.len(), bytes))
}

/// What the member of that name stands for: a list of no more items than these, as their number and
/// the bytes of one after the other.
#[tactic(auto, unfolding(crate::specs::Parts::member_in))]
pub fn list_member<P: Part>(
    alloc: Global,
    value: &Value,
    name: &str,
    most: usize,
) -> Result<(usize, Blob), JsonFault>
    ensures gives { Gives is_json_memory (λ x. x) result
        (member_in name.now (list_in most P.part_in) (view value.now)) }
    ensures fits { IfOk result (λ x. x.0 ≤ most) }
{
    let found = found(alloc, value, name)?;
    in_member(alloc, name, list::<P>(alloc, found, most))
}

/// How items of arrays are written in JSON.
pub trait InJson {
    type Item;

    ghost use Rattle.serde_json.specs.Data.{Data};

    ghost json_of: { Self.Item → Data };

    fn value(alloc: Global, item: &Self::Item) -> Result<Value, AllocError>
        ensures { IfOk result (λ v. view v ≡ json_of item.now) };
}

/// The items as an array.
pub fn list_value<S: InJson>(alloc: Global, items: &[S::Item]) -> Result<Value, AllocError>
    ensures { IfOk result (λ v. view v ≡ list_json S.json_of items.now) }
{
    let mut values = Vec::with_capacity(alloc, items.len())?;
    for item in items {
        values.push(S::value(alloc, item)?)?;
    }
    Ok(Value::Array(values))
}
