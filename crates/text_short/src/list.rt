//! Arrays whose items stand for values.
ghost use Rattle.std.specs.Prelude.{map};
ghost use Rattle.spec_base.specs.Reading.{Gives};
ghost use Rattle.serde_json.specs.View.{view};
ghost use Rattle.json_parts.specs.Faults.{is_json_memory};
ghost use Rattle.json_parts.specs.Parts.{items_in, member_in};
ghost use Rattle.text_short.specs.Members.{lone, list_of};

use json_parts::{JsonFault, array, found, in_item, in_member};
use serde_json::Value;
use sol_base::Items;
use std::alloc::Global;

/// What reads the items of an array.
pub(crate) trait ReadsItems<T> {
    ghost use Rattle.std.specs.Prelude.{Result};
    ghost use Rattle.serde_json.specs.Data.{Data};
    ghost use Rattle.json_parts.specs.declared.fault.JsonFault.{JsonFault};

    ghost item_in: { Self → Data → Result T JsonFault };

    /// What the item stands for.
    fn read(&self, alloc: Global, value: &Value) -> Result<T, JsonFault>
        ensures { Gives is_json_memory (λ x. x) result (item_in self.now (view value.now)) };
}

/// What the items stand for.
fn items<T: Drop, R: ReadsItems<T>>(
    alloc: Global,
    values: &[Value],
    reader: &R,
) -> Result<Items<T>, JsonFault>
    ensures { Gives is_json_memory (λ x. x) result
        (items_in (lone (R.item_in reader.now)) 0 (map view values.now)) }
{
    let mut items = Items::new(alloc);
    for (at, value) in values.iter().enumerate() {
        let item = in_item(at, reader.read(alloc, value))?;
        items.push(item)?;
    }
    Ok(items)
}

#[tactic(auto, unfolding(crate::specs::Members::list_of))]
fn list<T: Drop, R: ReadsItems<T>>(
    alloc: Global,
    value: &Value,
    most: usize,
    reader: &R,
) -> Result<Items<T>, JsonFault>
    ensures { Gives is_json_memory (λ x. x) result
        (list_of most (R.item_in reader.now) (view value.now)) }
{
    let values = array(alloc, value, most)?;
    items(alloc, values, reader)
}

/// What the member of that name stands for: a list of no more items than these.
#[tactic(auto, unfolding(json_parts::specs::Parts::member_in))]
pub(crate) fn list_member<T: Drop, R: ReadsItems<T>>(
    alloc: Global,
    value: &Value,
    name: &str,
    most: usize,
    reader: &R,
) -> Result<Items<T>, JsonFault>
    ensures { Gives is_json_memory (λ x. x) result
        (member_in name.now (list_of most (R.item_in reader.now)) (view value.now)) }
{
    let found = found(alloc, value, name)?;
    in_member(alloc, name, list(alloc, found, most, reader))
}
