//! Elements are written as the items of a JSON array.
ghost use Rattle.std.specs.Prelude.{◌≡◌, List, map, string_cmp, IfOk, OnOk};
ghost use Rattle.std.specs.BTreeMap.{IsOrdered, values};
ghost use Rattle.std.specs.Borrow.{Bor};
ghost use Rattle.std.specs.Iterator.{IsFinite, Drains};
ghost use Rattle.std.specs.List.{All};
ghost use Rattle.serde_json.specs.View.{view};
ghost use Rattle.map_forms.specs.Arrays.{IsArrayOf};
ghost use Rattle.map_forms.specs.Texts.{PutsValue};

use crate::json_form::JsonForm;
use serde_json::{Map, Value};
use std::alloc::{AllocError, Global};

/// Puts an element's value among the items of an array, by its compact text. One that equals it has the same text.
pub fn put_item<K: JsonForm>(
    alloc: Global,
    items: &mut Map<String, Value>,
    element: &K,
) -> Result<(), AllocError>
    ensures in_range { IfOk result (λ _. K.JsonForm.in_range element.now) }
    ensures ordered { OnOk result (IsOrdered string_cmp items.new) }
    ensures item { OnOk result (PutsValue (K.JsonForm.json_value element.now) items.old.entries items.new.entries) }
{
    let item = element.to_value(alloc)?;
    let text = item.to_string(alloc)?;
    let _ = items.insert(text, item)?;
    Ok(())
}

/// Returns the values, in the order of their texts.
pub fn in_order(alloc: Global, items: Map<String, Value>) -> Result<Vec<Value>, AllocError>
    ensures { IfOk result (λ listed. listed.items ≡ values items) }
{
    items.into_values().collect(alloc)
}

/// Returns the array that these elements are written as: each once, in the order of the bytes of their compact texts.
pub fn array_of<'a, K: JsonForm + 'a, I: Iterator<Item = &'a K>>(
    alloc: Global,
    elements: I,
) -> Result<Value, AllocError>
    requires can { I.can_next elements }
    requires finite { IsFinite (I.remaining elements) }
    ensures { IfOk result (λ written. (xs : List (Bor K)) × Drains I.next_gives elements xs × All (λ x. K.JsonForm.in_range x.now) xs
        × IsArrayOf K.JsonForm.json_value (map (λ x. x.now) xs) (view written)) }
{
    let mut items = Map::new(alloc);
    for element in elements {
        put_item(alloc, &mut items, element)?;
    }
    let listed = in_order(alloc, items)?;
    Ok(Value::Array(listed))
}
