//! Elements are read of the items of a JSON array.
ghost use Rattle.std.specs.Prelude.{◌≡◌, ◌∷◌, ◌++◌, ◌⊎◌, List, [], filter, not, IfOk, IfErr, OnOk};
ghost use Rattle.std.specs.List.{All, IsDistinct};
ghost use Rattle.std.specs.List.Sorted.{IsPermutation};
ghost use Rattle.serde_json.specs.Data.{array};
ghost use Rattle.serde_json.specs.View.{view, items_view};
ghost use Rattle.map_forms.specs.Arrays.{AreItemsOf, FirstBad, HasElements, IsElementOf, IsNoElement, IsNotRead, IsRefused};

use crate::fault::JsonFault;
use crate::gathers::Gathers;
use crate::json_form::JsonForm;
use serde_json::Value;
use std::alloc::Global;

/// Puts the element that an item stands for.
fn put_element<K: JsonForm, C: Gathers<K>>(
    alloc: Global,
    found: &mut C,
    item: &Value,
) -> Result<(), JsonFault>
    ensures put { OnOk result ((x : K) × IsElementOf K.JsonForm.in_range K.JsonForm.json_value (view item.now) x
        × IsPermutation (C.Gathers.elements found.new) (filter (λ y. not (K.eq x y)) (C.Gathers.elements found.old) ++ (x ∷ []))
        × ((given : List K) → C.Gathers.made_of found.old given → C.Gathers.made_of found.new (given ++ (x ∷ [])))) }
    ensures fault { IfErr result (λ why. IsNoElement K.JsonForm.in_range K.JsonForm.json_value why (view item.now) ⊎ IsRefused why) }
{
    let element = K::from_value(alloc, item)?;
    found.put(element)?;
    Ok(())
}

/// The elements that these items stand for.
fn elements_among<K: JsonForm, C: Gathers<K> + Drop>(
    alloc: Global,
    items: &[Value],
) -> Result<C, JsonFault>
    ensures elements { IfOk result (λ found. HasElements K.JsonForm.json_value (C.Gathers.elements found) (array (items_view items.now))) }
    ensures in_range { IfOk result (λ found. All K.JsonForm.in_range (C.Gathers.elements found)) }
    ensures once { IfOk result (λ found. IsDistinct K.eq (C.Gathers.elements found)) }
    ensures made { IfOk result (λ found. (given : List K) × AreItemsOf K.JsonForm.in_range K.JsonForm.json_value given (array (items_view items.now)) × C.Gathers.made_of found given) }
    ensures fault { IfErr result (λ why. FirstBad K.JsonForm.in_range K.JsonForm.json_value why (items_view items.now) ⊎ IsRefused why) }
{
    let mut found = C::none(alloc)?;
    for item in items {
        put_element(alloc, &mut found, item)?;
    }
    Ok(found)
}

/// Returns the elements of an array, in whatever order it has them; one that it has repeatedly counts once. Items are read in the array's order, and the first
/// fault counts: `BadElement`, or `Refused`, where memory or the length of a table was refused. What is no array is `NotAnArray`.
pub fn elements_of<K: JsonForm, C: Gathers<K> + Drop>(
    alloc: Global,
    value: &Value,
) -> Result<C, JsonFault>
    ensures elements { IfOk result (λ found. HasElements K.JsonForm.json_value (C.Gathers.elements found) (view value.now)) }
    ensures in_range { IfOk result (λ found. All K.JsonForm.in_range (C.Gathers.elements found)) }
    ensures once { IfOk result (λ found. IsDistinct K.eq (C.Gathers.elements found)) }
    ensures made { IfOk result (λ found. (given : List K) × AreItemsOf K.JsonForm.in_range K.JsonForm.json_value given (view value.now) × C.Gathers.made_of found given) }
    ensures fault { IfErr result (λ why. IsNotRead K.JsonForm.in_range K.JsonForm.json_value why (view value.now)) }
{
    match value.as_array() {
        Some(items) => elements_among(alloc, items),
        None => Err(JsonFault::NotAnArray),
    }
}
