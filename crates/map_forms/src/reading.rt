//! Pairs are read of the members of an object, and elements of the items of an array, and put into what takes them.
ghost use Rattle.std.specs.Prelude.{◌⊎◌, List, IfErr, OnOk};
ghost use Rattle.std.specs.List.{FoldsTo};
ghost use Rattle.map_forms.specs.Arrays.{AreElementsOf, FirstBad, IsElementOf, IsNoElement};
ghost use Rattle.map_forms.specs.Objects.{FirstFault, IsNoPair, IsPairOf};
ghost use Rattle.map_forms.specs.Reading.{AreMembersOf, IsRefused};
ghost use Rattle.serde_json.specs.View.{items_view, members_view, view};

use crate::puts::Puts;
use crate::{JsonFault, JsonForm, JsonKey, pair_of};
use serde_json::Value;
use serde_json::value::Map;
use std::alloc::Global;

/// Puts one there.
fn put<X, C: Puts<X>>(into: &mut C, x: X) -> Result<(), JsonFault>
    ensures put { OnOk result (C.Puts.has_put into.old x into.new) }
    ensures fault { IfErr result IsRefused }
{
    match into.put(x) {
        Ok(()) => Ok(()),
        Err(fault) => Err(JsonFault::Refused(fault)),
    }
}

/// Puts the pair for which a member stands.
fn put_member<K: JsonKey + Drop, V: JsonForm + Drop, C: Puts<(K, V)>>(
    alloc: Global,
    name: &str,
    value: &Value,
    into: &mut C,
) -> Result<(), JsonFault>
    ensures put { OnOk result ((x : K × V) × IsPairOf K.JsonForm.in_range K.JsonKey.key_text V.JsonForm.in_range V.JsonForm.json_value name.now (view value.now) x
        × C.Puts.has_put into.old x into.new) }
    ensures fault { IfErr result (λ why. IsNoPair K.JsonForm.in_range K.JsonKey.key_text V.JsonForm.in_range V.JsonForm.json_value why name.now (view value.now) ⊎ IsRefused why) }
{
    match pair_of::<K, V>(alloc, name, value) {
        Ok(pair) => put(into, pair),
        Err(why) => Err(why),
    }
}

/// Puts the pairs for which the members of an object stand, in their order, each name being read before its value. The first fault ends it: `BadKey`, `BadElement`, or `Refused`,
/// where memory was refused, or what takes them refused one. Those before it stay.
pub fn put_members<K: JsonKey + Drop, V: JsonForm + Drop, C: Puts<(K, V)>>(
    alloc: Global,
    members: &Map<String, Value>,
    into: &mut C,
) -> Result<(), JsonFault>
    ensures put { OnOk result ((pairs : List (K × V)) × AreMembersOf K.JsonForm.in_range K.JsonKey.key_text V.JsonForm.in_range V.JsonForm.json_value pairs (members_view members.now.entries)
        × FoldsTo C.Puts.has_put into.old pairs into.new) }
    ensures fault { IfErr result (λ why. FirstFault K.JsonForm.in_range K.JsonKey.key_text V.JsonForm.in_range V.JsonForm.json_value why (members_view members.now.entries) ⊎ IsRefused why) }
{
    for (name, value) in members.iter() {
        match put_member::<K, V, C>(alloc, name.as_str(), value, into) {
            Ok(()) => {}
            Err(why) => return Err(why),
        }
    }
    Ok(())
}

/// Puts the element for which an item stands.
fn put_item<K: JsonForm + Drop, C: Puts<K>>(
    alloc: Global,
    item: &Value,
    into: &mut C,
) -> Result<(), JsonFault>
    ensures put { OnOk result ((x : K) × IsElementOf K.JsonForm.in_range K.JsonForm.json_value (view item.now) x × C.Puts.has_put into.old x into.new) }
    ensures fault { IfErr result (λ why. IsNoElement K.JsonForm.in_range K.JsonForm.json_value why (view item.now) ⊎ IsRefused why) }
{
    match K::from_value(alloc, item) {
        Ok(element) => put(into, element),
        Err(why) => Err(why),
    }
}

/// Puts the elements for which the items of an array stand, in their order. The first fault ends it: `BadElement`, or `Refused`, where memory was refused, or what takes them
/// refused one. Those before it stay.
pub fn put_items<K: JsonForm + Drop, C: Puts<K>>(
    alloc: Global,
    items: &[Value],
    into: &mut C,
) -> Result<(), JsonFault>
    ensures put { OnOk result ((elements : List K) × AreElementsOf K.JsonForm.in_range K.JsonForm.json_value elements (items_view items.now) × FoldsTo C.Puts.has_put into.old elements into.new) }
    ensures fault { IfErr result (λ why. FirstBad K.JsonForm.in_range K.JsonForm.json_value why (items_view items.now) ⊎ IsRefused why) }
{
    for item in items {
        match put_item::<K, C>(alloc, item, into) {
            Ok(()) => {}
            Err(why) => return Err(why),
        }
    }
    Ok(())
}
