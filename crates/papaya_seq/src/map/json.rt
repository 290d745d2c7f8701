//! JSON of a map for one owner: it is written as the object of its pairs, and read of one.
ghost use Rattle.std.specs.Prelude.{◌≡◌, ◌⊎◌, IfOk, IfErr, OnOk};
ghost use Rattle.std.specs.List.{All};
ghost use Rattle.std.specs.List.Sorted.{IsPermutation};
ghost use Rattle.serde_json.specs.Data.{object};
ghost use Rattle.serde_json.specs.View.{view, members_view};
ghost use Rattle.map_forms.specs.Objects.{IsObjectOf};
ghost use Rattle.papaya_seq.specs.Json.{ArePairsOf, FirstFault, IsMapOf, IsNoPair, IsPairOf, IsRefusal, IsUnread, LastIsOf};
ghost use Rattle.owner_map.specs.Given.SeqShowsStored.{HasPut};

use crate::json::{FromJson, ToJson};
use map_forms::{JsonFault, JsonForm, JsonKey, object_of, pair_of};
use owner_map::{HashMap, Receiver, store};
use serde_json::Value;
use serde_json::value::Map;
use std::alloc::{AllocError, Global};
use std::hash::{BuildHasher, Hash};

/// Stores the pair that a member of an object stands for.
fn store_member<K: JsonKey + Hash + Drop, V: JsonForm + Drop, S: BuildHasher>(
    alloc: Global,
    map: &mut HashMap<K, V, S>,
    name: &str,
    value: &Value,
) -> Result<(), JsonFault>
    ensures stored { OnOk result ((x : K × V) × IsPairOf K.JsonForm.in_range K.JsonKey.key_text V.JsonForm.in_range V.JsonForm.json_value name.now (view value.now) x
        × HasPut K.eq x map.old map.new) }
    ensures fault { IfErr result (λ why. IsNoPair K.JsonForm.in_range K.JsonKey.key_text V.JsonForm.in_range V.JsonForm.json_value why name.now (view value.now) ⊎ IsRefusal why) }
    ensures hasher { map.new.hasher ≡ map.old.hasher }
{
    let (key, value) = pair_of(alloc, name, value)?;
    match store(map, key, value) {
        Ok(()) => Ok(()),
        Err(fault) => Err(JsonFault::Refused(fault)),
    }
}

/// The map of the pairs that these members stand for.
fn map_of<K: JsonKey + Hash + Drop, V: JsonForm + Drop, S: BuildHasher + Default + Drop>(
    alloc: Global,
    members: &Map<String, Value>,
) -> Result<HashMap<K, V, S>, JsonFault>
    ensures pairs { IfOk result (λ map. IsObjectOf K.JsonKey.key_text V.JsonForm.json_value map.pairs (object (members_view members.now.entries))) }
    ensures in_range { IfOk result (λ map. All (λ x. K.JsonForm.in_range x.0 × V.JsonForm.in_range x.1) map.pairs) }
    ensures held { IfOk result (λ map. IsPermutation map.held map.pairs) }
    ensures last { IfOk result (λ map. LastIsOf K.JsonForm.in_range K.JsonKey.key_text V.JsonForm.in_range V.JsonForm.json_value (object (members_view members.now.entries)) map) }
    ensures fault { IfErr result (λ why. FirstFault K.JsonForm.in_range K.JsonKey.key_text V.JsonForm.in_range V.JsonForm.json_value why (members_view members.now.entries) ⊎ IsRefusal why) }
    ensures hasher { IfOk result (λ map. S.is_default map.hasher) }
{
    let mut map = match HashMap::new(alloc) {
        Ok(map) => map,
        Err(fault) => return Err(JsonFault::Refused(fault)),
    };
    for (name, value) in members.iter() {
        store_member(alloc, &mut map, name.as_str(), value)?;
    }
    Ok(map)
}

/// The map that is written as this value.
fn map_in<K: JsonKey + Hash + Drop, V: JsonForm + Drop, S: BuildHasher + Default + Drop>(
    alloc: Global,
    value: &Value,
) -> Result<HashMap<K, V, S>, JsonFault>
    ensures pairs { IfOk result (λ map. IsObjectOf K.JsonKey.key_text V.JsonForm.json_value map.pairs (view value.now)) }
    ensures in_range { IfOk result (λ map. All (λ x. K.JsonForm.in_range x.0 × V.JsonForm.in_range x.1) map.pairs) }
    ensures held { IfOk result (λ map. IsPermutation map.held map.pairs) }
    ensures last { IfOk result (λ map. LastIsOf K.JsonForm.in_range K.JsonKey.key_text V.JsonForm.in_range V.JsonForm.json_value (view value.now) map) }
    ensures fault { IfErr result (λ why. IsUnread K.JsonForm.in_range K.JsonKey.key_text V.JsonForm.in_range V.JsonForm.json_value why (view value.now)) }
    ensures hasher { IfOk result (λ map. S.is_default map.hasher) }
{
    match value.as_object() {
        Some(members) => map_of(alloc, members),
        None => Err(JsonFault::NotAnObject),
    }
}

/// The object that has the map's pairs for its members, each key's text for a name.
impl<K: JsonKey + Hash, V: JsonForm, S: BuildHasher, R: Receiver<(K, V)>> ToJson
    for HashMap<K, V, S, R> {
    ghost is_written = { λ map d. ArePairsOf K.JsonForm.in_range K.JsonKey.key_text V.JsonForm.in_range V.JsonForm.json_value map.pairs d };

    fn to_value(&self, alloc: Global) -> Result<Value, AllocError> {
        object_of(alloc, self.iter())
    }
}

/// The members are read in the value's order, the name of each before its value, and the first fault counts: `BadKey`, `BadElement`, or `Refused`, where
/// memory or the length of a table was refused. What is no object is `NotAnObject`. `met` shows the pair of the last member then.
impl<K: JsonKey + Hash + Drop, V: JsonForm + Drop, S: BuildHasher + Default + Drop> FromJson
    for HashMap<K, V, S> {
    ghost is_read = { λ map d. IsMapOf K.JsonForm.in_range K.JsonKey.key_text V.JsonForm.in_range V.JsonForm.json_value S.is_default d map };

    ghost is_unread = { λ why d. IsUnread K.JsonForm.in_range K.JsonKey.key_text V.JsonForm.in_range V.JsonForm.json_value why d };

    fn from_value(alloc: Global, value: &Value) -> Result<Self, JsonFault> {
        match map_in(alloc, value) {
            Ok(map) => Ok(map),
            Err(why) => Err(why),
        }
    }
}
