//! JSON of a map that threads share: a session writes the object of the pairs that a walk has told, and a map is read of one.
ghost use Rattle.std.specs.Prelude.{◌≡◌, ◌⊎◌, Ok, IfErr, IfOk, OnOk};
ghost use Rattle.map_forms.specs.Objects.{FirstFault};
ghost use Rattle.map_forms.specs.Growing.{PutsMember};
ghost use Rattle.map_forms.specs.Reading.{IsRefused};
ghost use Rattle.map_tables.specs.declared.resize_mode.ResizeMode.TheVariants.{Incremental};
ghost use Rattle.papaya_json.specs.Json.{HasFault, IsFilledBy, IsNoObject, IsWrittenAs, WasNotWritten};
ghost use Rattle.papaya.specs.Given.OwnedOwned.{hashed_by};
ghost use Rattle.papaya.specs.Given.SessionsExtended.{PutsPair};
ghost use Rattle.papaya.specs.Given.SessionsKept.{KeepsMap};
ghost use Rattle.seize.specs.Ids.{following, given};
ghost use Rattle.serde_json.specs.Data.{object};
ghost use Rattle.serde_json.specs.View.{members_view, view};

use crate::forms::{FromJson, ToJson};
use map_forms::{JsonFault, JsonForm, JsonKey, Members, Puts, put_members};
use map_tables::Hashes;
use papaya::{HashMap, IdSource, Onlooker, Session};
use seize_words::Fault;
use serde_json::Value;
use serde_json::value::Map;
use std::alloc::Global;
use std::hash::{BuildHasher, Hash};
use std::sync::Wait;

/// The pairs that a walk has told so far, as the members of an object.
#[derive(Drop)]
struct Pairs {
    members: Members,
}

impl<K: JsonKey, V: JsonForm> Onlooker<K, V> for Pairs {
    ghost may_see = { λ pairs. Unit {0} };

    ghost has_seen = { λ pairs key value n. PutsMember K.JsonForm.in_range K.JsonKey.key_text V.JsonForm.in_range V.JsonForm.json_value key value pairs.members.refused (members_view pairs.members.members.entries)
        n.members.refused (members_view n.members.members.entries) };

    fn sees(&mut self, key: &K, value: &V) {
        self.members.put(key, value);
    }
}

/// The object that has the pairs that the walk tells for its members, each key's text for a name. Of a key that is told of twice, as its pair was removed and another one stored
/// meanwhile, the later value stands there.
impl<'m, K: JsonKey + Hash + Drop, V: JsonForm + Drop, S: Hashes<K>> ToJson
    for Session<'m, K, V, S> {
    ghost is_written = { λ session d n. KeepsMap session n × IsWrittenAs K.JsonForm.in_range K.JsonKey.key_text V.JsonForm.in_range V.JsonForm.json_value K.eq S.hash d session.base.caller n.base.caller };

    ghost is_refused = { λ session fault n. KeepsMap session n × WasNotWritten K.eq S.hash fault session.base.caller n.base.caller };

    fn to_value<R: Wait>(&mut self, rt: &R, alloc: Global) -> Result<Value, Fault> {
        let members = Members::new(alloc);
        let (end, told) = self.shows_to(rt, Pairs { members });
        match end {
            Ok(()) => told.members.into_value(),
            Err(fault) => Err(fault),
        }
    }
}

/// A session, by which pairs are stored.
#[derive(Drop)]
struct Filling<'f, 'm, R, K: Eq + Hash + Drop, V: Drop, S: Hashes<K>> {
    rt: &'f R,
    session: Session<'m, K, V, S>,
}

impl<'f, 'm, R: Wait, K: Eq + Hash + Drop, V: Drop, S: Hashes<K>> Puts<(K, V)>
    for Filling<'f, 'm, R, K, V, S> {
    ghost has_put = { λ filling pair n. PutsPair K.eq S.hash pair filling.session.base.caller n.session.base.caller };

    fn put(&mut self, pair: (K, V)) -> Result<(), Fault> {
        let (key, value) = pair;
        match self.session.insert(self.rt, key, value) {
            Ok(_) => Ok(()),
            Err(refused) => Err(refused.fault),
        }
    }
}

/// Stores the pairs that these members stand for in a map, one after another.
fn fill<R: Wait, K: JsonKey + Hash + Drop, V: JsonForm + Drop, S: Hashes<K>>(
    rt: &R,
    alloc: Global,
    map: &HashMap<K, V, S>,
    members: &Map<String, Value>,
) -> Result<(), JsonFault>
    ensures filled { OnOk result (IsFilledBy K.JsonForm.in_range K.JsonKey.key_text V.JsonForm.in_range V.JsonForm.json_value K.eq S.hash
        (λ c. (c.blocks.now ≡ map.now.home.blocks) × (c.seat.view.map ≡ map.now.seat.view.map)) (object (members_view members.now.entries))) }
    ensures fault { IfErr result (λ why. FirstFault K.JsonForm.in_range K.JsonKey.key_text V.JsonForm.in_range V.JsonForm.json_value why (members_view members.now.entries) ⊎ IsRefused why) }
{
    match map.session() {
        Ok(session) => {
            let mut filling = Filling { rt, session };
            put_members::<K, V, Filling<'_, '_, R, K, V, S>>(alloc, members, &mut filling)
        }
        Err(fault) => Err(JsonFault::Refused(fault)),
    }
}

/// Stores them in a map, and answers that.
fn filled<R: Wait, K: JsonKey + Hash + Drop, V: JsonForm + Drop, S: Hashes<K> + Drop>(
    rt: &R,
    alloc: Global,
    map: HashMap<K, V, S>,
    members: &Map<String, Value>,
) -> Result<HashMap<K, V, S>, JsonFault>
    ensures filled { IfOk result (λ it. IsFilledBy K.JsonForm.in_range K.JsonKey.key_text V.JsonForm.in_range V.JsonForm.json_value K.eq S.hash
        (λ c. (c.blocks.now ≡ it.home.blocks) × (c.seat.view.map ≡ it.seat.view.map)) (object (members_view members.now.entries))) }
    ensures same { IfOk result (λ it. it ≡ map) }
    ensures fault { IfErr result (λ why. FirstFault K.JsonForm.in_range K.JsonKey.key_text V.JsonForm.in_range V.JsonForm.json_value why (members_view members.now.entries) ⊎ IsRefused why) }
{
    match fill(rt, alloc, &map, members) {
        Ok(()) => Ok(map),
        Err(why) => Err(why),
    }
}

/// The map of the pairs that these members stand for.
fn map_of<R: Wait, K: JsonKey + Hash + Drop, V: JsonForm + Drop, S: BuildHasher + Drop>(
    rt: &R,
    alloc: Global,
    ids: &mut IdSource,
    hasher: S,
    members: &Map<String, Value>,
) -> Result<HashMap<K, V, S>, JsonFault>
    ensures filled { IfOk result (λ map. IsFilledBy K.JsonForm.in_range K.JsonKey.key_text V.JsonForm.in_range V.JsonForm.json_value K.eq
        (hashed_by S.Hasher.finish S.Hasher.write S.build_hasher K.hash_input) (λ c. (c.blocks.now ≡ map.home.blocks) × (c.seat.view.map ≡ map.seat.view.map)) (object (members_view members.now.entries))) }
    ensures number { IfOk result (λ map. given ids.old ≡ Ok map.collector.number) }
    ensures hasher { IfOk result (λ map. map.hasher ≡ hasher) }
    ensures mode { IfOk result (λ map. map.setting.mode ≡ Incremental 64) }
    ensures fault { IfErr result (λ why. FirstFault K.JsonForm.in_range K.JsonKey.key_text V.JsonForm.in_range V.JsonForm.json_value why (members_view members.now.entries) ⊎ IsRefused why) }
    ensures ids { ids.new ≡ following ids.old }
{
    match HashMap::with_hasher(alloc, ids, hasher) {
        Ok(map) => filled(rt, alloc, map, members),
        Err(fault) => Err(JsonFault::Refused(fault)),
    }
}

/// The members are read in the value's order, the name of each before its value, and the first fault counts: `BadKey`, `BadElement`, or `Refused`, where the source has no number
/// left, or memory, or the length of a table, was refused. What is no object is `NotAnObject`; the source is as it was then.
impl<K: JsonKey + Hash + Drop, V: JsonForm + Drop, S: BuildHasher + Drop> FromJson<S>
    for HashMap<K, V, S> {
    ghost is_read = { λ hasher next d map after. IsFilledBy K.JsonForm.in_range K.JsonKey.key_text V.JsonForm.in_range V.JsonForm.json_value K.eq
        (hashed_by S.Hasher.finish S.Hasher.write S.build_hasher K.hash_input) (λ c. (c.blocks.now ≡ map.home.blocks) × (c.seat.view.map ≡ map.seat.view.map)) d
        × (map.hasher ≡ hasher) × (map.setting.mode ≡ Incremental 64) × (given next ≡ Ok map.collector.number) × (after ≡ following next) };

    ghost is_unread = { λ why next d after. (IsNoObject why d × (after ≡ next)) ⊎ (HasFault K.JsonForm.in_range K.JsonKey.key_text V.JsonForm.in_range V.JsonForm.json_value why d × (after ≡ following next)) };

    fn from_value<R: Wait>(
        rt: &R,
        alloc: Global,
        ids: &mut IdSource,
        hasher: S,
        value: &Value,
    ) -> Result<Self, JsonFault> {
        match value.as_object() {
            Some(members) => map_of(rt, alloc, ids, hasher, members),
            None => Err(JsonFault::NotAnObject),
        }
    }
}
