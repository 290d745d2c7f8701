//! JSON of a set that threads share: a session writes the array of the elements that a walk has told, in the order of their texts, and a set is read of one in whatever order.
ghost use Rattle.std.specs.Prelude.{◌≡◌, ◌⊎◌, Ok, IfErr, IfOk, OnOk};
ghost use Rattle.map_forms.specs.Arrays.{FirstBad};
ghost use Rattle.map_forms.specs.Growing.{PutsItem};
ghost use Rattle.map_forms.specs.Reading.{IsRefused};
ghost use Rattle.map_tables.specs.declared.resize_mode.ResizeMode.TheVariants.{Incremental};
ghost use Rattle.papaya_json.specs.Json.{AreWrittenAs, HasBadItem, IsFilledWith, IsNoArray, WasNotWritten};
ghost use Rattle.papaya.specs.OneSet.{PutsKey};
ghost use Rattle.papaya.specs.Given.OwnedOwned.{hashed_by};
ghost use Rattle.papaya.specs.Given.SessionsKept.{KeepsMap};
ghost use Rattle.seize.specs.Ids.{following, given};
ghost use Rattle.serde_json.specs.Data.{array};
ghost use Rattle.serde_json.specs.View.{items_view, view};

use crate::forms::{FromJson, ToJson};
use map_forms::{Items, JsonFault, JsonForm, Puts, put_items};
use map_tables::Hashes;
use papaya::{HashSet, IdSource, Onlooker, SetSession};
use seize_words::Fault;
use serde_json::Value;
use std::alloc::Global;
use std::hash::{BuildHasher, Hash};
use std::sync::Wait;

/// The elements that a walk has told so far, as the items of an array.
#[derive(Drop)]
struct Elements {
    items: Items,
}

impl<K: JsonForm> Onlooker<K, ()> for Elements {
    ghost may_see = { λ elements. Unit {0} };

    ghost has_seen = { λ elements key value n. PutsItem K.JsonForm.in_range K.JsonForm.json_value key elements.items.refused elements.items.items n.items.refused n.items.items };

    fn sees(&mut self, key: &K, _: &()) {
        self.items.put(key);
    }
}

/// The array that has the elements that the walk tells, each once, in the order of the bytes of their compact texts.
impl<'m, K: JsonForm + Hash + Drop, S: Hashes<K>> ToJson for SetSession<'m, K, S> {
    ghost is_written = { λ set d n. KeepsMap set.session n.session × AreWrittenAs K.JsonForm.in_range K.JsonForm.json_value K.eq S.hash d set.session.base.caller n.session.base.caller };

    ghost is_refused = { λ set fault n. KeepsMap set.session n.session × WasNotWritten K.eq S.hash fault set.session.base.caller n.session.base.caller };

    fn to_value<R: Wait>(&mut self, rt: &R, alloc: Global) -> Result<Value, Fault> {
        let items = Items::new(alloc);
        let (end, told) = self.shows_to(rt, Elements { items });
        match end {
            Ok(()) => told.items.into_value(),
            Err(fault) => Err(fault),
        }
    }
}

/// A session, by which elements are put.
#[derive(Drop)]
struct Filling<'f, 'm, R, K: Eq + Hash + Drop, S: Hashes<K>> {
    rt: &'f R,
    session: SetSession<'m, K, S>,
}

impl<'f, 'm, R: Wait, K: Eq + Hash + Drop, S: Hashes<K>> Puts<K> for Filling<'f, 'm, R, K, S> {
    ghost has_put = { λ filling key n. PutsKey K.eq S.hash key filling.session.session.base.caller n.session.session.base.caller };

    fn put(&mut self, key: K) -> Result<(), Fault> {
        match self.session.insert(self.rt, key) {
            Ok(_) => Ok(()),
            Err(refused) => Err(refused.fault),
        }
    }
}

/// Puts the elements that these items stand for into a set, one after another.
fn fill<R: Wait, K: JsonForm + Hash + Drop, S: Hashes<K>>(
    rt: &R,
    alloc: Global,
    set: &HashSet<K, S>,
    items: &[Value],
) -> Result<(), JsonFault>
    ensures filled { OnOk result (IsFilledWith K.JsonForm.in_range K.JsonForm.json_value K.eq S.hash
        (λ c. (c.blocks.now ≡ set.now.map.home.blocks) × (c.seat.view.map ≡ set.now.map.seat.view.map)) (array (items_view items.now))) }
    ensures fault { IfErr result (λ why. FirstBad K.JsonForm.in_range K.JsonForm.json_value why (items_view items.now) ⊎ IsRefused why) }
{
    match set.session() {
        Ok(session) => {
            let mut filling = Filling { rt, session };
            put_items::<K, Filling<'_, '_, R, K, S>>(alloc, items, &mut filling)
        }
        Err(fault) => Err(JsonFault::Refused(fault)),
    }
}

/// Puts them into a set, and answers that.
fn filled<R: Wait, K: JsonForm + Hash + Drop, S: Hashes<K> + Drop>(
    rt: &R,
    alloc: Global,
    set: HashSet<K, S>,
    items: &[Value],
) -> Result<HashSet<K, S>, JsonFault>
    ensures filled { IfOk result (λ it. IsFilledWith K.JsonForm.in_range K.JsonForm.json_value K.eq S.hash
        (λ c. (c.blocks.now ≡ it.map.home.blocks) × (c.seat.view.map ≡ it.map.seat.view.map)) (array (items_view items.now))) }
    ensures same { IfOk result (λ it. it ≡ set) }
    ensures fault { IfErr result (λ why. FirstBad K.JsonForm.in_range K.JsonForm.json_value why (items_view items.now) ⊎ IsRefused why) }
{
    match fill(rt, alloc, &set, items) {
        Ok(()) => Ok(set),
        Err(why) => Err(why),
    }
}

/// The set of the elements that these items stand for.
fn set_of<R: Wait, K: JsonForm + Hash + Drop, S: BuildHasher + Drop>(
    rt: &R,
    alloc: Global,
    ids: &mut IdSource,
    hasher: S,
    items: &[Value],
) -> Result<HashSet<K, S>, JsonFault>
    ensures filled { IfOk result (λ set. IsFilledWith K.JsonForm.in_range K.JsonForm.json_value K.eq (hashed_by S.Hasher.finish S.Hasher.write S.build_hasher K.hash_input)
        (λ c. (c.blocks.now ≡ set.map.home.blocks) × (c.seat.view.map ≡ set.map.seat.view.map)) (array (items_view items.now))) }
    ensures number { IfOk result (λ set. given ids.old ≡ Ok set.map.collector.number) }
    ensures hasher { IfOk result (λ set. set.map.hasher ≡ hasher) }
    ensures mode { IfOk result (λ set. set.map.setting.mode ≡ Incremental 64) }
    ensures fault { IfErr result (λ why. FirstBad K.JsonForm.in_range K.JsonForm.json_value why (items_view items.now) ⊎ IsRefused why) }
    ensures ids { ids.new ≡ following ids.old }
{
    match HashSet::with_hasher(alloc, ids, hasher) {
        Ok(set) => filled(rt, alloc, set, items),
        Err(fault) => Err(JsonFault::Refused(fault)),
    }
}

/// The elements may be in any order in the array; one that it has repeatedly counts once. The items are read in the array's order, and the first fault counts: `BadElement`, or
/// `Refused`, where the source has no number left, or memory, or the length of a table, was refused. What is no array is `NotAnArray`; the source is as it was then.
impl<K: JsonForm + Hash + Drop, S: BuildHasher + Drop> FromJson<S> for HashSet<K, S> {
    ghost is_read = { λ hasher next d set after. IsFilledWith K.JsonForm.in_range K.JsonForm.json_value K.eq (hashed_by S.Hasher.finish S.Hasher.write S.build_hasher K.hash_input)
        (λ c. (c.blocks.now ≡ set.map.home.blocks) × (c.seat.view.map ≡ set.map.seat.view.map)) d
        × (set.map.hasher ≡ hasher) × (set.map.setting.mode ≡ Incremental 64) × (given next ≡ Ok set.map.collector.number) × (after ≡ following next) };

    ghost is_unread = { λ why next d after. (IsNoArray why d × (after ≡ next)) ⊎ (HasBadItem K.JsonForm.in_range K.JsonForm.json_value why d × (after ≡ following next)) };

    fn from_value<R: Wait>(
        rt: &R,
        alloc: Global,
        ids: &mut IdSource,
        hasher: S,
        value: &Value,
    ) -> Result<Self, JsonFault> {
        match value.as_array() {
            Some(items) => set_of(rt, alloc, ids, hasher, items),
            None => Err(JsonFault::NotAnArray),
        }
    }
}
