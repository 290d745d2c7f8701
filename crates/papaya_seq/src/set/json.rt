//! JSON of a set for one owner: it is written as the array of its elements, in the order of their texts, and read of one in whatever order.
ghost use Rattle.map_forms.specs.Arrays.{IsNotRead};
ghost use Rattle.papaya_seq.specs.Json.{AreElementsOfArray, IsSetOf};
ghost use Rattle.papaya_seq.specs.Stored.{IsSetMadeOf};

use super::HashSet;
use crate::json::{FromJson, ToJson};
use map_forms::{Gathers, JsonFault, JsonForm, array_of, elements_of};
use owner_map::Receiver;
use seize_words::Fault;
use serde_json::Value;
use std::alloc::{AllocError, Global};
use std::hash::{BuildHasher, Hash};

impl<K: Eq + Hash + Drop, S: BuildHasher + Default + Drop> Gathers<K> for HashSet<K, S> {
    ghost elements = { λ set. set.elements };

    ghost made_of = { λ set given. IsSetMadeOf K.eq given set };

    fn none(alloc: Global) -> Result<Self, AllocError> {
        // A set with no element is refused for want of memory alone.
        match HashSet::new(alloc) {
            Ok(set) => Ok(set),
            Err(_) => Err(AllocError),
        }
    }

    fn put(&mut self, element: K) -> Result<(), Fault> {
        match self.insert(element) {
            Ok(_) => Ok(()),
            Err(refused) => Err(refused.fault),
        }
    }
}

/// The array that has the set's elements, each once, in the order of the bytes of their compact texts.
impl<K: JsonForm + Hash, S: BuildHasher, R: Receiver<(K, ())>> ToJson for HashSet<K, S, R> {
    ghost is_written = { λ set d. AreElementsOfArray K.JsonForm.in_range K.JsonForm.json_value set.elements d };

    fn to_value(&self, alloc: Global) -> Result<Value, AllocError> {
        array_of(alloc, self.iter())
    }
}

/// The elements may be in any order in the array; one that it has repeatedly counts once. The items are read in the array's order, and the first fault
/// counts: `BadElement`, or `Refused`, where memory or the length of a table was refused. What is no array is `NotAnArray`.
impl<K: JsonForm + Hash + Drop, S: BuildHasher + Default + Drop> FromJson for HashSet<K, S> {
    ghost is_read = { λ set d. IsSetOf K.JsonForm.in_range K.JsonForm.json_value K.eq d set };

    ghost is_unread = { λ why d. IsNotRead K.JsonForm.in_range K.JsonForm.json_value why d };

    fn from_value(alloc: Global, value: &Value) -> Result<Self, JsonFault> {
        match elements_of::<K, HashSet<K, S>>(alloc, value) {
            Ok(set) => Ok(set),
            Err(why) => Err(why),
        }
    }
}
