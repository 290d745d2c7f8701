//! Walks that are cloned, texts that are ordered, a reservation of more than a table can hold, and a value that has no text as a key.
ghost use Rattle.std.specs.Prelude.{false, refl};
ghost use Rattle.std.proofs.Common.{arith};
ghost use Rattle.map_forms.specs.Forms.{IsUnsigned, unsigned_value};
ghost use Rattle.map_forms.specs.Tells.{unsigned_values_tell};

use papaya_seq::{Fault, FromJson, HashMap, HashSet, JsonFault, JsonForm, Text, ToJson};
use serde_json::Value;
use std::alloc::{AllocError, Global};

/// How many pence something costs: as a value it is a number, and no key.
#[derive(Clone, Copy, PartialEq, Eq)]
struct Pence {
    count: u64,
}

impl JsonForm for Pence {
    ghost in_range = { λ pence. IsUnsigned 64 pence.count };

    ghost json_value = { λ pence. unsigned_value pence.count };

    ghost takes_memory = { false };

    ghost json_value_tells = { λ x y _ _. unsigned_values_tell x.count y.count };

    ghost has_no_float = { λ _. refl };

    ghost is_read_back = { λ _. omega arith };

    fn to_value(&self, alloc: Global) -> Result<Value, AllocError> {
        self.count.to_value(alloc)
    }

    fn from_value(alloc: Global, value: &Value) -> Result<Self, JsonFault> {
        Ok(Pence {
            count: u64::from_value(alloc, value)?,
        })
    }
}

/// Whether prices are read and written again as they were.
fn prices_are_read(alloc: Global) -> Result<bool, JsonFault> {
    let Ok(given) = Value::from_str(alloc, r#"{"fig":30,"plum":7}"#) else {
        return Ok(false);
    };
    let prices = HashMap::<Text, Pence>::from_value(alloc, &given)?;
    let plum = prices.get(&"plum").copied();
    Ok(plum == Some(Pence { count: 7 }) && prices.to_value(alloc)? == given)
}

/// Whether a walk over pairs and its clone show the same first pair.
fn pairs_are_walked_twice(map: &HashMap<u64, u64>) -> Result<bool, AllocError> {
    let mut walk = map.iter();
    let mut again = walk.clone()?;
    match (walk.next(), again.next()) {
        (Some((key, value)), Some((same_key, same_value))) => {
            Ok(key == same_key && value == same_value)
        }
        _ => Ok(false),
    }
}

/// So of keys and of values.
fn columns_are_walked_twice(map: &HashMap<u64, u64>) -> Result<bool, AllocError> {
    let mut keys = map.keys();
    let mut keys_again = keys.clone()?;
    let mut values = map.values();
    let mut values_again = values.clone()?;
    let (key, value) = (keys.next(), values.next());
    Ok(key.is_some() && key == keys_again.next() && value == values_again.next())
}

/// So of the elements of a set.
fn elements_are_walked_twice(set: &HashSet<u64>) -> Result<bool, AllocError> {
    let mut elements = set.iter();
    let mut again = elements.clone()?;
    let element = elements.next();
    Ok(element.is_some() && element == again.next())
}

/// A map of three pairs.
fn three_pairs(alloc: Global) -> Result<HashMap<u64, u64>, Fault> {
    HashMap::from_array(alloc, &[(1, 10), (2, 20), (3, 30)])
}

/// A set of two elements.
fn two_elements(alloc: Global) -> Result<HashSet<u64>, Fault> {
    HashSet::from_array(alloc, &[1, 2])
}

fn map_walks_are_cloned(alloc: Global) -> Result<bool, Fault> {
    let map = three_pairs(alloc)?;
    Ok(pairs_are_walked_twice(&map)? && columns_are_walked_twice(&map)?)
}

fn set_walks_are_cloned(alloc: Global) -> Result<bool, Fault> {
    let set = two_elements(alloc)?;
    Ok(elements_are_walked_twice(&set)?)
}

/// Whether texts stand in the order of their bytes.
fn texts_are_ordered(alloc: Global) -> Result<bool, AllocError> {
    let (fig, plum) = (Text::new(alloc, "fig")?, Text::new(alloc, "plum")?);
    let (capital, longer) = (Text::new(alloc, "Zebra")?, Text::new(alloc, "figs")?);
    Ok(fig < plum && capital < fig && fig < longer && longer < plum && !(fig < fig))
}

/// Whether room for more pairs than a table can hold is refused, with the pair still there.
fn too_much_is_refused(alloc: Global) -> Result<bool, Fault> {
    let mut map = HashMap::<u64, u64>::from_array(alloc, &[(1, 10)])?;
    let refused = map.reserve(u64::MAX) == Err(Fault::Capacity);
    Ok(refused && map.get(&1) == Some(&10))
}

#[test]
fn walks_are_cloned_texts_ordered_and_values_need_no_text(rt: HostRuntime) {
    assert!(rt; map_walks_are_cloned(rt.alloc()) == Ok(true));
    assert!(rt; set_walks_are_cloned(rt.alloc()) == Ok(true));
    assert!(rt; texts_are_ordered(rt.alloc()) == Ok(true));
    assert!(rt; too_much_is_refused(rt.alloc()) == Ok(true));
    assert!(rt; prices_are_read(rt.alloc()) == Ok(true));
}
