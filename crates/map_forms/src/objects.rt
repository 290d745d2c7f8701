//! Pairs as the members of a JSON object, and the pairs that members stand for.
ghost use Rattle.std.specs.Prelude.{◌≡◌, ◌⊎◌, List, map, IfErr, IfOk, OnOk};
ghost use Rattle.std.specs.Iterator.{IsFinite, Drains};
ghost use Rattle.std.specs.Borrow.{Bor};
ghost use Rattle.std.specs.List.{All};
ghost use Rattle.serde_json.specs.Data.{object, no_members, put};
ghost use Rattle.serde_json.specs.View.{view, members_view};
ghost use Rattle.map_forms.specs.Objects.{IsNoPair, IsPairOf, IsRefusal, members_with};

use crate::fault::JsonFault;
use crate::json_form::JsonForm;
use crate::json_key::JsonKey;
use serde_json::{Map, Value};
use std::alloc::{AllocError, Global};

/// Puts a pair among the members of an object, its key's text for a name. It is in the place of a member of that name, if there was one.
pub fn put_member<K: JsonKey, V: JsonForm>(
    alloc: Global,
    members: &mut Map<String, Value>,
    key: &K,
    value: &V,
) -> Result<(), AllocError>
    ensures in_range { IfOk result (λ _. K.JsonForm.in_range key.now × V.JsonForm.in_range value.now) }
    ensures members { OnOk result (members_view members.new.entries ≡ put (K.JsonKey.key_text key.now) (V.JsonForm.json_value value.now) (members_view members.old.entries)) }
{
    let name = key.to_key_text(alloc)?;
    let value = value.to_value(alloc)?;
    let _ = members.insert(name, value)?;
    Ok(())
}

/// Returns the object that these pairs are written as.
pub fn object_of<'a, K: JsonKey + 'a, V: JsonForm + 'a, I: Iterator<Item = (&'a K, &'a V)>>(
    alloc: Global,
    pairs: I,
) -> Result<Value, AllocError>
    requires can { I.can_next pairs }
    requires finite { IsFinite (I.remaining pairs) }
    ensures { IfOk result (λ written. (xs : List (Bor K × Bor V)) × Drains I.next_gives pairs xs × All (λ x. K.JsonForm.in_range x.0.now × V.JsonForm.in_range x.1.now) xs
        × (view written ≡ object (members_with K.JsonKey.key_text V.JsonForm.json_value no_members (map (λ x. (x.0.now, x.1.now)) xs)))) }
{
    let mut members = Map::new(alloc);
    for (key, value) in pairs {
        put_member(alloc, &mut members, key, value)?;
    }
    Ok(Value::Object(members))
}

/// Returns the pair that a member of an object stands for: the key of its name, which is read first, and the value of what it has. The faults are `BadKey`, `BadElement`, and
/// `Refused`, where there was no memory for one of them.
pub fn pair_of<K: JsonKey + Drop, V: JsonForm + Drop>(
    alloc: Global,
    name: &str,
    value: &Value,
) -> Result<(K, V), JsonFault>
    ensures pair { IfOk result (λ x. IsPairOf K.JsonForm.in_range K.JsonKey.key_text V.JsonForm.in_range V.JsonForm.json_value name.now (view value.now) x) }
    ensures fault { IfErr result (λ why. IsNoPair K.JsonForm.in_range K.JsonKey.key_text V.JsonForm.in_range V.JsonForm.json_value why name.now (view value.now) ⊎ IsRefusal why) }
{
    let key = K::from_key_text(alloc, name)?;
    let value = V::from_value(alloc, value)?;
    Ok((key, value))
}
