//! Objects and arrays that grow by what is told, as long as there is memory.
ghost use Rattle.std.specs.Prelude.{◌≡◌, [], false, string_cmp, IfErr, IfOk};
ghost use Rattle.std.specs.BTreeMap.{IsOrdered, values};
ghost use Rattle.map_forms.specs.Growing.{HasItems, PutsItem, PutsMember};
ghost use Rattle.seize_words.specs.declared.fault.Fault.TheVariants.{Memory};
ghost use Rattle.serde_json.specs.Data.{no_members, object};
ghost use Rattle.serde_json.specs.View.{members_view, view};

use crate::{JsonForm, JsonKey, in_order, put_item, put_member};
use seize_words::Fault;
use serde_json::{Map, Value};
use std::alloc::Global;

/// The members of an object, and whether memory was refused to one.
#[derive(Drop)]
pub struct Members {
    alloc: Global,
    members: Map<String, Value>,
    refused: bool,
}

impl Members {
    /// Returns none.
    pub fn new(alloc: Global) -> Self
        ensures members { members_view result.members.entries ≡ no_members }
        ensures refused { result.refused ≡ false }
    {
        Members {
            alloc,
            members: Map::new(alloc),
            refused: false,
        }
    }

    /// Puts a pair among them, its key's text for a name, in the place of a member of that name. It is left out where memory is refused, or was before.
    pub fn put<K: JsonKey, V: JsonForm>(&mut self, key: &K, value: &V)
        ensures { PutsMember K.JsonForm.in_range K.JsonKey.key_text V.JsonForm.in_range V.JsonForm.json_value key.now value.now
            self.old.refused (members_view self.old.members.entries) self.new.refused (members_view self.new.members.entries) }
    {
        if self.refused {
            return;
        }
        match put_member(self.alloc, &mut self.members, key, value) {
            Ok(()) => {}
            Err(_) => self.refused = true,
        }
    }

    /// Returns the object that has them, or `Fault::Memory`, where that was refused to one.
    pub fn into_value(self) -> Result<Value, Fault>
        ensures all { IfOk result (λ value. self.refused ≡ false) }
        ensures value { IfOk result (λ value. view value ≡ object (members_view self.members.entries)) }
        ensures fault { IfErr result (λ fault. fault ≡ Memory) }
    {
        let Members {
            alloc: _,
            members,
            refused,
        } = self;
        if refused {
            Err(Fault::Memory)
        } else {
            Ok(Value::Object(members))
        }
    }
}

/// The items of an array, each by its text, and whether memory was refused to one.
#[derive(Drop)]
pub struct Items {
    alloc: Global,
    items: Map<String, Value>,
    refused: bool,
}

impl Items {
    /// Returns none.
    pub fn new(alloc: Global) -> Self
        ensures items { result.items.entries ≡ [] }
        ensures ordered { IsOrdered string_cmp result.items }
        ensures refused { result.refused ≡ false }
    {
        Items {
            alloc,
            items: Map::new(alloc),
            refused: false,
        }
    }

    /// Puts an element among them, which it counts once. It is left out where memory is refused, or was before.
    pub fn put<K: JsonForm>(&mut self, element: &K)
        ensures { PutsItem K.JsonForm.in_range K.JsonForm.json_value element.now self.old.refused self.old.items self.new.refused self.new.items }
    {
        if self.refused {
            return;
        }
        match put_item(self.alloc, &mut self.items, element) {
            Ok(()) => {}
            Err(_) => self.refused = true,
        }
    }

    /// Returns the array of them, in the order of their texts, or `Fault::Memory`, where that was refused to one, or to the array.
    pub fn into_value(self) -> Result<Value, Fault>
        ensures all { IfOk result (λ value. self.refused ≡ false) }
        ensures value { IfOk result (HasItems (values self.items)) }
        ensures fault { IfErr result (λ fault. fault ≡ Memory) }
    {
        let Items {
            alloc,
            items,
            refused,
        } = self;
        if refused {
            return Err(Fault::Memory);
        }
        match in_order(alloc, items) {
            Ok(listed) => Ok(Value::Array(listed)),
            Err(_) => Err(Fault::Memory),
        }
    }
}
