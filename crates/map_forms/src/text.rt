//! Keys that are texts.
ghost use Rattle.std.specs.Prelude.{◌≡◌, IfOk, Some, ⊤, true, refl};
ghost use Rattle.serde_json.specs.Data.{string};
ghost use Rattle.map_forms.specs.Tells.{text_values_tell};
ghost use Rattle.std.specs.Str.{bytes_eq};
ghost use Rattle.std.specs.Fmt.{debug_str};
ghost use Rattle.std.specs.Hash as fed;
ghost use Rattle.std.specs.Ordering.{nat_cmp};
ghost use Rattle.std.specs.Cmp.{partial_equiv_from_equiv};
ghost use Rattle.std.specs.Cmp.Lexicographic.{nat_list_cmp_total, nat_list_eq_equiv, slice_cmp, texts_po, texts_ties};
ghost use Rattle.std.proofs.Common.{arith, rules};
ghost use Rattle.std.proofs.lemmas.Slice.Eq.{bytes_eq-Decides};

use crate::fault::JsonFault;
use crate::json_form::JsonForm;
use crate::json_key::JsonKey;
use map_tables::Equivalent;
use serde_json::Value;
use std::alloc::{AllocError, Global};
use std::cmp::Ordering;
use std::fmt;
use std::hash::{Hash, Hasher};
use std::marker::Model;

/// A text that a map owns as a key. Clauses see the list of its bytes.
#[derive(Drop)]
pub struct Text {
    text: String,
}

impl Model for Text {
    ghost use Rattle.std.specs.Prelude.{ℕ, List, string_bytes};

    ghost Value = { List ℕ };

    ghost view = { λ text. string_bytes text.text };
}

impl Text {
    /// Makes a copy of this text.
    pub fn new(alloc: Global, text: &str) -> Result<Self, AllocError>
        ensures { IfOk result (λ copy. copy ≡ text.now) }
    {
        Ok(Text {
            text: String::from_str(alloc, text)?,
        })
    }

    /// Returns the text.
    pub fn as_str(&self) -> &str
        ensures { result.now ≡ self.now }
    {
        self.text.as_str()
    }
}

impl PartialEq for Text {
    ghost eq = { bytes_eq };

    ghost laws = { partial_equiv_from_equiv nat_list_eq_equiv };

    fn eq(&self, other: &Self) -> bool {
        self.text == other.text
    }
}

impl Eq for Text {
    ghost laws = { nat_list_eq_equiv };
}

/// By the bytes, as the order of `String`.
impl PartialOrd for Text {
    ghost partial_cmp = { λ text other. Some (slice_cmp nat_cmp text other) };

    ghost laws = { texts_po };

    fn partial_cmp(&self, other: &Self) -> Option<Ordering> {
        Some(self.cmp(other))
    }
}

impl Ord for Text {
    ghost cmp = { slice_cmp nat_cmp };

    ghost total = { nat_list_cmp_total };

    ghost matches_partial_cmp = { λ _ _. refl };

    ghost matches_eq = { texts_ties };

    fn cmp(&self, other: &Self) -> Ordering {
        self.text.cmp(&other.text)
    }
}

impl Hash for Text {
    ghost hash_input = { fed.str };

    ghost respects_eq = { Prim.search rules };

    fn hash<H: Hasher>(&self, state: &mut H) {
        self.text.hash(state);
    }
}

/// A map whose keys are texts is asked with a lent one.
impl<'a> Equivalent<Text> for &'a str {
    ghost use Rattle.std.specs.Prelude.{refl};

    ghost stands_for = { λ asked. asked.now };

    ghost equivalent = { λ asked key. bytes_eq asked.now key };

    ghost stands = { λ _ _. refl };

    ghost hashed = { λ _. refl };

    fn equivalent(&self, key: &Text) -> bool {
        *self == key.text.as_str()
    }
}

impl From<String> for Text {
    ghost use Rattle.std.specs.Prelude.{string_bytes};

    ghost from_gives = { λ string text. text ≡ string_bytes string };

    fn from(text: String) -> Text {
        Text { text }
    }
}

impl Clone for Text {
    ghost is_clone = { λ text copy. copy ≡ text };

    fn clone(&self) -> Result<Self, AllocError> {
        Ok(Text {
            text: self.text.clone()?,
        })
    }
}

impl fmt::Display for Text {
    ghost output = { λ text. Some text };

    fn fmt<W: fmt::Write>(&self, f: &mut fmt::Formatter<W>) -> fmt::Result {
        f.write_str(self.as_str())
    }
}

impl fmt::Debug for Text {
    ghost debug_output = { debug_str };

    fn fmt<W: fmt::Write>(&self, f: &mut fmt::Formatter<W>) -> fmt::Result {
        fmt::Debug::fmt(&self.text, f)
    }
}

impl JsonForm for Text {
    ghost in_range = { λ _. ⊤ };

    ghost json_value = { string };

    ghost takes_memory = { true };

    ghost json_value_tells = { λ x y _ _. text_values_tell x y };

    ghost has_no_float = { λ _. refl };

    ghost is_read_back = { λ _. omega arith };

    fn to_value(&self, alloc: Global) -> Result<Value, AllocError> {
        Value::try_from_str(alloc, self.as_str())
    }

    fn from_value(alloc: Global, value: &Value) -> Result<Self, JsonFault> {
        match value.as_str() {
            Some(text) => Ok(Text::new(alloc, text)?),
            None => Err(JsonFault::BadElement),
        }
    }
}

impl JsonKey for Text {
    ghost key_text = { λ text. text };

    ghost key_text_tells = { λ x y _ _. bytes_eq-Decides x y };

    fn to_key_text(&self, alloc: Global) -> Result<String, AllocError> {
        String::from_str(alloc, self.as_str())
    }

    fn from_key_text(alloc: Global, text: &str) -> Result<Self, JsonFault> {
        Ok(Text::new(alloc, text)?)
    }
}
