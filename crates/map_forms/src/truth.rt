//! How truth values look in JSON.
ghost use Rattle.std.specs.Prelude.{⊤, false, refl};
ghost use Rattle.std.proofs.Common.{arith};
ghost use Rattle.serde_json.specs.Data.{boolean};
ghost use Rattle.map_forms.specs.Forms.{bool_text};
ghost use Rattle.map_forms.specs.Tells.{bool_texts_tell, bool_values_tell};

use crate::fault::JsonFault;
use crate::json_form::JsonForm;
use crate::json_key::JsonKey;
use serde_json::Value;
use std::alloc::{AllocError, Global};

impl JsonForm for bool {
    ghost in_range = { λ _. ⊤ };

    ghost json_value = { boolean };

    ghost takes_memory = { false };

    ghost json_value_tells = { λ x y _ _. bool_values_tell x y };

    ghost has_no_float = { λ _. refl };

    ghost is_read_back = { λ _. omega arith };

    fn to_value(&self, _alloc: Global) -> Result<Value, AllocError> {
        Ok(Value::from(*self))
    }

    fn from_value(_alloc: Global, value: &Value) -> Result<Self, JsonFault> {
        value.as_bool().ok_or(JsonFault::BadElement)
    }
}

impl JsonKey for bool {
    ghost key_text = { bool_text };

    ghost key_text_tells = { λ x y _ _. bool_texts_tell x y };

    fn to_key_text(&self, alloc: Global) -> Result<String, AllocError> {
        String::from_str(alloc, if *self { "true" } else { "false" })
    }

    fn from_key_text(_alloc: Global, text: &str) -> Result<Self, JsonFault> {
        match text {
            "true" => Ok(true),
            "false" => Ok(false),
            _ => Err(JsonFault::BadKey),
        }
    }
}
