//! How values look in JSON.
ghost use Rattle.std.specs.Prelude.{◌≡◌, ◌≤◌, ◌↔◌, Bool, IfOk, IfErr, IsTrue, false};
ghost use Rattle.serde_json.specs.Data.{Data, depth};
ghost use Rattle.serde_json.specs.Read.{max_depth};
ghost use Rattle.serde_json.specs.View.{view};
ghost use Rattle.serde_json.specs.Written.{has_float};
ghost use Rattle.map_forms.specs.Forms.{Reads};
ghost use Rattle.map_forms.specs.declared.fault.JsonFault.TheVariants.{BadElement};

use crate::fault::JsonFault;
use serde_json::Value;
use std::alloc::{AllocError, Global};

/// What has a form in JSON: one value, as a value of a map or an element of a set.
pub trait JsonForm: Eq {
    // What holds of each value of the type.
    ghost in_range: { Self → Type 0 };

    // The value that it is written as.
    ghost json_value: { Self → Data };

    // Whether a value of the type has memory of its own.
    ghost takes_memory: { Bool };

    /// Its value.
    fn to_value(&self, alloc: Global) -> Result<Value, AllocError>
        ensures in_range { in_range self.now }
        ensures value { IfOk result (λ value. view value ≡ json_value self.now) }
        ensures memory { IfErr result (λ _. IsTrue takes_memory) };

    /// What this value stands for. BadElement where nothing is written so, Memory where there was none for it.
    fn from_value(alloc: Global, value: &Value) -> Result<Self, JsonFault>
        ensures { Reads takes_memory in_range json_value BadElement (view value.now) result };

    // Just what is equal has the same value.
    ghost json_value_tells: { (x y : Self) → in_range x → in_range y → IsTrue (Self.eq x y) ↔ (json_value x ≡ json_value y) };

    // Its value is no float, so just one text is its compact one.
    ghost has_no_float: { (x : Self) → has_float (json_value x) ≡ false };

    // It nests no deeper than what is read back, so no other value has its compact text.
    ghost is_read_back: { (x : Self) → depth (json_value x) ≤ max_depth };
}
