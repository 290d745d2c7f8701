//! What maps and sets are written as in JSON, and what is read as one.
ghost use Rattle.std.specs.Prelude.{IfErr, IfOk};
ghost use Rattle.serde_json.specs.Data.{Data};
ghost use Rattle.serde_json.specs.View.{view};
ghost use Rattle.papaya_seq.specs.Json.{Why};

use map_forms::JsonFault;
use serde_json::Value;
use std::alloc::{AllocError, Global};

/// What is written as a JSON value.
pub trait ToJson {
    // This is the value that it is written as.
    ghost is_written: { Self → Data → Type 0 };

    /// Its value.
    fn to_value(&self, alloc: Global) -> Result<Value, AllocError>
        ensures { IfOk result (λ value. is_written self.now (view value)) };
}

/// What is read of a JSON value.
pub trait FromJson {
    // It is what is read of this value.
    ghost is_read: { Self → Data → Type 0 };

    // Nothing is read of this value, for this.
    ghost is_unread: { Why → Data → Type 0 };

    /// What is written as this value, or the first fault in the value's order.
    fn from_value(alloc: Global, value: &Value) -> Result<Self, JsonFault>
        ensures read { IfOk result (λ it. is_read it (view value.now)) }
        ensures fault { IfErr result (λ why. is_unread why (view value.now)) };
}
