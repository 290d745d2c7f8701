//! What maps and sets that threads share are written as in JSON, and what is read as one.
ghost use Rattle.std.specs.Prelude.{IfErr, IfOk, ℕ};
ghost use Rattle.seize_words.specs.declared.fault.Fault.{Fault as AFault};
ghost use Rattle.serde_json.specs.Data.{Data};
ghost use Rattle.serde_json.specs.View.{view};
ghost use Rattle.papaya_json.specs.Json.{Why};

use map_forms::JsonFault;
use papaya::IdSource;
use seize_words::Fault;
use serde_json::Value;
use std::alloc::Global;
use std::sync::Wait;

/// What is written as a JSON value by a session of it.
pub trait ToJson {
    // A walk has told what is written as this value: by whom it was before, and who it is then.
    ghost is_written: { Self → Data → Self → Type 0 };

    // Nothing was written, for this.
    ghost is_refused: { Self → AFault → Self → Type 0 };

    /// Writes what a walk of it tells, as `each` would show it. The faults are `Fault::Capacity` and `Fault::Memory`, of a table that the walk needs first, and
    /// `Fault::Memory`, where there was none for what it has told.
    fn to_value<R: Wait>(&mut self, rt: &R, alloc: Global) -> Result<Value, Fault>
        ensures written { IfOk result (λ value. is_written self.old (view value) self.new) }
        ensures refused { IfErr result (λ fault. is_refused self.old fault self.new) };
}

/// What is read of a JSON value, with a hasher, which a number of a source goes with.
pub trait FromJson<S>: Sized {
    // It is what is read of this value: with this hasher, and the next numbers of the source before and after.
    ghost is_read: { S → ℕ → Data → Self → ℕ → Type 0 };

    // Nothing is read of this value, for this: with the next numbers of the source before and after.
    ghost is_unread: { Why → ℕ → Data → ℕ → Type 0 };

    /// Reads what is written as this value, or answers the first fault in the value's order.
    fn from_value<R: Wait>(
        rt: &R,
        alloc: Global,
        ids: &mut IdSource,
        hasher: S,
        value: &Value,
    ) -> Result<Self, JsonFault>
        ensures read { IfOk result (λ it. is_read hasher ids.old (view value.now) it ids.new) }
        ensures fault { IfErr result (λ why. is_unread why ids.old (view value.now) ids.new) };
}
