//! How keys look in JSON.
ghost use Rattle.std.specs.Prelude.{◌≡◌, ◌↔◌, ℕ, List, IfOk, IsTrue, string_bytes};
ghost use Rattle.map_forms.specs.Forms.{Reads};
ghost use Rattle.map_forms.specs.declared.fault.JsonFault.TheVariants.{BadKey};

use crate::fault::JsonFault;
use crate::json_form::JsonForm;
use std::alloc::{AllocError, Global};

/// What can be a key of a map that is written in JSON: it has one text, too.
pub trait JsonKey: JsonForm {
    // The text that it is written as where it is a key.
    ghost key_text: { Self → List ℕ };

    /// Its text as a key.
    fn to_key_text(&self, alloc: Global) -> Result<String, AllocError>
        ensures in_range { Self.JsonForm.in_range self.now }
        ensures text { IfOk result (λ text. string_bytes text ≡ key_text self.now) };

    /// The key of this text. BadKey where no key is written so, Memory where there was none for it.
    fn from_key_text(alloc: Global, text: &str) -> Result<Self, JsonFault>
        ensures { Reads Self.JsonForm.takes_memory Self.JsonForm.in_range key_text BadKey text.now result };

    // Just what is equal has the same text.
    ghost key_text_tells: { (x y : Self) → Self.JsonForm.in_range x → Self.JsonForm.in_range y → IsTrue (Self.eq x y) ↔ (key_text x ≡ key_text y) };
}
