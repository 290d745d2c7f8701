//! How numbers without a sign look in JSON.
ghost use Rattle.std.specs.Prelude.{◌≤◌, decimal, false, refl};
ghost use Rattle.std.proofs.Common.{arith};
ghost use Rattle.serde_json.specs.View.{view};
ghost use Rattle.map_forms.specs.Forms.{IsUnsigned, Reads, unsigned_value};
ghost use Rattle.map_forms.specs.Tells.{unsigned_texts_tell, unsigned_values_tell};
ghost use Rattle.map_forms.specs.declared.fault.JsonFault.TheVariants.{BadKey, BadElement};

use crate::decimals::unsigned_of;
use crate::fault::JsonFault;
use crate::json_form::JsonForm;
use crate::json_key::JsonKey;
use serde_json::Value;
use std::alloc::{AllocError, Global};

/// The number of this text, if it is not above the bound.
#[tactic(auto, using(crate::proofs::PlainTexts::no_other_unsigned))]
fn key_up_to(most: u64, text: &str) -> Result<u64, JsonFault>
    ensures { Reads false (λ number. number ≤ most) decimal BadKey text.now result }
{
    match unsigned_of(text) {
        Some(number) if number <= most => Ok(number),
        _ => Err(JsonFault::BadKey),
    }
}

/// The number that this value is, if it is not above the bound.
fn value_up_to(most: u64, value: &Value) -> Result<u64, JsonFault>
    ensures { Reads false (λ number. number ≤ most) unsigned_value BadElement (view value.now) result }
{
    match value.as_u64() {
        Some(number) if number <= most => Ok(number),
        _ => Err(JsonFault::BadElement),
    }
}

impl JsonForm for u8 {
    ghost in_range = { IsUnsigned 8 };

    ghost json_value = { unsigned_value };

    ghost takes_memory = { false };

    ghost json_value_tells = { λ x y _ _. unsigned_values_tell x y };

    ghost has_no_float = { λ _. refl };

    ghost is_read_back = { λ _. omega arith };

    fn to_value(&self, _alloc: Global) -> Result<Value, AllocError> {
        Ok(Value::from(*self))
    }

    fn from_value(_alloc: Global, value: &Value) -> Result<Self, JsonFault> {
        Ok(value_up_to(u64::from(u8::MAX), value)? as u8)
    }
}

impl JsonKey for u8 {
    ghost key_text = { decimal };

    ghost key_text_tells = { unsigned_texts_tell 8 (omega arith) };

    fn to_key_text(&self, alloc: Global) -> Result<String, AllocError> {
        let number = *self;
        number.to_string(alloc)
    }

    fn from_key_text(_alloc: Global, text: &str) -> Result<Self, JsonFault> {
        Ok(key_up_to(u64::from(u8::MAX), text)? as u8)
    }
}

impl JsonForm for u16 {
    ghost in_range = { IsUnsigned 16 };

    ghost json_value = { unsigned_value };

    ghost takes_memory = { false };

    ghost json_value_tells = { λ x y _ _. unsigned_values_tell x y };

    ghost has_no_float = { λ _. refl };

    ghost is_read_back = { λ _. omega arith };

    fn to_value(&self, _alloc: Global) -> Result<Value, AllocError> {
        Ok(Value::from(*self))
    }

    fn from_value(_alloc: Global, value: &Value) -> Result<Self, JsonFault> {
        Ok(value_up_to(u64::from(u16::MAX), value)? as u16)
    }
}

impl JsonKey for u16 {
    ghost key_text = { decimal };

    ghost key_text_tells = { unsigned_texts_tell 16 (omega arith) };

    fn to_key_text(&self, alloc: Global) -> Result<String, AllocError> {
        let number = *self;
        number.to_string(alloc)
    }

    fn from_key_text(_alloc: Global, text: &str) -> Result<Self, JsonFault> {
        Ok(key_up_to(u64::from(u16::MAX), text)? as u16)
    }
}

impl JsonForm for u32 {
    ghost in_range = { IsUnsigned 32 };

    ghost json_value = { unsigned_value };

    ghost takes_memory = { false };

    ghost json_value_tells = { λ x y _ _. unsigned_values_tell x y };

    ghost has_no_float = { λ _. refl };

    ghost is_read_back = { λ _. omega arith };

    fn to_value(&self, _alloc: Global) -> Result<Value, AllocError> {
        Ok(Value::from(*self))
    }

    fn from_value(_alloc: Global, value: &Value) -> Result<Self, JsonFault> {
        Ok(value_up_to(u64::from(u32::MAX), value)? as u32)
    }
}

impl JsonKey for u32 {
    ghost key_text = { decimal };

    ghost key_text_tells = { unsigned_texts_tell 32 (omega arith) };

    fn to_key_text(&self, alloc: Global) -> Result<String, AllocError> {
        let number = *self;
        number.to_string(alloc)
    }

    fn from_key_text(_alloc: Global, text: &str) -> Result<Self, JsonFault> {
        Ok(key_up_to(u64::from(u32::MAX), text)? as u32)
    }
}

impl JsonForm for u64 {
    ghost in_range = { IsUnsigned 64 };

    ghost json_value = { unsigned_value };

    ghost takes_memory = { false };

    ghost json_value_tells = { λ x y _ _. unsigned_values_tell x y };

    ghost has_no_float = { λ _. refl };

    ghost is_read_back = { λ _. omega arith };

    fn to_value(&self, _alloc: Global) -> Result<Value, AllocError> {
        Ok(Value::from(*self))
    }

    fn from_value(_alloc: Global, value: &Value) -> Result<Self, JsonFault> {
        value_up_to(u64::MAX, value)
    }
}

impl JsonKey for u64 {
    ghost key_text = { decimal };

    ghost key_text_tells = { unsigned_texts_tell 64 (omega arith) };

    fn to_key_text(&self, alloc: Global) -> Result<String, AllocError> {
        let number = *self;
        number.to_string(alloc)
    }

    fn from_key_text(_alloc: Global, text: &str) -> Result<Self, JsonFault> {
        key_up_to(u64::MAX, text)
    }
}
