//! How numbers with a sign look in JSON.
ghost use Rattle.std.specs.Prelude.{◌≤ℤ◌, ◌-◌, ◌^◌, false};
ghost use Rattle.std.specs.Fmt.{signed_decimal};
ghost use Rattle.std.proofs.Common.{arith};
ghost use Rattle.serde_json.specs.View.{view};
ghost use Rattle.map_forms.specs.Forms.{IsSigned, Reads, signed_value};
ghost use Rattle.map_forms.specs.Tells.{signed_has_no_float, signed_texts_tell, signed_values_tell};
ghost use Rattle.map_forms.specs.declared.fault.JsonFault.TheVariants.{BadKey, BadElement};

use crate::decimals::signed_of;
use crate::fault::JsonFault;
use crate::json_form::JsonForm;
use crate::json_key::JsonKey;
use serde_json::Value;
use std::alloc::{AllocError, Global};

/// The number of this text, if it is within the bounds.
fn key_within(least: i64, most: i64, text: &str) -> Result<i64, JsonFault>
    ensures { Reads false (λ number. (least ≤ℤ number) × (number ≤ℤ most)) signed_decimal BadKey text.now result }
{
    match signed_of(text) {
        Some(number) if least <= number && number <= most => Ok(number),
        _ => Err(JsonFault::BadKey),
    }
}

/// The number that this value is, if it is within the bounds.
fn value_within(least: i64, most: i64, value: &Value) -> Result<i64, JsonFault>
    ensures { Reads false (λ number. (least ≤ℤ number) × (number ≤ℤ most)) signed_value BadElement (view value.now) result }
{
    let Value::Number(number) = value else {
        return Err(JsonFault::BadElement);
    };
    match number.as_i64() {
        Some(number) if least <= number && number <= most => Ok(number),
        _ => Err(JsonFault::BadElement),
    }
}

impl JsonForm for i8 {
    ghost in_range = { IsSigned 8 };

    ghost json_value = { signed_value };

    ghost takes_memory = { false };

    ghost json_value_tells = { λ x y _ _. signed_values_tell x y };

    ghost has_no_float = { signed_has_no_float };

    ghost is_read_back = { λ _. omega arith };

    fn to_value(&self, _alloc: Global) -> Result<Value, AllocError> {
        Ok(Value::from(*self))
    }

    fn from_value(_alloc: Global, value: &Value) -> Result<Self, JsonFault> {
        Ok(value_within(i64::from(i8::MIN), i64::from(i8::MAX), value)? as i8)
    }
}

impl JsonKey for i8 {
    ghost key_text = { signed_decimal };

    ghost key_text_tells = { signed_texts_tell (2 ^ 7 - 1) (omega arith) };

    fn to_key_text(&self, alloc: Global) -> Result<String, AllocError> {
        let number = *self;
        number.to_string(alloc)
    }

    fn from_key_text(_alloc: Global, text: &str) -> Result<Self, JsonFault> {
        Ok(key_within(i64::from(i8::MIN), i64::from(i8::MAX), text)? as i8)
    }
}

impl JsonForm for i16 {
    ghost in_range = { IsSigned 16 };

    ghost json_value = { signed_value };

    ghost takes_memory = { false };

    ghost json_value_tells = { λ x y _ _. signed_values_tell x y };

    ghost has_no_float = { signed_has_no_float };

    ghost is_read_back = { λ _. omega arith };

    fn to_value(&self, _alloc: Global) -> Result<Value, AllocError> {
        Ok(Value::from(*self))
    }

    fn from_value(_alloc: Global, value: &Value) -> Result<Self, JsonFault> {
        Ok(value_within(i64::from(i16::MIN), i64::from(i16::MAX), value)? as i16)
    }
}

impl JsonKey for i16 {
    ghost key_text = { signed_decimal };

    ghost key_text_tells = { signed_texts_tell (2 ^ 15 - 1) (omega arith) };

    fn to_key_text(&self, alloc: Global) -> Result<String, AllocError> {
        let number = *self;
        number.to_string(alloc)
    }

    fn from_key_text(_alloc: Global, text: &str) -> Result<Self, JsonFault> {
        Ok(key_within(i64::from(i16::MIN), i64::from(i16::MAX), text)? as i16)
    }
}

impl JsonForm for i32 {
    ghost in_range = { IsSigned 32 };

    ghost json_value = { signed_value };

    ghost takes_memory = { false };

    ghost json_value_tells = { λ x y _ _. signed_values_tell x y };

    ghost has_no_float = { signed_has_no_float };

    ghost is_read_back = { λ _. omega arith };

    fn to_value(&self, _alloc: Global) -> Result<Value, AllocError> {
        Ok(Value::from(*self))
    }

    fn from_value(_alloc: Global, value: &Value) -> Result<Self, JsonFault> {
        Ok(value_within(i64::from(i32::MIN), i64::from(i32::MAX), value)? as i32)
    }
}

impl JsonKey for i32 {
    ghost key_text = { signed_decimal };

    ghost key_text_tells = { signed_texts_tell (2 ^ 31 - 1) (omega arith) };

    fn to_key_text(&self, alloc: Global) -> Result<String, AllocError> {
        let number = *self;
        number.to_string(alloc)
    }

    fn from_key_text(_alloc: Global, text: &str) -> Result<Self, JsonFault> {
        Ok(key_within(i64::from(i32::MIN), i64::from(i32::MAX), text)? as i32)
    }
}

impl JsonForm for i64 {
    ghost in_range = { IsSigned 64 };

    ghost json_value = { signed_value };

    ghost takes_memory = { false };

    ghost json_value_tells = { λ x y _ _. signed_values_tell x y };

    ghost has_no_float = { signed_has_no_float };

    ghost is_read_back = { λ _. omega arith };

    fn to_value(&self, _alloc: Global) -> Result<Value, AllocError> {
        Ok(Value::from(*self))
    }

    fn from_value(_alloc: Global, value: &Value) -> Result<Self, JsonFault> {
        value_within(i64::MIN, i64::MAX, value)
    }
}

impl JsonKey for i64 {
    ghost key_text = { signed_decimal };

    ghost key_text_tells = { signed_texts_tell (2 ^ 63 - 1) (omega arith) };

    fn to_key_text(&self, alloc: Global) -> Result<String, AllocError> {
        let number = *self;
        number.to_string(alloc)
    }

    fn from_key_text(_alloc: Global, text: &str) -> Result<Self, JsonFault> {
        key_within(i64::MIN, i64::MAX, text)
    }
}
