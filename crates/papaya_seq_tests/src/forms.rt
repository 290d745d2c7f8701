//! Examples of which texts are keys of a type, and which JSON is a value of it: just those that are written as they are read.
use map_forms::{JsonFault, JsonForm, JsonKey, Text};
use serde_json::Value;
use std::alloc::Global;

/// Whether each of these texts is read as a key that is written as it again, or each is refused so.
fn keys_answer<T: JsonKey + Drop>(
    alloc: Global,
    texts: &str,
    expected: Result<bool, JsonFault>,
) -> bool {
    for text in texts.split_terminator('|') {
        if key_again::<T>(alloc, text) != expected {
            return false;
        }
    }
    true
}

fn key_again<T: JsonKey + Drop>(alloc: Global, text: &str) -> Result<bool, JsonFault> {
    let key = T::from_key_text(alloc, text)?;
    let written = key.to_key_text(alloc)?;
    Ok(written.as_str() == text)
}

/// So of JSON and values.
fn values_answer<T: JsonForm + Drop>(
    alloc: Global,
    texts: &str,
    expected: Result<bool, JsonFault>,
) -> bool {
    for text in texts.split_terminator('|') {
        if value_again::<T>(alloc, text) != expected {
            return false;
        }
    }
    true
}

fn value_again<T: JsonForm + Drop>(alloc: Global, text: &str) -> Result<bool, JsonFault> {
    let Ok(given) = Value::from_str(alloc, text) else {
        return Ok(false);
    };
    let value = T::from_value(alloc, &given)?;
    Ok(value.to_value(alloc)? == given)
}

/// Whether a type has these keys and not the others, and these values and not the others. Behind each text stands a bar.
fn has<T: JsonKey + Drop>(
    alloc: Global,
    keys: &str,
    no_keys: &str,
    values: &str,
    no_values: &str,
) -> bool {
    keys_answer::<T>(alloc, keys, Ok(true))
        && keys_answer::<T>(alloc, no_keys, Err(JsonFault::BadKey))
        && values_answer::<T>(alloc, values, Ok(true))
        && values_answer::<T>(alloc, no_values, Err(JsonFault::BadElement))
}

fn types_have_their_forms(alloc: Global) -> bool {
    has::<u8>(
        alloc,
        "0|10|255|",
        "256||00|07|+1|-0|-1| 1|1.0|1e0|",
        "0|255|",
        r#"256|-1|-0|1.5|1.0|1e0|"1"|true|null|[1]|{}|"#,
    ) && has::<u16>(alloc, "65535|", "65536|", "65535|", "65536|")
        && has::<u32>(
            alloc,
            "4294967295|",
            "4294967296|",
            "4294967295|",
            "4294967296|",
        )
        && has::<u64>(
            alloc,
            "18446744073709551615|",
            "18446744073709551616|",
            "18446744073709551615|",
            "18446744073709551616|",
        )
        && has::<i8>(
            alloc,
            "0|-128|127|",
            "-129|128|-|-0|-01|-+1|+1|01|",
            "-128|127|",
            "-129|128|",
        )
        && has::<i16>(alloc, "-32768|", "-32769|", "-32768|", "-32769|")
        && has::<i32>(alloc, "-2147483648|", "-2147483649|", "-2147483648|", "")
        && has::<i64>(
            alloc,
            "-9223372036854775808|",
            "-9223372036854775809|",
            "-9223372036854775808|",
            "9223372036854775808|",
        )
        && has::<bool>(alloc, "true|false|", "True|", "false|", r#"0|"true"|"#)
        && has::<Text>(alloc, "|+00 \u{e4}|", "", r#""\u00e4 00"|"#, "1|")
}

#[test]
fn just_what_is_written_is_read(rt: HostRuntime) {
    assert!(rt; types_have_their_forms(rt.alloc()));
}
