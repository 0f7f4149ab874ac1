//! Looking into an entry of a symbol file. Numbers and words are read where they stand. A name, a list or a type is taken,
//! so that its memory goes on to the table, and null is left in its place: it is what is read last of an entry.
ghost use Rattle.std.specs.Prelude.{◌≡◌, option_map};
ghost use Rattle.serde_json.specs.Find.{get};
ghost use Rattle.serde_json.specs.View.{view};
ghost use Rattle.isf_reader.specs.Json.{given, count_of, integer_of, count_at, text_at, natural_at, flag_at};

use layer_base::Name;
use serde_json::Value;

// What stands at a key: None where the key is missing, or null.
pub(crate) fn given<'v>(entry: &'v Value, key: &str) -> Option<&'v Value>
    ensures { option_map (λ v. view v.now) result ≡ given key.now (view entry.now) }
{
    let value = entry.get(key)?;
    if value.is_null() { None } else { Some(value) }
}

// Takes what stands at a key.
pub(crate) fn taken(entry: &mut Value, key: &str) -> Option<Value>
    ensures { option_map view result ≡ get key.now (view entry.old) }
{
    match entry.get_mut(key) {
        Some(value) => Some(value.take()),
        None => None,
    }
}

// Takes what stands at a key: None where the key is missing, or null.
pub(crate) fn taken_given(entry: &mut Value, key: &str) -> Option<Value>
    ensures { option_map view result ≡ given key.now (view entry.old) }
{
    match taken(entry, key) {
        Some(Value::Null) => None,
        value => value,
    }
}

// Takes the text at a key.
pub(crate) fn taken_name(entry: &mut Value, key: &str) -> Option<Name>
    ensures { result ≡ text_at key.now (view entry.old) }
{
    match taken(entry, key) {
        Some(Value::String(text)) => Some(Name::from(text.into_bytes())),
        _ => None,
    }
}

// A whole number from 0 to 4,294,967,295.
pub(crate) fn count_of(value: &Value) -> Option<u64>
    ensures { result ≡ count_of (view value.now) }
{
    let number = value.as_u64()?;
    if number < 1 << 32 { Some(number) } else { None }
}

// A whole number of either sign.
pub(crate) fn integer_of(value: &Value) -> Option<i128>
    ensures { result ≡ integer_of (view value.now) }
{
    match value.as_u64() {
        Some(number) => Some(i128::from(number)),
        None => value.as_i64().map(i128::from),
    }
}

pub(crate) fn count_at(entry: &Value, key: &str) -> Option<u64>
    ensures { result ≡ count_at key.now (view entry.now) }
{
    entry.get(key).and_then(count_of)
}

pub(crate) fn text_at<'v>(entry: &'v Value, key: &str) -> Option<&'v str>
    ensures { option_map (λ text. text.now) result ≡ text_at key.now (view entry.now) }
{
    entry.get(key).and_then(Value::as_str)
}

pub(crate) fn natural_at(entry: &Value, key: &str) -> Option<u64>
    ensures { result ≡ natural_at key.now (view entry.now) }
{
    entry.get(key).and_then(Value::as_u64)
}

pub(crate) fn flag_at(entry: &Value, key: &str) -> Option<bool>
    ensures { result ≡ flag_at key.now (view entry.now) }
{
    entry.get(key).and_then(Value::as_bool)
}
