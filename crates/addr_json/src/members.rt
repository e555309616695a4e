// Members of a JSON object, each read by what it stands for: a reader answers None for another kind and for a value
// outside its values.
ghost use Rattle.std.specs.Prelude.{◌≡◌, IfOk};
ghost use Rattle.std.specs.Option.{option_map, option_copied};
ghost use Rattle.serde_json.specs.Find.{get_member, as_str, as_array};
ghost use Rattle.serde_json.specs.View.{view, items_view, members_view};
ghost use Rattle.addr_json.specs.Members.{all_items, list_of, required, size_of};

use addr_base::{Items, NoMemory, Text};
use serde_json::{Map, Value};
use std::alloc::Global;

/// The member at a key, whatever it is. Of repeated members the document keeps the last.
pub fn member<'a>(object: &'a Map<String, Value>, key: &str) -> Option<&'a Value>
    ensures { option_map (λ v. view v.now) result ≡ get_member key.now (members_view object.now.entries) }
{
    object.get(key)
}

/// A text that must be there, lent.
pub fn text_at<'a>(object: &'a Map<String, Value>, key: &str) -> Option<&'a str>
    ensures { option_copied result ≡ required as_str key.now (members_view object.now.entries) }
{
    match member(object, key) {
        Some(value) => value.as_str(),
        None => None,
    }
}

/// The text of each value, where all are texts.
fn texts_in(alloc: Global, values: &[Value]) -> Result<Option<Items<Text>>, NoMemory>
    ensures { IfOk result (λ texts. texts ≡ all_items as_str (items_view values.now)) }
{
    let mut texts = Items::new(alloc);
    for value in values {
        let Some(text) = value.as_str() else {
            return Ok(None);
        };
        texts.push(Text::copy_of(alloc, text)?)?;
    }
    Ok(Some(texts))
}

/// Copies of the texts of an array.
pub fn as_texts(alloc: Global, value: &Value) -> Result<Option<Items<Text>>, NoMemory>
    ensures { IfOk result (λ texts. texts ≡ list_of as_str (view value.now)) }
{
    match value.as_array() {
        Some(values) => texts_in(alloc, values.as_slice()),
        None => Ok(None),
    }
}

/// A number that must be there: digits without a sign, a point or an exponent.
pub fn size_at(object: &Map<String, Value>, key: &str) -> Option<u64>
    ensures { result ≡ required size_of key.now (members_view object.now.entries) }
{
    match member(object, key) {
        Some(value) => value.as_u64(),
        None => None,
    }
}

/// The values of an array that must be there, lent.
pub fn array_at<'a>(object: &'a Map<String, Value>, key: &str) -> Option<&'a [Value]>
    ensures { option_map (λ v. items_view v.now) result ≡ required as_array key.now (members_view object.now.entries) }
{
    match member(object, key) {
        Some(value) => match value.as_array() {
            Some(values) => Some(values.as_slice()),
            None => None,
        },
        None => None,
    }
}
