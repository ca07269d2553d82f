//! Structured fields as JSON, in the form of the HTTP working group's tests.

ghost use Rattle.std.specs.Prelude.{◌≡◌, IfOk, map};
ghost use Rattle.serde_json.specs.Data as json;
ghost use Rattle.serde_json.specs.View.{view};
ghost use Rattle.sfv.specs.BareItems.{bare_value};
ghost use Rattle.sfv.specs.NumberValues.{thousandths_of};
ghost use Rattle.sfv.specs.Trees.{pairs_tree, item_tree, inner_list_tree, member_tree, list_tree, dictionary_tree};
ghost use Rattle.sfv.specs.Types.{item_field, list_field, dictionary_field};
ghost use Rattle.sfv_lint_json.specs.Json.{array_json, pair_json, typed_json, decimal_json, bare_json, parameters_json};
ghost use Rattle.sfv_lint_json.specs.Json.{item_json, inner_list_json, member_json, field_json};

use crate::base32::base32;
use serde_json::{Value, json};
use sfv::{
    BareItem, Decimal, Dictionary, GenericBareItem, InnerList, Item, List, ListEntry, Parameters,
};
use std::alloc::{AllocError, Global};

/// Returns a decimal as the nearest number of 64 bits.
#[tactic(auto, using(crate::proofs::Floats::quotient))]
fn decimal(decimal: Decimal) -> Value
    ensures { view result ≡ decimal_json (thousandths_of decimal) }
{
    let thousandths = decimal.as_integer_scaled_1000().to_i64();
    Value::from(thousandths as f64 / 1000.0)
}

/// Returns a value with its type, for a type that JSON lacks.
fn typed(alloc: Global, name: &str, value: &Value) -> Result<Value, AllocError>
    ensures { IfOk result (λ typed. view typed ≡ typed_json name.now (view value.now)) }
{
    json!(in alloc; {"__type": name, "value": value})
}

/// Returns a text with its type.
fn typed_text(alloc: Global, name: &str, text: &str) -> Result<Value, AllocError>
    ensures { IfOk result (λ typed. view typed ≡ typed_json name.now (json.string text.now)) }
{
    json!(in alloc; {"__type": name, "value": text})
}

/// Returns a bare item.
fn bare_item(alloc: Global, item: &BareItem) -> Result<Value, AllocError>
    ensures { IfOk result (λ value. view value ≡ bare_json (bare_value item.now)) }
{
    match item {
        GenericBareItem::Decimal(number) => Ok(decimal(*number)),
        GenericBareItem::Integer(number) => Ok(Value::from(number.to_i64())),
        GenericBareItem::String(text) => Value::try_from_str(alloc, text.as_str()),
        GenericBareItem::ByteSequence(bytes) => {
            typed_text(alloc, "binary", base32(alloc, bytes.as_slice())?.as_str())
        }
        GenericBareItem::Boolean(value) => Ok(Value::Bool(*value)),
        GenericBareItem::Token(text) => typed_text(alloc, "token", text.as_str()),
        GenericBareItem::Date(date) => {
            typed(alloc, "date", &Value::from(date.unix_seconds().to_i64()))
        }
        GenericBareItem::DisplayString(text) => typed_text(alloc, "displaystring", text.as_str()),
    }
}

/// Returns an array of two values.
fn pair(alloc: Global, first: Value, second: Value) -> Result<Value, AllocError>
    ensures { IfOk result (λ pair. view pair ≡ pair_json (view first) (view second)) }
{
    let mut array = Vec::with_capacity(alloc, 2)?;
    array.push(first)?;
    array.push(second)?;
    Ok(Value::Array(array))
}

/// Returns an array of a key and a value.
fn keyed(alloc: Global, key: &str, value: Value) -> Result<Value, AllocError>
    ensures { IfOk result (λ pair. view pair ≡ pair_json (json.string key.now) (view value)) }
{
    let key = Value::try_from_str(alloc, key)?;
    pair(alloc, key, value)
}

/// Returns parameters, as an array of pairs.
fn parameters(alloc: Global, params: &Parameters) -> Result<Value, AllocError>
    ensures { IfOk result (λ value. view value ≡ parameters_json (pairs_tree params.now.entries)) }
{
    let mut array = Vec::new(alloc);
    for (key, value) in params {
        array.push(keyed(alloc, key.as_str(), bare_item(alloc, value)?)?)?;
    }
    Ok(Value::Array(array))
}

/// Returns an item: an array of its bare item and its parameters.
///
/// # Errors
///
/// Returns `AllocError` if memory runs out.
pub fn item(alloc: Global, item: &Item) -> Result<Value, AllocError>
    ensures { IfOk result (λ value. view value ≡ field_json item_field (item_tree item.now)) }
{
    let bare = bare_item(alloc, &item.bare_item)?;
    let params = parameters(alloc, &item.params)?;
    pair(alloc, bare, params)
}

/// Returns the items of an inner list, as an array.
fn items(alloc: Global, items: &[Item]) -> Result<Value, AllocError>
    ensures { IfOk result (λ value. view value ≡ array_json (map item_json (map item_tree items.now))) }
{
    let mut array = Vec::new(alloc);
    for member in items {
        array.push(item(alloc, member)?)?;
    }
    Ok(Value::Array(array))
}

/// Returns an inner list: an array of its items and its parameters.
fn inner_list(alloc: Global, list: &InnerList) -> Result<Value, AllocError>
    ensures { IfOk result (λ value. view value ≡ inner_list_json (inner_list_tree list.now)) }
{
    let items = items(alloc, list.items.as_slice())?;
    let params = parameters(alloc, &list.params)?;
    pair(alloc, items, params)
}

/// Returns a member of a list or a dictionary.
fn member(alloc: Global, entry: &ListEntry) -> Result<Value, AllocError>
    ensures { IfOk result (λ value. view value ≡ member_json (member_tree entry.now)) }
{
    match entry {
        ListEntry::Item(entry) => item(alloc, entry),
        ListEntry::InnerList(entry) => inner_list(alloc, entry),
    }
}

/// Returns a list: an array of its members.
///
/// # Errors
///
/// Returns `AllocError` if memory runs out.
pub fn list(alloc: Global, list: &List) -> Result<Value, AllocError>
    ensures { IfOk result (λ value. view value ≡ field_json list_field (list_tree list.now.items)) }
{
    let mut array = Vec::new(alloc);
    for entry in list {
        array.push(member(alloc, entry)?)?;
    }
    Ok(Value::Array(array))
}

/// Returns a dictionary: an array of pairs, each a key and its member.
///
/// # Errors
///
/// Returns `AllocError` if memory runs out.
pub fn dictionary(alloc: Global, dictionary: &Dictionary) -> Result<Value, AllocError>
    ensures { IfOk result (λ value. view value
        ≡ field_json dictionary_field (dictionary_tree dictionary.now.entries)) }
{
    let mut array = Vec::new(alloc);
    for (key, entry) in dictionary {
        array.push(keyed(alloc, key.as_str(), member(alloc, entry)?)?)?;
    }
    Ok(Value::Array(array))
}
