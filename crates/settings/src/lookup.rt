// SPDX-License-Identifier: MIT OR Apache-2.0
// Functions that look up a key of a table, one for each kind of value. `Err` says that a required
// key is missing, or that its value has the wrong type or isn't allowed.
ghost use Rattle.std.specs.Prelude.{◌≡◌, ◌≤◌, Some, IfOk, option_map};
ghost use Rattle.std.specs.List.{list_all};
ghost use Rattle.std.specs.Char.{is_ascii_digit};
ghost use Rattle.toml.specs.View.{view, table_view};
ghost use Rattle.settings.specs.Faults.{is_within};
ghost use Rattle.settings.specs.Parameters.{AreDigits};
ghost use Rattle.settings.specs.Reading.{FindsKey, FindsValue, as_it_is};
ghost use Rattle.settings.specs.Rules.{text, digits, number, required};
ghost use Rattle.settings.specs.Rules.{optional_number, optional_flag};
ghost use Rattle.settings.specs.Tables.{at_key, text_in, number_in, flag_in};

use crate::Key;
use crate::finding::Finding;
use toml::{Table, Value};

// The value at a key, if any.
pub(crate) fn held<'a>(table: &'a Table, key: Key) -> Option<&'a Value>
    ensures { option_map (λ v. view v.now) result ≡ at_key key (table_view table.now) }
{
    table.get(key.name())
}

// A required text that isn't empty.
pub(crate) fn text_at<'a>(table: &'a Table, key: Key) -> Result<&'a str, Finding<'a>>
    ensures { FindsKey result (λ t. t.now) (required key text) text_in (table_view table.now) }
{
    match held(table, key) {
        None => Err(Finding::Missing(key)),
        Some(value) => text_of(value, key),
    }
}

fn text_of<'a>(value: &'a Value, key: Key) -> Result<&'a str, Finding<'a>>
    ensures { FindsValue result (λ t. t.now) key text text_in (view value.now) }
{
    let Value::String(text) = value else {
        return Err(Finding::BadType(key));
    };
    if text.is_empty() {
        return Err(Finding::BadValue(key));
    }
    Ok(text.as_str())
}

// A required text of `least` to `most` decimal digits.
pub(crate) fn digits_at<'a>(
    table: &'a Table,
    key: Key,
    least: usize,
    most: usize,
) -> Result<&'a str, Finding<'a>>
    ensures within { IfOk result (λ t. AreDigits least most t.now) }
    ensures finds { FindsKey result (λ t. t.now)
        (required key (digits least most)) text_in (table_view table.now) }
{
    match held(table, key) {
        None => Err(Finding::Missing(key)),
        Some(value) => digits_of(value, key, least, most),
    }
}

fn digits_of<'a>(
    value: &'a Value,
    key: Key,
    least: usize,
    most: usize,
) -> Result<&'a str, Finding<'a>>
    ensures within { IfOk result (λ t. AreDigits least most t.now) }
    ensures finds { FindsValue result (λ t. t.now)
        key (digits least most) text_in (view value.now) }
{
    let Value::String(text) = value else {
        return Err(Finding::BadType(key));
    };
    if !is_count(text.len(), least, most) || !are_digits(text.as_str()) {
        return Err(Finding::BadValue(key));
    }
    Ok(text.as_str())
}

fn are_digits(text: &str) -> bool
    ensures { result ≡ list_all is_ascii_digit text.now }
{
    text.bytes().all(|octet| octet.is_ascii_digit())
}

// A required integer from `least` to `greatest`.
pub(crate) fn number_at<'a>(
    table: &'a Table,
    key: Key,
    least: u32,
    greatest: u32,
) -> Result<u32, Finding<'a>>
    ensures finds { FindsKey result as_it_is
        (required key (number least greatest)) number_in (table_view table.now) }
    ensures within { IfOk result (λ n. (least ≤ n) × (n ≤ greatest)) }
{
    match held(table, key) {
        None => Err(Finding::Missing(key)),
        Some(value) => number_of(value, key, least, greatest),
    }
}

// An integer from `least` to `greatest`, or the default if the key is absent.
pub(crate) fn optional_number_at<'a>(
    table: &'a Table,
    key: Key,
    least: u32,
    greatest: u32,
    default: u32,
) -> Result<u32, Finding<'a>>
    requires { (least ≤ default) × (default ≤ greatest) }
    ensures finds { FindsKey result as_it_is
        (optional_number key least greatest default) number_in (table_view table.now) }
    ensures within { IfOk result (λ n. (least ≤ n) × (n ≤ greatest)) }
{
    match held(table, key) {
        None => Ok(default),
        Some(value) => number_of(value, key, least, greatest),
    }
}

fn number_of<'a>(value: &'a Value, key: Key, least: u32, greatest: u32) -> Result<u32, Finding<'a>>
    ensures finds { FindsValue result as_it_is
        key (number least greatest) number_in (view value.now) }
    ensures within { IfOk result (λ n. (least ≤ n) × (n ≤ greatest)) }
{
    let Value::Integer(number) = value else {
        return Err(Finding::BadType(key));
    };
    let number = *number;
    if number < i64::from(least) || i64::from(greatest) < number {
        return Err(Finding::BadValue(key));
    }
    Ok(number as u32)
}

// The flag at a key; false if the key is absent.
pub(crate) fn flag_at<'a>(table: &'a Table, key: Key) -> Result<bool, Finding<'a>>
    ensures { FindsKey result as_it_is (optional_flag key) flag_in (table_view table.now) }
{
    match held(table, key) {
        None => Ok(false),
        Some(Value::Boolean(flag)) => Ok(*flag),
        Some(_) => Err(Finding::BadType(key)),
    }
}

// Whether `count` is from `least` to `most`.
pub(crate) fn is_count(count: usize, least: usize, most: usize) -> bool
    ensures { result ≡ is_within least most count }
{
    least <= count && count <= most
}
