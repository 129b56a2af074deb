//! The JSON value that a text is, and what is found in it.
use crate::wrong::{Halt, Place, wrong};
use serde_json::{Error, Value};
use std::alloc::Global;

/// The value that a text is. It halts where the text is no JSON.
pub(crate) fn read_json(alloc: Global, text: &[u8]) -> Result<Value, Halt> {
    match Value::from_slice(alloc, text) {
        Ok(value) => Ok(value),
        Err(error) if error.is_memory() => Err(Halt::Memory),
        Err(error) => Err(unreadable(alloc, &error)),
    }
}

fn unreadable(alloc: Global, error: &Error) -> Halt {
    let place = Place::Character {
        line: error.line(),
        column: error.column(),
    };
    let what = if error.is_eof() {
        "the JSON text ends too early"
    } else {
        "the text can't be read as JSON from here on"
    };
    wrong(alloc, place, what)
}

/// The nodes, which are none where there is no array of them.
pub(crate) fn nodes_of(cluster: &Value) -> &[Value] {
    items_of(cluster, "nodes")
}

/// The items of the member of that name, which are none where it is no array.
pub(crate) fn items_of<'a>(value: &'a Value, name: &str) -> &'a [Value] {
    match value.get(name).and_then(Value::as_array) {
        Some(items) => items.as_slice(),
        None => &[],
    }
}

/// The text that the member of that name is, which is empty where it is no text.
pub(crate) fn text_of<'a>(value: &'a Value, name: &str) -> &'a str {
    value.get(name).and_then(Value::as_str).unwrap_or("")
}

/// The whole number that the member of that name is.
pub(crate) fn number_of(value: &Value, name: &str) -> Option<i128> {
    value.get(name).and_then(number_in)
}

/// The whole number that the value is.
pub(crate) fn number_in(value: &Value) -> Option<i128> {
    value.as_number()?.as_i128()
}
