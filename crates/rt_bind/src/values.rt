ghost use Rattle.std.specs.Prelude.{◌≡◌, IfOk, is_some};
ghost use Rattle.rt_value.specs.Reading.{value_in_text};
ghost use Rattle.rt_change.specs.Binding.{begins_with_plus, value_of, face};
ghost use Rattle.rt_bind.specs.Faces.{takes_all, moment_face, json_face};

use rt_json::{Json, JsonFault, read};
use rt_value::{Kind, Text, Value, ValueFault, from_text, shown_moment};
use std::alloc::{AllocError, Global};

/// The value that a text has in a kind, where it has one.
fn value_in(alloc: Global, kind: Kind, text: &str) -> Result<Option<Value>, AllocError>
    ensures { IfOk result (λ value. value ≡ value_in_text kind text.now) }
{
    match from_text(alloc, kind, text) {
        Ok(value) => Ok(Some(value)),
        Err(ValueFault::BadText) => Ok(None),
        Err(ValueFault::NoMemory) => Err(AllocError),
    }
}

/// JSON has no plus before a number.
fn begins_with_plus(text: &str) -> bool
    ensures { result ≡ begins_with_plus text.now }
{
    match text.as_bytes() {
        [first, ..] => *first == b'+',
        [] => false,
    }
}

/// The value of a number in a kind.
fn of_number(alloc: Global, kind: Kind, digits: &str) -> Result<Option<Value>, AllocError>
    ensures { IfOk result (λ value. value ≡ value_of kind (Json.Num digits.now)) }
{
    match kind {
        Kind::Int2 | Kind::Int4 | Kind::Int8 => {
            if begins_with_plus(digits) {
                Ok(None)
            } else {
                value_in(alloc, kind, digits)
            }
        }
        Kind::Text | Kind::Varchar | Kind::Bool | Kind::Uuid | Kind::Timestamptz => Ok(None),
        Kind::Json | Kind::Opaque => Ok(Some(Value::Opaque)),
    }
}

/// The value of a text in a kind.
fn of_text(alloc: Global, kind: Kind, text: &Text) -> Result<Option<Value>, AllocError>
    ensures { IfOk result (λ value. value ≡ value_of kind (Json.Text text.now)) }
{
    match kind {
        Kind::Text | Kind::Varchar => Ok(Some(Value::Text(text.copy(alloc)?))),
        Kind::Uuid | Kind::Timestamptz => value_in(alloc, kind, text.get()),
        Kind::Int2 | Kind::Int4 | Kind::Int8 | Kind::Bool => Ok(None),
        Kind::Json | Kind::Opaque => Ok(Some(Value::Opaque)),
    }
}

/// The value of a truth value in a kind.
fn of_truth(kind: Kind, truth: bool) -> Option<Value>
    ensures { result ≡ value_of kind (Json.Bool truth) }
{
    match kind {
        Kind::Bool => Some(Value::Bool(truth)),
        Kind::Json | Kind::Opaque => Some(Value::Opaque),
        Kind::Int2 | Kind::Int4 | Kind::Int8 => None,
        Kind::Text | Kind::Varchar | Kind::Uuid | Kind::Timestamptz => None,
    }
}

/// Whether every tree is of a kind.
fn takes_all(kind: Kind) -> bool
    ensures { result ≡ takes_all kind }
{
    matches!(kind, Kind::Json | Kind::Opaque)
}

/// The value of a tree in a kind, where it has one. Null is of every kind. A whole number is a
/// number without a dot and an exponent, in the range of its kind; a truth value is one; a text and
/// a `varchar` are a text; a uuid and a moment are a text that reads as one
/// (`rt_value::from_text`). Of a JSON kind and an opaque kind is every tree.
///
/// Fails for want of memory alone.
pub fn from_json(alloc: Global, kind: Kind, tree: &Json) -> Result<Option<Value>, AllocError>
    ensures { IfOk result (λ value. value ≡ value_of kind tree.now) }
{
    match tree {
        Json::Null => Ok(Some(Value::Null)),
        Json::Bool(truth) => Ok(of_truth(kind, *truth)),
        Json::Num(digits) => of_number(alloc, kind, digits.get()),
        Json::Text(text) => of_text(alloc, kind, text),
        Json::List(_) | Json::Object(_) => {
            if takes_all(kind) {
                Ok(Some(Value::Opaque))
            } else {
                Ok(None)
            }
        }
    }
}

/// Whether a tree has a value in a kind. No text is copied for it.
pub(crate) fn is_of(alloc: Global, kind: Kind, tree: &Json) -> Result<bool, AllocError>
    ensures { IfOk result (λ b. b ≡ is_some (value_of kind tree.now)) }
{
    match (kind, tree) {
        (Kind::Text | Kind::Varchar, Json::Text(_)) => Ok(true),
        _ => Ok(from_json(alloc, kind, tree)?.is_some()),
    }
}

/// A moment's text as it is shown, and each other text as it is.
fn moment_shown(alloc: Global, text: Text) -> Result<Json, AllocError>
    ensures { IfOk result (λ tree. tree ≡ moment_face text) }
{
    match value_in(alloc, Kind::Timestamptz, text.get())? {
        Some(Value::Moment(moment)) => Ok(Json::Text(shown_moment(alloc, moment)?)),
        _ => Ok(Json::Text(text)),
    }
}

/// The tree that a text is one of, and each other text as it is.
fn json_shown(alloc: Global, text: Text) -> Result<Json, AllocError>
    ensures { IfOk result (λ tree. tree ≡ json_face text) }
{
    match read(alloc, text.get().as_bytes()) {
        Ok(tree) => Ok(tree),
        Err(JsonFault::NoMemory) => Err(AllocError),
        Err(_) => Ok(Json::Text(text)),
    }
}

/// How a text of a column of a kind is shown.
fn text_shown(alloc: Global, kind: Kind, text: Text) -> Result<Json, AllocError>
    ensures { IfOk result (λ shown. shown ≡ face kind (Json.Text text)) }
{
    match kind {
        Kind::Timestamptz => moment_shown(alloc, text),
        Kind::Json => json_shown(alloc, text),
        Kind::Int2 | Kind::Int4 | Kind::Int8 => Ok(Json::Text(text)),
        Kind::Text | Kind::Varchar | Kind::Bool | Kind::Uuid | Kind::Opaque => Ok(Json::Text(text)),
    }
}

/// How a tree of a column of a kind is shown: a moment in UTC, `YYYY-MM-DDTHH:MM:SS`, a dot and the
/// microseconds without trailing zeros where they aren't 0, and `+00:00`; a text of a JSON kind as
/// the tree that it is a text of, and as it is where it is none; every other tree as it is. The
/// tree is moved.
///
/// Fails for want of memory alone.
pub fn shown(alloc: Global, kind: Kind, tree: Json) -> Result<Json, AllocError>
    ensures { IfOk result (λ shown. shown ≡ face kind tree) }
{
    match tree {
        Json::Text(text) => text_shown(alloc, kind, text),
        tree => Ok(tree),
    }
}

/// How a tree of a column of a kind is shown, of a copy of the tree. Fails for want of memory
/// alone.
pub fn shown_copy(alloc: Global, kind: Kind, tree: &Json) -> Result<Json, AllocError>
    ensures { IfOk result (λ shown. shown ≡ face kind tree.now) }
{
    shown(alloc, kind, tree.copy(alloc)?)
}
