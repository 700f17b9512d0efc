ghost use Rattle.std.specs.Prelude.{◌≡◌, ◌↔◌, None, Some, IfOk, OnErr, IsSome, IsErrOf};
ghost use Rattle.rt_value.specs.declared.reading.ValueFault.TheVariants.{NoMemory};
ghost use Rattle.rt_value.specs.Reading.{int_in_text, truth_in_text, uuid_in_text, value_in_text};

use crate::moments::moment;
use crate::{Kind, Text, Value};
use std::alloc::{AllocError, Global};
use thiserror::Error;
use uuid::Uuid;

/// Why a text gave no value.
#[derive(Debug, Drop, PartialEq, Eq, Error)]
pub enum ValueFault {
    #[error("the text is no value of its kind")]
    BadText,
    #[error("out of memory")]
    NoMemory,
}

impl From<AllocError> for ValueFault {
    ghost from_gives = { λ _ e. e ≡ NoMemory };

    fn from(_error: AllocError) -> ValueFault {
        ValueFault::NoMemory
    }
}

/// The value that a text has in a kind. Whole numbers are an optional `+` or `-` and one or more
/// digits, in the range of the kind; truth values are `t`, `true`, `f` and `false`; a uuid is in
/// any form that the crate `uuid` reads; a moment is `YYYY-MM-DD`, a blank or `T`, `HH:MM:SS`, at
/// most six places of the second, and a zone, `Z` or an offset below 16 hours, of a date in the
/// years 1 to 9999 before and after the change to UTC, or `infinity` or `-infinity`; a text is
/// itself.
///
/// `BadText` where the text has no value in the kind, which is each text where the kind is opaque
/// or `Json`.
pub fn from_text(alloc: Global, kind: Kind, text: &str) -> Result<Value, ValueFault>
    ensures ok { IfOk result (λ value. value_in_text kind text.now ≡ Some value) }
    ensures bad { IsErrOf result ValueFault.BadText ↔ (value_in_text kind text.now ≡ None) }
{
    read(alloc, kind, text)?.ok_or(ValueFault::BadText)
}

/// The value of a text, where it has one. Only a text that has one takes memory.
fn read(alloc: Global, kind: Kind, text: &str) -> Result<Option<Value>, AllocError>
    ensures ok { IfOk result (λ value. value ≡ value_in_text kind text.now) }
    ensures err { OnErr result (IsSome (value_in_text kind text.now)) }
{
    Ok(match kind {
        Kind::Int2 => int2(text).map(Value::Int),
        Kind::Int4 => int4(text).map(Value::Int),
        Kind::Int8 => int8(text).map(Value::Int),
        Kind::Text | Kind::Varchar => Some(Value::Text(Text::new(String::from_str(alloc, text)?))),
        Kind::Bool => truth(text).map(Value::Bool),
        Kind::Uuid => uuid(text).map(Value::Uuid),
        Kind::Timestamptz => moment(text).map(Value::Moment),
        Kind::Json | Kind::Opaque => None,
    })
}

fn int2(text: &str) -> Option<i64>
    ensures { result ≡ int_in_text 16 text.now }
{
    match text.parse::<i16>() {
        Ok(n) => Some(i64::from(n)),
        Err(_) => None,
    }
}

fn int4(text: &str) -> Option<i64>
    ensures { result ≡ int_in_text 32 text.now }
{
    match text.parse::<i32>() {
        Ok(n) => Some(i64::from(n)),
        Err(_) => None,
    }
}

fn int8(text: &str) -> Option<i64>
    ensures { result ≡ int_in_text 64 text.now }
{
    match text.parse::<i64>() {
        Ok(n) => Some(n),
        Err(_) => None,
    }
}

fn truth(text: &str) -> Option<bool>
    ensures { result ≡ truth_in_text text.now }
{
    match text {
        "t" | "true" => Some(true),
        "f" | "false" => Some(false),
        _ => None,
    }
}

fn uuid(text: &str) -> Option<u128>
    ensures { result ≡ uuid_in_text text.now }
{
    match Uuid::parse_str(text) {
        Ok(id) => Some(id.as_u128()),
        Err(_) => None,
    }
}
