ghost use Rattle.std.specs.Prelude.{◌≡◌};
ghost use Rattle.rt_policy.specs.Types.{meaning_of, meaning_of_name};

use crate::TypeName;
use rt_value::Kind;

/// The kind of a type's name without brackets.
fn kind_named(name: &str) -> Kind
    ensures { result ≡ (meaning_of_name name.now).kind }
{
    match name {
        "smallint" | "smallserial" | "int2" => Kind::Int2,
        "integer" | "int" | "serial" | "int4" => Kind::Int4,
        "bigint" | "bigserial" | "int8" => Kind::Int8,
        "text" => Kind::Text,
        "varchar" => Kind::Varchar,
        "boolean" | "bool" => Kind::Bool,
        "uuid" => Kind::Uuid,
        "timestamptz" => Kind::Timestamptz,
        "json" | "jsonb" => Kind::Json,
        _ => Kind::Opaque,
    }
}

/// The kind of a type.
pub fn kind_of(name: &TypeName) -> Kind
    ensures { result ≡ (meaning_of name.now).kind }
{
    match name {
        TypeName::TimestampWithTimeZone => Kind::Timestamptz,
        TypeName::TimestampWithoutTimeZone | TypeName::DoublePrecision => Kind::Opaque,
        TypeName::CharacterVarying => Kind::Varchar,
        TypeName::Named { array: true, .. } => Kind::Opaque,
        TypeName::Named { name, array: false } => kind_named(name.get()),
    }
}
