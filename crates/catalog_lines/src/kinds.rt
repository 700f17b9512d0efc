ghost use Rattle.std.specs.Prelude.{◌≡◌, ◌≢◌, IfSome, IfNone};
ghost use Rattle.rt_value.specs.declared.value.Kind.{Kind as Class};
ghost use Rattle.catalog_lines.specs.Words.{word_of};

use rt_value::Kind;

/// The kind that a word names, if it names one.
pub fn kind_named(word: &str) -> Option<Kind>
    ensures found { IfSome result (λ kind. word.now ≡ word_of kind) }
    ensures none { IfNone result ((kind : Class) → word.now ≢ word_of kind) }
{
    match word {
        "int2" => Some(Kind::Int2),
        "int4" => Some(Kind::Int4),
        "int8" => Some(Kind::Int8),
        "text" => Some(Kind::Text),
        "varchar" => Some(Kind::Varchar),
        "bool" => Some(Kind::Bool),
        "uuid" => Some(Kind::Uuid),
        "timestamptz" => Some(Kind::Timestamptz),
        "json" => Some(Kind::Json),
        "opaque" => Some(Kind::Opaque),
        _ => None,
    }
}
