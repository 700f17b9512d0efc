ghost use Rattle.std.specs.Prelude.{◌≡◌, ◌||◌};
ghost use Rattle.std.specs.List.{list_any};
ghost use Rattle.rt_policy.specs.Resolution.{group_of, same_group, kind_in, is_unnamed};
ghost use Rattle.rt_policy.specs.Resolution.{is_mistyped, group_given, first_given};

use crate::meaning::{Group, Meaning};
use rt_value::Kind;

/// The group of a kind, where its values are judged.
pub fn group_of(kind: Kind) -> Option<Group>
    ensures { result ≡ group_of kind }
{
    match kind {
        Kind::Int2 | Kind::Int4 | Kind::Int8 => Some(Group::Whole),
        Kind::Text | Kind::Varchar => Some(Group::Text),
        Kind::Bool => Some(Group::Truth),
        Kind::Uuid => Some(Group::Uuid),
        Kind::Timestamptz => Some(Group::Moment),
        Kind::Json | Kind::Opaque => None,
    }
}

pub fn same_group(a: Group, b: Group) -> bool
    ensures { result ≡ same_group a b }
{
    matches!(
        (a, b),
        (Group::Whole, Group::Whole)
            | (Group::Text, Group::Text)
            | (Group::Truth, Group::Truth)
            | (Group::Uuid, Group::Uuid)
            | (Group::Moment, Group::Moment)
    )
}

/// The kind in which a text literal of a group is read.
pub fn kind_in(group: Group) -> Kind
    ensures { result ≡ kind_in group }
{
    match group {
        Group::Whole => Kind::Int8,
        Group::Text => Kind::Text,
        Group::Truth => Kind::Bool,
        Group::Uuid => Kind::Uuid,
        Group::Moment => Kind::Timestamptz,
    }
}

pub fn is_unnamed(part: &Meaning) -> bool
    ensures { result ≡ is_unnamed part.now }
{
    matches!(part, Meaning::Unnamed)
}

pub fn is_mistyped(part: &Meaning) -> bool
    ensures { result ≡ is_mistyped part.now }
{
    matches!(part, Meaning::Mistyped)
}

pub fn any_unnamed(parts: &[Meaning]) -> bool
    ensures { result ≡ list_any is_unnamed parts.now }
{
    parts.iter().any(|part| is_unnamed(part))
}

pub fn either_unnamed(a: &Meaning, b: &Meaning) -> bool
    ensures { result ≡ (is_unnamed a.now || is_unnamed b.now) }
{
    is_unnamed(a) || is_unnamed(b)
}

/// Whether a part or one of a list is unnamed.
pub fn unnamed_with(side: &Meaning, items: &[Meaning]) -> bool
    ensures { result ≡ (is_unnamed side.now || list_any is_unnamed items.now) }
{
    is_unnamed(side) || any_unnamed(items)
}

/// The group of a part that has one of its own.
pub fn group_given(part: &Meaning) -> Option<Group>
    ensures { result ≡ group_given part.now }
{
    match part {
        Meaning::Typed(group, _) => Some(*group),
        _ => None,
    }
}

/// The group of the first part that has one of its own.
pub fn first_given(parts: &[Meaning]) -> Option<Group>
    ensures { result ≡ first_given parts.now }
{
    for part in parts {
        if let Some(group) = group_given(part) {
            return Some(group);
        }
    }
    None
}
