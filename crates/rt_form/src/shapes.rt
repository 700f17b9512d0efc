//! Tests of a tree's shape, each telling exactly which tree it is.
ghost use Rattle.std.specs.Prelude.{◌≡◌, ◌↔◌, ◌∷◌, [], ℕ, List, IsTrue, MatchOption};
ghost use Rattle.rt_json.specs.Trees.{field};
ghost use Rattle.rt_json.specs.declared.tree.named.Member as m;
ghost use Rattle.rt_json.specs.declared.tree.Json as j;

use rt_json::{Json, Member};
use rt_value::Text;

/// The text that a tree is.
pub fn text_of(tree: &Json) -> Option<&Text>
    ensures { MatchOption result ((text : List ℕ) → tree.now ≡ Json.Text text → ⊥)
        (λ text. tree.now ≡ Json.Text text.now) }
{
    match tree {
        Json::Text(text) => Some(text),
        _ => None,
    }
}

/// Whether a tree is this text.
pub fn is_text(tree: &Json, wanted: &str) -> bool
    ensures { IsTrue result ↔ (tree.now ≡ Json.Text wanted.now) }
{
    match text_of(tree) {
        Some(text) => text.get() == wanted,
        None => false,
    }
}

/// The elements of a list.
pub fn elements(tree: &Json) -> Option<&[Json]>
    ensures { MatchOption result ((items : List j.Json) → tree.now ≡ Json.List items → ⊥)
        (λ items. tree.now ≡ Json.List items.now) }
{
    match tree {
        Json::List(items) => Some(items.get()),
        _ => None,
    }
}

/// The element of a list of one.
pub fn only_element(tree: &Json) -> Option<&Json>
    ensures { MatchOption result ((item : j.Json) → tree.now ≡ Json.List (item ∷ []) → ⊥)
        (λ item. tree.now ≡ Json.List (item.now ∷ [])) }
{
    let items = elements(tree)?;
    if items.len() == 1 {
        Some(&items[0])
    } else {
        None
    }
}

/// The elements of a list of two.
pub fn two_elements(tree: &Json) -> Option<(&Json, &Json)>
    ensures { MatchOption result ((first second : j.Json)
        → tree.now ≡ Json.List (first ∷ second ∷ []) → ⊥)
        (λ both. tree.now ≡ Json.List (both.0.now ∷ both.1.now ∷ [])) }
{
    let items = elements(tree)?;
    if items.len() == 2 {
        Some((&items[0], &items[1]))
    } else {
        None
    }
}

/// The members of an object.
pub fn members_of(tree: &Json) -> Option<&[Member]>
    ensures { MatchOption result ((members : List m.Member) → tree.now ≡ Json.Object members → ⊥)
        (λ members. tree.now ≡ Json.Object members.now) }
{
    match tree {
        Json::Object(members) => Some(members.get()),
        _ => None,
    }
}

/// The value of the first member, which has to have this name, and the members behind it.
pub fn first_named<'a>(members: &'a [Member], name: &str) -> Option<(&'a Json, &'a [Member])>
    ensures { MatchOption result ((value : j.Json) (rest : List m.Member)
        → members.now ≡ field name.now value ∷ rest → ⊥)
        (λ found. members.now ≡ field name.now found.0.now ∷ found.1.now) }
{
    match members {
        [first, rest @ ..] => {
            if first.name.get() == name {
                Some((&first.value, rest))
            } else {
                None
            }
        }
        [] => None,
    }
}

/// The members behind the first one, which has to have this name and to be this text.
pub fn first_text<'a>(members: &'a [Member], name: &str, text: &str) -> Option<&'a [Member]>
    ensures { MatchOption result ((rest : List m.Member)
        → members.now ≡ field name.now (Json.Text text.now) ∷ rest → ⊥)
        (λ rest. members.now ≡ field name.now (Json.Text text.now) ∷ rest.now) }
{
    let (value, rest) = first_named(members, name)?;
    if is_text(value, text) {
        Some(rest)
    } else {
        None
    }
}

/// The value of an object of one member, which has to have this name.
pub fn only_value<'a>(tree: &'a Json, name: &str) -> Option<&'a Json>
    ensures { MatchOption result ((value : j.Json)
        → tree.now ≡ Json.Object (field name.now value ∷ []) → ⊥)
        (λ value. tree.now ≡ Json.Object (field name.now value.now ∷ [])) }
{
    let (value, rest) = first_named(members_of(tree)?, name)?;
    if rest.is_empty() { Some(value) } else { None }
}

/// The values of an object of two members, which have to have these names.
pub fn two_values<'a>(tree: &'a Json, one: &str, two: &str) -> Option<(&'a Json, &'a Json)>
    ensures { MatchOption result ((a b : j.Json)
        → tree.now ≡ Json.Object (field one.now a ∷ field two.now b ∷ []) → ⊥)
        (λ v. tree.now ≡ Json.Object (field one.now v.0.now ∷ field two.now v.1.now ∷ [])) }
{
    let (a, rest) = first_named(members_of(tree)?, one)?;
    let (b, rest) = first_named(rest, two)?;
    if rest.is_empty() { Some((a, b)) } else { None }
}

/// The values of an object of three members, which have to have these names.
pub fn three_values<'a>(
    tree: &'a Json,
    one: &str,
    two: &str,
    three: &str,
) -> Option<(&'a Json, &'a Json, &'a Json)>
    ensures { MatchOption result
        ((a b c : j.Json) → tree.now
        ≡ Json.Object (field one.now a ∷ field two.now b ∷ field three.now c ∷ []) → ⊥)
        (λ v. tree.now ≡ Json.Object (field one.now v.0.now ∷ field two.now v.1.now
        ∷ field three.now v.2.now ∷ [])) }
{
    let (a, rest) = first_named(members_of(tree)?, one)?;
    let (b, rest) = first_named(rest, two)?;
    let (c, rest) = first_named(rest, three)?;
    if rest.is_empty() {
        Some((a, b, c))
    } else {
        None
    }
}
