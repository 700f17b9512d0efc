//! Small trees, built part by part. What can fail here fails for want of memory alone.
ghost use Rattle.std.specs.Prelude.{◌≡◌, ◌++◌, ◌∷◌, [], IfOk, OnOk};
ghost use Rattle.std.specs.Fmt.{decimal};
ghost use Rattle.rt_json.specs.Trees.{field};

use crate::tree::Json;
use crate::tree::named::Member;
use rt_value::{List, Text};
use std::alloc::{AllocError, Global};

/// A text.
pub fn text_tree(alloc: Global, text: &str) -> Result<Json, AllocError>
    ensures { IfOk result (λ tree. tree ≡ Json.Text text.now) }
{
    Ok(Json::Text(Text::new(String::from_str(alloc, text)?)))
}

/// A number, in decimal digits.
pub fn number_tree(alloc: Global, number: u64) -> Result<Json, AllocError>
    ensures { IfOk result (λ tree. tree ≡ Json.Num (decimal number)) }
{
    Ok(Json::Num(Text::new(format!(in alloc; "{number}")?)))
}

/// A list of these items.
pub fn list_tree(items: Vec<Json>) -> Json
    ensures { result ≡ Json.List items.items }
{
    Json::List(List::new(items))
}

/// An object of these members.
pub fn object_tree(members: Vec<Member>) -> Json
    ensures { result ≡ Json.Object members.items }
{
    Json::Object(List::new(members))
}

/// Puts a member of this name and value behind the others.
pub fn put(
    alloc: Global,
    members: &mut Vec<Member>,
    name: &str,
    value: Json,
) -> Result<(), AllocError>
    ensures { OnOk result (members.new.items ≡ members.old.items ++ field name.now value ∷ []) }
{
    let name = Text::new(String::from_str(alloc, name)?);
    members.push(Member { name, value })?;
    Ok(())
}

/// Puts a member whose value is a text behind the others.
pub fn put_text(
    alloc: Global,
    members: &mut Vec<Member>,
    name: &str,
    text: &str,
) -> Result<(), AllocError>
    ensures { OnOk result (members.new.items
        ≡ members.old.items ++ field name.now (Json.Text text.now) ∷ []) }
{
    let value = text_tree(alloc, text)?;
    put(alloc, members, name, value)
}
