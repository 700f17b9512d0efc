ghost use Rattle.std.specs.Prelude.{◌≡◌, IfOk};

use crate::tree::Json;
use crate::tree::named::Member;
use rt_value::List;
use std::alloc::{AllocError, Global};

#[cycle(copy)]
fn copy_items(alloc: Global, items: &[Json]) -> Result<List<Json>, AllocError>
    ensures { IfOk result (λ list. list ≡ items.now) }
{
    let mut copies = Vec::with_capacity(alloc, items.len())?;
    for item in items {
        copies.push(copy_tree(alloc, item)?)?;
    }
    Ok(List::new(copies))
}

#[cycle(copy)]
fn copy_member(alloc: Global, member: &Member) -> Result<Member, AllocError>
    ensures { IfOk result (λ copy. copy ≡ member.now) }
{
    let name = member.name.copy(alloc)?;
    let value = copy_tree(alloc, &member.value)?;
    Ok(Member { name, value })
}

#[cycle(copy)]
fn copy_members(alloc: Global, members: &[Member]) -> Result<List<Member>, AllocError>
    ensures { IfOk result (λ list. list ≡ members.now) }
{
    let mut copies = Vec::with_capacity(alloc, members.len())?;
    for member in members {
        copies.push(copy_member(alloc, member)?)?;
    }
    Ok(List::new(copies))
}

#[cycle(copy)]
fn copy_tree(alloc: Global, tree: &Json) -> Result<Json, AllocError>
    ensures { IfOk result (λ copy. copy ≡ tree.now) }
{
    match tree {
        Json::Null => Ok(Json::Null),
        Json::Bool(value) => Ok(Json::Bool(*value)),
        Json::Num(digits) => Ok(Json::Num(digits.copy(alloc)?)),
        Json::Text(text) => Ok(Json::Text(text.copy(alloc)?)),
        Json::List(items) => Ok(Json::List(copy_items(alloc, items.get())?)),
        Json::Object(members) => Ok(Json::Object(copy_members(alloc, members.get())?)),
    }
}

impl Json {
    /// An equal tree. Fails for want of memory alone.
    pub fn copy(&self, alloc: Global) -> Result<Json, AllocError>
        ensures { IfOk result (λ copy. copy ≡ self.now) }
    {
        copy_tree(alloc, self)
    }
}
