//! The trees of presence messages.
ghost use Rattle.std.specs.Prelude.{◌≡◌, ◌++◌, ◌∷◌, [], IfOk, OnOk, filter, reverse, map};
ghost use Rattle.std.specs.Prelude.{option_map, option_to_list};
ghost use Rattle.rt_json.specs.Lookup.{members_of};
ghost use Rattle.rt_json.specs.Trees.{field};
ghost use Rattle.rt_presence.specs.Trees.{is_kept, meta_with, meta_object, metas_member, metas_tree, added};
ghost use Rattle.rt_presence.specs.Trees.{all_added, joins_of, leaves_of, difference_tree, under};
ghost use Rattle.rt_presence.specs.Trees.{put_last, groups_tree};

use crate::differences::{Diff, Meta};
use rt_json::{Json, Member};
use rt_value::{List, Text};
use std::alloc::{AllocError, Global};
use std::collections::BTreeMap;

/// A key, and the tree of a meta under it.
type Held = (Text, Json);

/// A key, and the trees of the metas under it.
pub type Group = (Text, List<Json>);

type Groups = BTreeMap<Text, List<Json>>;

fn member(alloc: Global, name: &str, value: Json) -> Result<Member, AllocError>
    ensures { IfOk result (λ m. m ≡ field name.now value) }
{
    let name = Text::new(String::from_str(alloc, name)?);
    Ok(Member { name, value })
}

fn copy_member(alloc: Global, member: &Member) -> Result<Member, AllocError>
    ensures { IfOk result (λ m. m ≡ member.now) }
{
    let name = member.name.copy(alloc)?;
    let value = member.value.copy(alloc)?;
    Ok(Member { name, value })
}

// Puts the members of any name but `phx_ref` behind the others.
fn put_members(alloc: Global, members: &[Member], out: &mut Vec<Member>) -> Result<(), AllocError>
    ensures { OnOk result (out.new.items ≡ out.old.items ++ filter is_kept members.now) }
{
    for member in members {
        if member.name.get() != "phx_ref" {
            out.push(copy_member(alloc, member)?)?;
        }
    }
    Ok(())
}

fn put_tree(alloc: Global, tree: &Json, out: &mut Vec<Member>) -> Result<(), AllocError>
    ensures { OnOk result (out.new.items ≡ out.old.items ++ filter is_kept (members_of tree.now)) }
{
    match tree {
        Json::Object(members) => put_members(alloc, members.get(), out),
        _ => Ok(()),
    }
}

/// The tree of a meta: the reference as `phx_ref`, then the members of the tracked object but those
/// of that name. Fails for want of memory alone.
pub fn meta(alloc: Global, reference: &Text, tree: &Json) -> Result<Json, AllocError>
    ensures { IfOk result (λ t. t ≡ meta_with reference.now tree.now) }
{
    let text = Json::Text(reference.copy(alloc)?);
    let mut members = Vec::new(alloc);
    members.push(member(alloc, "phx_ref", text)?)?;
    put_tree(alloc, tree, &mut members)?;
    Ok(Json::Object(List::new(members)))
}

/// The tree of a meta with the track's number as reference.
pub fn meta_object(alloc: Global, reference: u32, tree: &Json) -> Result<Json, AllocError>
    ensures { IfOk result (λ t. t ≡ meta_object reference tree.now) }
{
    let digits = Text::new(format!(in alloc; "{reference}")?);
    meta(alloc, &digits, tree)
}

fn add(alloc: Global, groups: &mut Groups, key: Text, meta: Json) -> Result<(), AllocError>
    ensures { OnOk result (groups.new.entries ≡ added (key, meta) groups.old.entries) }
{
    let mut metas = match groups.remove(&key) {
        Some(metas) => metas.into_inner(),
        None => Vec::new(alloc),
    };
    metas.push(meta)?;
    groups
        .insert(key, List::new(metas))
        .map_err(|_| AllocError)?;
    Ok(())
}

// The metas of each key, the last first.
fn grouped(alloc: Global, mut held: Vec<Held>) -> Result<Groups, AllocError>
    ensures { IfOk result (λ groups. groups.entries ≡ all_added held.items []) }
{
    let mut groups = BTreeMap::new(alloc);
    while let Some((key, meta)) = held.pop() {
        add(alloc, &mut groups, key, meta)?;
    }
    Ok(groups)
}

fn metas_member(alloc: Global, key: Text, metas: List<Json>) -> Result<Member, AllocError>
    ensures { IfOk result (λ m. m ≡ metas_member key metas) }
{
    let mut members = Vec::new(alloc);
    members.push(member(alloc, "metas", Json::List(metas))?)?;
    let value = Json::Object(List::new(members));
    Ok(Member { name: key, value })
}

fn reversed(metas: List<Json>) -> List<Json>
    ensures { result ≡ reverse metas }
{
    let mut metas = metas.into_inner();
    metas.reverse();
    List::new(metas)
}

fn group_members(alloc: Global, mut groups: Groups) -> Result<Vec<Member>, AllocError>
    ensures { IfOk result (λ members.
        members.items ≡ map (λ g. metas_member g.0 (reverse g.1)) groups.entries) }
{
    let mut members = Vec::new(alloc);
    while let Some((key, metas)) = groups.pop_first() {
        members.push(metas_member(alloc, key, reversed(metas))?)?;
    }
    Ok(members)
}

/// The metas under each key, the keys in byte order, the metas of a key in the order of the list.
/// Fails for want of memory alone.
pub fn metas_tree(alloc: Global, held: Vec<(Text, Json)>) -> Result<Json, AllocError>
    ensures { IfOk result (λ tree. tree ≡ metas_tree held.items) }
{
    let groups = grouped(alloc, held)?;
    let members = group_members(alloc, groups)?;
    Ok(Json::Object(List::new(members)))
}

// The last key with its metas, where it is this one, and else this one with none. What is answered
// is taken out.
fn last_group(
    alloc: Global,
    groups: &mut Vec<Group>,
    key: &Text,
) -> Result<(Text, Vec<Json>), AllocError>
    ensures { IfOk result (λ g. (meta : Json)
        → groups.new.items ++ (g.0, g.1.items ++ meta ∷ []) ∷ []
        ≡ put_last (key.now, meta) groups.old.items) }
{
    match groups.pop() {
        None => Ok((key.copy(alloc)?, Vec::new(alloc))),
        Some((last, metas)) => {
            if last.get() == key.get() {
                return Ok((last, metas.into_inner()));
            }
            groups.push((last, metas))?;
            Ok((key.copy(alloc)?, Vec::new(alloc)))
        }
    }
}

/// Puts the meta behind those of the last key, where it is under that, and else under a key of its
/// own.
pub fn put_last(
    alloc: Global,
    groups: &mut Vec<Group>,
    key: &Text,
    meta: Json,
) -> Result<(), AllocError>
    ensures { OnOk result (groups.new.items ≡ put_last (key.now, meta) groups.old.items) }
{
    let (key, mut metas) = last_group(alloc, groups, key)?;
    metas.push(meta)?;
    groups.push((key, List::new(metas)))?;
    Ok(())
}

/// The metas under the keys of the list.
pub fn groups_tree(alloc: Global, groups: Vec<Group>) -> Result<Json, AllocError>
    ensures { IfOk result (λ tree. tree ≡ groups_tree groups.items) }
{
    let mut members = Vec::with_capacity(alloc, groups.len())?;
    for (key, metas) in groups {
        members.push(metas_member(alloc, key, metas)?)?;
    }
    Ok(Json::Object(List::new(members)))
}

fn put_held(
    alloc: Global,
    key: &Text,
    meta: &Option<Meta>,
    out: &mut Vec<Held>,
) -> Result<(), AllocError>
    ensures { OnOk result (out.new.items
        ≡ out.old.items ++ option_to_list (option_map (under key.now) meta.now)) }
{
    if let Some(meta) = meta {
        let tree = meta_object(alloc, meta.reference, meta.tree.get())?;
        out.push((key.copy(alloc)?, tree))?;
    }
    Ok(())
}

fn joins(alloc: Global, differences: &[Diff]) -> Result<Json, AllocError>
    ensures { IfOk result (λ tree. tree ≡ metas_tree (joins_of differences.now)) }
{
    let mut held = Vec::new(alloc);
    for difference in differences {
        put_held(alloc, &difference.key, &difference.joined, &mut held)?;
    }
    metas_tree(alloc, held)
}

fn leaves(alloc: Global, differences: &[Diff]) -> Result<Json, AllocError>
    ensures { IfOk result (λ tree. tree ≡ metas_tree (leaves_of differences.now)) }
{
    let mut held = Vec::new(alloc);
    for difference in differences {
        put_held(alloc, &difference.key, &difference.left, &mut held)?;
    }
    metas_tree(alloc, held)
}

/// The tree of a `presence_diff`: the metas that join and those that leave. Fails for want of
/// memory alone.
pub fn difference_tree(alloc: Global, differences: &[Diff]) -> Result<Json, AllocError>
    ensures { IfOk result (λ tree. tree ≡ difference_tree differences.now) }
{
    let mut members = Vec::new(alloc);
    members.push(member(alloc, "joins", joins(alloc, differences)?)?)?;
    members.push(member(alloc, "leaves", leaves(alloc, differences)?)?)?;
    Ok(Json::Object(List::new(members)))
}
