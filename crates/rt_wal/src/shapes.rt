ghost use Rattle.std.specs.Prelude.{◌≡◌, IfOk, IfSome};
ghost use Rattle.std.specs.Option.{option_copied};
ghost use Rattle.rt_wal.specs.Shapes as spec;

use crate::records::{Action, Field, Record};
use rt_json::{Json, member};
use rt_value::{List, Text};
use std::alloc::{AllocError, Global};
use std::collections::BTreeSet;

fn text_in<'a>(tree: &'a Json, name: &str) -> Option<&'a str>
    ensures { option_copied result ≡ spec.text_in tree.now name.now }
{
    match member(tree, name) {
        Some(Json::Text(text)) => Some(text.get()),
        _ => None,
    }
}

fn copied(alloc: Global, text: Option<&str>) -> Result<Option<Text>, AllocError>
    ensures { IfOk result (λ t. t ≡ option_copied text.entry) }
{
    match text {
        Some(text) => Ok(Some(Text::new(String::from_str(alloc, text)?))),
        None => Ok(None),
    }
}

fn action_of(text: &str) -> Option<Action>
    ensures { result ≡ spec.action_of text.now }
{
    match text {
        "I" => Some(Action::Insert),
        "U" => Some(Action::Update),
        "D" => Some(Action::Delete),
        "T" => Some(Action::Truncate),
        "B" => Some(Action::Begin),
        "C" => Some(Action::Commit),
        "M" => Some(Action::Message),
        _ => None,
    }
}

fn action_in(tree: &Json) -> Option<Action>
    ensures { result ≡ spec.action_in tree.now }
{
    match text_in(tree, "action") {
        Some(text) => action_of(text),
        None => None,
    }
}

fn has_table(action: Action) -> bool
    ensures { result ≡ spec.has_table action }
{
    !matches!(action, Action::Begin | Action::Commit | Action::Message)
}

fn has_row(action: Action) -> bool
    ensures { result ≡ spec.has_row action }
{
    matches!(action, Action::Insert | Action::Update)
}

fn name_for(
    alloc: Global,
    action: Action,
    tree: &Json,
    name: &str,
) -> Result<Option<Text>, AllocError>
    ensures { IfOk result (λ t. t ≡ spec.name_for action tree.now name.now) }
{
    let text = text_in(tree, name);
    if has_table(action) {
        copied(alloc, text)
    } else {
        copied(alloc, Some(text.unwrap_or("")))
    }
}

fn name_of(tree: &Json) -> Option<&str>
    ensures { option_copied result ≡ spec.name_of tree.now }
{
    text_in(tree, "name")
}

fn are_named(alloc: Global, trees: &[Json]) -> Result<bool, AllocError>
    ensures { IfOk result (λ b. b ≡ spec.are_named trees.now) }
{
    let mut names = BTreeSet::new(alloc);
    for tree in trees {
        let Some(name) = name_of(tree) else {
            return Ok(false);
        };
        if !names.insert(name)? {
            return Ok(false);
        }
    }
    Ok(true)
}

fn field_of(alloc: Global, tree: &Json) -> Result<Option<Field>, AllocError>
    ensures { IfOk result (λ f. f ≡ spec.field_of tree.now) }
{
    let Some(name) = copied(alloc, name_of(tree))? else {
        return Ok(None);
    };
    match member(tree, "value") {
        Some(value) => Ok(Some(Field {
            name,
            tree: value.copy(alloc)?,
        })),
        None => Ok(None),
    }
}

fn each_field(alloc: Global, trees: &[Json]) -> Result<Option<List<Field>>, AllocError>
    ensures { IfOk result (λ fields. fields ≡ spec.each spec.field_of trees.now) }
{
    let mut fields = Vec::new(alloc);
    for tree in trees {
        match field_of(alloc, tree)? {
            Some(field) => fields.push(field)?,
            None => return Ok(None),
        }
    }
    Ok(Some(List::new(fields)))
}

fn each_name(alloc: Global, trees: &[Json]) -> Result<Option<List<Text>>, AllocError>
    ensures { IfOk result (λ names. names ≡ spec.each spec.name_of trees.now) }
{
    let mut names = Vec::new(alloc);
    for tree in trees {
        match copied(alloc, name_of(tree))? {
            Some(name) => names.push(name)?,
            None => return Ok(None),
        }
    }
    Ok(Some(List::new(names)))
}

fn fields_in(alloc: Global, tree: &Json, name: &str) -> Result<Option<List<Field>>, AllocError>
    ensures { IfOk result (λ fields. fields ≡ spec.fields_in tree.now name.now) }
{
    match member(tree, name) {
        Some(Json::List(trees)) => {
            if are_named(alloc, trees.get())? {
                each_field(alloc, trees.get())
            } else {
                Ok(None)
            }
        }
        Some(_) => Ok(None),
        None => Ok(Some(List::new(Vec::new(alloc)))),
    }
}

fn keys_in(alloc: Global, tree: &Json) -> Result<Option<List<Text>>, AllocError>
    ensures { IfOk result (λ keys. keys ≡ spec.keys_in tree.now) }
{
    match member(tree, "pk") {
        Some(Json::List(trees)) => {
            if are_named(alloc, trees.get())? {
                each_name(alloc, trees.get())
            } else {
                Ok(None)
            }
        }
        Some(_) => Ok(None),
        None => Ok(Some(List::new(Vec::new(alloc)))),
    }
}

fn row_in(alloc: Global, action: Action, tree: &Json) -> Result<Option<List<Field>>, AllocError>
    ensures { IfOk result (λ fields. fields ≡ spec.shows_row action tree.now) }
{
    if has_row(action) && member(tree, "columns").is_none() {
        Ok(None)
    } else {
        fields_in(alloc, tree, "columns")
    }
}

/// The record of a tree, but for its commit time.
pub fn shape_of(alloc: Global, size: usize, tree: &Json) -> Result<Option<Record>, AllocError>
    ensures shape { IfOk result (λ shape. shape ≡ spec.shape_of size tree.now) }
    ensures untimed { IfOk result (λ shape. IfSome shape (λ r. r.moment ≡ None)) }
{
    let Some(action) = action_in(tree) else {
        return Ok(None);
    };
    let Some(schema) = name_for(alloc, action, tree, "schema")? else {
        return Ok(None);
    };
    let Some(table) = name_for(alloc, action, tree, "table")? else {
        return Ok(None);
    };
    let Some(columns) = row_in(alloc, action, tree)? else {
        return Ok(None);
    };
    let Some(identity) = fields_in(alloc, tree, "identity")? else {
        return Ok(None);
    };
    let Some(keys) = keys_in(alloc, tree)? else {
        return Ok(None);
    };
    Ok(Some(Record {
        action,
        schema,
        table,
        columns,
        identity,
        keys,
        moment: None,
        size,
    }))
}
