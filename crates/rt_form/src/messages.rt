//! What the server says on a channel, as trees. The bytes are made by `printing`.
ghost use Rattle.std.specs.Prelude.{◌≡◌, ◌++◌, ◌∷◌, [], IfOk, OnOk, map};
ghost use Rattle.rt_form.specs.Messages as spec;

use crate::{Column, ColumnType, Table};
use rt_json::building::{list_tree, number_tree, object_tree, put, put_text, text_tree};
use rt_json::{Json, Member};
use std::alloc::{AllocError, Global};

fn message(
    alloc: Global,
    topic: &str,
    event: &str,
    payload: Vec<Member>,
    reference: Json,
) -> Result<Json, AllocError>
    ensures { IfOk result (λ tree.
        tree ≡ spec.message topic.now event.now (Json.Object payload.items) reference) }
{
    let mut members = Vec::new(alloc);
    put_text(alloc, &mut members, "topic", topic)?;
    put_text(alloc, &mut members, "event", event)?;
    put(alloc, &mut members, "payload", object_tree(payload))?;
    put(alloc, &mut members, "ref", reference)?;
    Ok(object_tree(members))
}

/// Puts the members of a binding to all events of a table behind the others.
fn put_binding(alloc: Global, members: &mut Vec<Member>, table: &str) -> Result<(), AllocError>
    ensures { OnOk result (members.new.items ≡ members.old.items ++ spec.wanted_binding table.now) }
{
    put_text(alloc, members, "event", "*")?;
    put_text(alloc, members, "schema", "public")?;
    put_text(alloc, members, "table", table)
}

fn accepted_binding(alloc: Global, id: u64, table: &str) -> Result<Json, AllocError>
    ensures { IfOk result (λ tree. tree ≡ spec.accepted_binding id table.now) }
{
    let mut members = Vec::new(alloc);
    put(alloc, &mut members, "id", number_tree(alloc, id)?)?;
    put_binding(alloc, &mut members, table)?;
    Ok(object_tree(members))
}

fn one_tree(alloc: Global, tree: Json) -> Result<Json, AllocError>
    ensures { IfOk result (λ list. list ≡ Json.List (tree ∷ [])) }
{
    let mut items = Vec::new(alloc);
    items.push(tree)?;
    Ok(list_tree(items))
}

fn join_response(alloc: Global, table: &str) -> Result<Json, AllocError>
    ensures { IfOk result (λ tree. tree ≡ spec.join_response table.now) }
{
    let bindings = one_tree(alloc, accepted_binding(alloc, 1, table)?)?;
    let mut members = Vec::new(alloc);
    put(alloc, &mut members, "postgres_changes", bindings)?;
    Ok(object_tree(members))
}

/// The reply to an accepted join of one binding, the first of its journal.
pub fn join_reply(
    alloc: Global,
    topic: &str,
    reference: &str,
    table: &str,
) -> Result<Json, AllocError>
    ensures { IfOk result (λ tree. tree ≡ spec.join_reply topic.now reference.now table.now) }
{
    let mut payload = Vec::new(alloc);
    put_text(alloc, &mut payload, "status", "ok")?;
    put(
        alloc,
        &mut payload,
        "response",
        join_response(alloc, table)?,
    )?;
    let reference = text_tree(alloc, reference)?;
    message(alloc, topic, "phx_reply", payload, reference)
}

/// What follows the reply where the join has a binding. `channel` is the topic without `realtime:`.
pub fn subscribed(alloc: Global, topic: &str, channel: &str) -> Result<Json, AllocError>
    ensures { IfOk result (λ tree. tree ≡ spec.subscribed topic.now channel.now) }
{
    let mut payload = Vec::new(alloc);
    put_text(alloc, &mut payload, "message", "Subscribed to PostgreSQL")?;
    put_text(alloc, &mut payload, "status", "ok")?;
    put_text(alloc, &mut payload, "extension", "postgres_changes")?;
    put_text(alloc, &mut payload, "channel", channel)?;
    message(alloc, topic, "system", payload, Json::Null)
}

fn shown_type(column_type: ColumnType) -> &'static str
    ensures { result.now ≡ spec.shown_type column_type }
{
    match column_type {
        ColumnType::Int4 => "int4",
        ColumnType::Text => "text",
    }
}

fn column_tree(alloc: Global, column: &Column) -> Result<Json, AllocError>
    ensures { IfOk result (λ tree. tree ≡ spec.column_tree column.now) }
{
    let mut members = Vec::new(alloc);
    put_text(alloc, &mut members, "name", column.name.get())?;
    put_text(alloc, &mut members, "type", shown_type(column.column_type))?;
    Ok(object_tree(members))
}

fn column_trees(alloc: Global, columns: &[Column]) -> Result<Json, AllocError>
    ensures { IfOk result (λ tree. tree ≡ Json.List (map spec.column_tree columns.now)) }
{
    let mut trees = Vec::new(alloc);
    for column in columns {
        trees.push(column_tree(alloc, column)?)?;
    }
    Ok(list_tree(trees))
}

/// Each column's name with its value, as far as both go.
fn row_tree(alloc: Global, columns: &[Column], values: &[Json]) -> Result<Json, AllocError>
    ensures { IfOk result (λ tree. tree ≡ Json.Object (spec.row_members columns.now values.now)) }
{
    let mut members = Vec::new(alloc);
    for i in 0..columns.len().min(values.len()) {
        let value = values[i].copy(alloc)?;
        put(alloc, &mut members, columns[i].name.get(), value)?;
    }
    Ok(object_tree(members))
}

/// What a slot is told of an inserted row, whose stream gives no commit time.
fn inserted(alloc: Global, table: &Table, values: &[Json]) -> Result<Json, AllocError>
    ensures { IfOk result (λ tree. tree ≡ spec.inserted table.now values.now) }
{
    let columns = column_trees(alloc, table.columns.get())?;
    let row = row_tree(alloc, table.columns.get(), values)?;
    let mut members = Vec::new(alloc);
    put_text(alloc, &mut members, "schema", "public")?;
    put_text(alloc, &mut members, "table", table.name.get())?;
    put_text(alloc, &mut members, "type", "INSERT")?;
    put(alloc, &mut members, "commit_timestamp", Json::Null)?;
    put(alloc, &mut members, "columns", columns)?;
    put(alloc, &mut members, "record", row)?;
    put(alloc, &mut members, "errors", Json::Null)?;
    Ok(object_tree(members))
}

/// The change for the one subscription of the channel.
pub fn change(
    alloc: Global,
    topic: &str,
    table: &Table,
    values: &[Json],
) -> Result<Json, AllocError>
    ensures { IfOk result (λ tree. tree ≡ spec.change topic.now table.now values.now) }
{
    let ids = one_tree(alloc, number_tree(alloc, 1)?)?;
    let mut payload = Vec::new(alloc);
    put(alloc, &mut payload, "ids", ids)?;
    put(alloc, &mut payload, "data", inserted(alloc, table, values)?)?;
    message(alloc, topic, "postgres_changes", payload, Json::Null)
}
