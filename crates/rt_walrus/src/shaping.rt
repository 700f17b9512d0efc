ghost use Rattle.std.specs.Prelude.{◌≡◌, ◌==◌, ◌++◌, IfOk, OnOk, None, Some, ℕ, codes};
ghost use Rattle.std.specs.Prelude.{if◌then◌else◌, map, nat_lt, option_map, slice_get, unwrap_or};
ghost use Rattle.std.specs.List.{list_any};
ghost use Rattle.std.specs.Option.{option_copied};
ghost use Rattle.rt_catalog.specs.Access.{table_at};
ghost use Rattle.rt_change.specs.Verdicts.{hides_key};
ghost use Rattle.rt_change.specs.Shape.{column_tree, error_list, head, is_kept, record_of, records};
ghost use Rattle.rt_change.specs.Shape.{refused, shape_of, shown_columns, verb_name, whole};
ghost use Rattle.rt_json.specs.declared.tree.Json.TheVariants as json;
ghost use Rattle.rt_value.specs.Choice.{some_if};
ghost use Rattle.rt_walrus.specs.Keys.{key_at};
ghost use Rattle.rt_walrus.specs.Sides.{columns_of, is_open, shown_column, shown_member};
ghost use Rattle.rt_walrus.specs.Sides.{shows, trees_of};

use crate::access::{columns_at, is_secured, key_of, may_select, may_select_key, names_at};
use crate::asking::{lacks_key, writes};
use crate::sides::Side;
use rt_catalog::{Catalog, Column};
use rt_change::{Change, Verb};
use rt_json::building::{list_tree, object_tree, put, put_text, text_tree};
use rt_json::{Json, Member, write};
use std::alloc::{AllocError, Global};

// Of a record that is too large only fields are kept whose value prints in at most so many bytes.
const FIELD_LIMIT: usize = 64;

// A change as a role sees it, with the bytes above which its record is too large.
#[derive(Clone, Copy)]
struct View<'a> {
    catalog: &'a Catalog,
    role: u32,
    max: usize,
    change: &'a Change,
}

// A column's number in 32 bits. More columns than that count as want of memory.
fn narrow(at: usize) -> Result<u32, AllocError>
    ensures { IfOk result (λ number. number ≡ at) }
{
    match u32::try_from(at) {
        Ok(number) => Ok(number),
        Err(_) => Err(AllocError),
    }
}

fn error_tree(alloc: Global, text: &str) -> Result<Json, AllocError>
    ensures { IfOk result (λ tree. tree ≡ error_list text.now) }
{
    Ok(list_tree(vec![in alloc; text_tree(alloc, text)?]?))
}

fn verb_text(verb: Verb) -> &'static str
    ensures { result.now ≡ verb_name verb }
{
    match verb {
        Verb::Insert => "INSERT",
        Verb::Update => "UPDATE",
        Verb::Delete => "DELETE",
        Verb::Truncate => "TRUNCATE",
    }
}

impl<'a> View<'a> {
    fn is_large(&self) -> bool
        ensures { result ≡ nat_lt self.now.max self.now.change.now.size }
    {
        self.max < self.change.size
    }

    // Whether a field of this value is shown.
    fn keeps(&self, alloc: Global, tree: &Json) -> Result<bool, AllocError>
        ensures { let v = self.now in IfOk result (λ kept. kept
            ≡ is_kept v.catalog.now v.role v.max v.change.now tree.now) }
    {
        if self.is_large() {
            Ok(write(alloc, tree)?.get().len() <= FIELD_LIMIT)
        } else {
            Ok(true)
        }
    }

    fn is_key(&self, number: u32) -> bool
        ensures { let v = self.now in
            result ≡ list_any (λ k. k == number) (key_at v.catalog.now v.change.now.table) }
    {
        key_of(self.catalog, self.change.table)
            .iter()
            .any(|key| *key == number)
    }

    // Under row security a delete shows the key columns alone.
    fn is_open(&self, side: Side, number: u32) -> bool
        ensures { let v = self.now in
            result ≡ is_open v.catalog.now v.role v.max v.change.now side number }
    {
        match side {
            Side::New => true,
            Side::Old => {
                writes(self.change.verb)
                    || !is_secured(self.catalog, self.change.table)
                    || self.is_key(number)
            }
        }
    }

    // Whether a column stands in a record.
    fn shows(&self, side: Side, number: u32) -> bool
        ensures { let v = self.now in
            result ≡ shows v.catalog.now v.role v.max v.change.now side number }
    {
        may_select(self.catalog, self.role, self.change.table, number) && self.is_open(side, number)
    }

    fn trees(&self, side: Side) -> &'a [Option<Json>]
        ensures { let v = self.now in
            result.now ≡ trees_of v.catalog.now v.role v.max v.change.now side }
    {
        match side {
            Side::New => self.change.new_trees.get(),
            Side::Old => self.change.old_trees.get(),
        }
    }

    // The tree that the change gives a column.
    fn tree_at(&self, side: Side, at: usize) -> Option<&'a Json>
        ensures { let v = self.now in
            let trees = trees_of v.catalog.now v.role v.max v.change.now side in
            option_copied result ≡ unwrap_or (slice_get trees at) None }
    {
        match self.trees(side).get(at) {
            Some(Some(tree)) => Some(tree),
            _ => None,
        }
    }

    // The member that a column gives a record, where it gives one.
    fn member(
        &self,
        alloc: Global,
        side: Side,
        at: usize,
        column: &Column,
    ) -> Result<Option<Member>, AllocError>
        ensures { let v = self.now in IfOk result (λ member. member
            ≡ shown_member v.catalog.now v.role v.max v.change.now side (at, column.now)) }
    {
        if !self.shows(side, narrow(at)?) {
            return Ok(None);
        }
        let Some(tree) = self.tree_at(side, at) else {
            return Ok(None);
        };
        if !self.keeps(alloc, tree)? {
            return Ok(None);
        }
        Ok(Some(Member {
            name: column.name.copy(alloc)?,
            value: tree.copy(alloc)?,
        }))
    }

    // The columns that a record shows, with what the change gives them.
    fn record(&self, alloc: Global, side: Side) -> Result<Json, AllocError>
        ensures { let v = self.now in IfOk result (λ tree. tree
            ≡ record_of v.catalog.now v.role v.max v.change.now
            (columns_of v.catalog.now v.role v.max v.change.now side)
            (trees_of v.catalog.now v.role v.max v.change.now side)) }
    {
        let columns = columns_at(self.catalog, self.change.table);
        let mut members = Vec::new(alloc);
        for (at, column) in columns.iter().enumerate() {
            if let Some(member) = self.member(alloc, side, at, column)? {
                members.push(member)?;
            }
        }
        Ok(object_tree(members))
    }

    fn column_tree(&self, alloc: Global, column: &Column) -> Result<Json, AllocError>
        ensures { let v = self.now in IfOk result (λ tree. (n : ℕ) → tree
            ≡ column_tree v.catalog.now v.role v.max v.change.now (n, column.now)) }
    {
        let mut members = Vec::new(alloc);
        put_text(alloc, &mut members, "name", column.name.get())?;
        put_text(alloc, &mut members, "type", column.shown.get())?;
        Ok(object_tree(members))
    }

    // A column's tree, where the role may SELECT it.
    fn column(&self, alloc: Global, at: usize, column: &Column) -> Result<Option<Json>, AllocError>
        ensures { let v = self.now in IfOk result (λ tree. tree
            ≡ shown_column v.catalog.now v.role v.max v.change.now (at, column.now)) }
    {
        if may_select(self.catalog, self.role, self.change.table, narrow(at)?) {
            Ok(Some(self.column_tree(alloc, column)?))
        } else {
            Ok(None)
        }
    }

    // The columns that the role may SELECT, by name and type.
    fn columns(&self, alloc: Global) -> Result<Json, AllocError>
        ensures { let v = self.now in IfOk result (λ tree. tree
            ≡ json.List (map (column_tree v.catalog.now v.role v.max v.change.now)
            (shown_columns v.catalog.now v.role v.max v.change.now))) }
    {
        let columns = columns_at(self.catalog, self.change.table);
        let mut trees = Vec::new(alloc);
        for (at, column) in columns.iter().enumerate() {
            if let Some(tree) = self.column(alloc, at, column)? {
                trees.push(tree)?;
            }
        }
        Ok(list_tree(trees))
    }

    fn head(&self, alloc: Global) -> Result<Vec<Member>, AllocError>
        ensures { let v = self.now in IfOk result (λ members. members.items
            ≡ head v.catalog.now v.role v.max v.change.now) }
    {
        let (schema, name) = names_at(self.catalog, self.change.table);
        let mut members = Vec::new(alloc);
        put_text(alloc, &mut members, "schema", schema)?;
        put_text(alloc, &mut members, "table", name)?;
        put_text(alloc, &mut members, "type", verb_text(self.change.verb))?;
        Ok(members)
    }

    fn put_records(&self, alloc: Global, members: &mut Vec<Member>) -> Result<(), AllocError>
        ensures { let v = self.now in OnOk result (members.new.items ≡ members.old.items
            ++ records v.catalog.now v.role v.max v.change.now v.change.now.verb) }
    {
        match self.change.verb {
            Verb::Insert => put(alloc, members, "record", self.record(alloc, Side::New)?),
            Verb::Update => {
                put(alloc, members, "record", self.record(alloc, Side::New)?)?;
                put(alloc, members, "old_record", self.record(alloc, Side::Old)?)
            }
            Verb::Delete => put(alloc, members, "old_record", self.record(alloc, Side::Old)?),
            Verb::Truncate => Ok(()),
        }
    }

    fn timestamp(&self, alloc: Global) -> Result<Json, AllocError>
        ensures { IfOk result (λ tree. tree
            ≡ unwrap_or (option_map json.Text self.now.change.now.moment) json.Null) }
    {
        match &self.change.moment {
            None => Ok(Json::Null),
            Some(moment) => Ok(Json::Text(moment.copy(alloc)?)),
        }
    }

    fn errors(&self, alloc: Global) -> Result<Json, AllocError>
        ensures { IfOk result (λ tree. tree ≡ (if nat_lt self.now.max self.now.change.now.size
            then error_list (codes "Error 413: Payload Too Large") else json.Null)) }
    {
        if self.is_large() {
            error_tree(alloc, "Error 413: Payload Too Large")
        } else {
            Ok(Json::Null)
        }
    }

    fn whole(&self, alloc: Global) -> Result<Json, AllocError>
        ensures { let v = self.now in IfOk result (λ tree. tree
            ≡ whole v.catalog.now v.role v.max v.change.now) }
    {
        let mut members = self.head(alloc)?;
        put(
            alloc,
            &mut members,
            "commit_timestamp",
            self.timestamp(alloc)?,
        )?;
        put(alloc, &mut members, "columns", self.columns(alloc)?)?;
        self.put_records(alloc, &mut members)?;
        put(alloc, &mut members, "errors", self.errors(alloc)?)?;
        Ok(object_tree(members))
    }

    fn refused(&self, alloc: Global, text: &str) -> Result<Json, AllocError>
        ensures { let v = self.now in IfOk result (λ tree. tree
            ≡ refused v.catalog.now v.role v.max v.change.now text.now) }
    {
        let mut members = self.head(alloc)?;
        put(alloc, &mut members, "errors", error_tree(alloc, text)?)?;
        Ok(object_tree(members))
    }

    // Whether an insert or an update is of a row whose key the role may not SELECT.
    fn hides_key(&self) -> bool
        ensures { let v = self.now in result ≡ hides_key v.catalog.now v.role v.change.now }
    {
        writes(self.change.verb) && !may_select_key(self.catalog, self.role, self.change.table)
    }
}

/// The data that is sent of a change for a role: schema, table, type, commit time, the columns that
/// the role may SELECT, and the records with such of these columns as the change gives; of a delete
/// under row security the key's columns alone. Where the change has more than `max_record` bytes
/// it has only fields whose value prints in at most 64 bytes, and says so; a record without its
/// key, or a key that the role may not SELECT, has an error in place of the records.
///
/// Fails for want of memory alone, which is also the answer where a table has 2^32 columns or more.
pub fn shape(
    alloc: Global,
    catalog: &Catalog,
    role: u32,
    change: &Change,
    max_record: usize,
) -> Result<Json, AllocError>
    ensures { IfOk result (λ tree. tree ≡ shape_of catalog.now role max_record change.now) }
{
    let view = View {
        catalog,
        role,
        max: max_record,
        change,
    };
    if lacks_key(change) {
        view.refused(alloc, "Error 400: Bad Request, no primary key")
    } else if view.hides_key() {
        view.refused(alloc, "Error 401: Unauthorized")
    } else {
        view.whole(alloc)
    }
}
