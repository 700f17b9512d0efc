ghost use Rattle.std.specs.Prelude.{◌≡◌, ◌≤◌, ◌<◌, ◌^◌, ◌&&◌, length, codes, find, option_map};
ghost use Rattle.std.specs.Prelude.{IfSome};
ghost use Rattle.std.specs.List.{enumerate_from};
ghost use Rattle.std.specs.Option.{SomeIff};
ghost use Rattle.std.specs.Str.{bytes_eq};
ghost use Rattle.rt_catalog.specs.Access.{table_named};
ghost use Rattle.rt_private.specs.Asked.{IsNumbered};
ghost use Rattle.rt_private.specs.Rights.{is_text, text_column, messages_in, messages_of};

use crate::Messages;
use rt_catalog::{Catalog, Column, Table};
use rt_value::Kind;

fn is_text(kind: Kind) -> bool
    ensures { result ≡ is_text kind }
{
    matches!(kind, Kind::Text)
}

fn number(place: usize) -> Option<u32>
    ensures { SomeIff result (place < 2 ^ 32) place }
{
    u32::try_from(place).ok()
}

// The first column of the name whose kind is text, and its place.
fn text_column_in<'a>(table: &'a Table, name: &str) -> Option<(usize, &'a Column)>
    ensures { option_map (λ c. (c.0, c.1.now)) result
        ≡ find (λ c. bytes_eq c.1.name name.now && is_text c.1.kind)
        (enumerate_from 0 table.now.columns) }
{
    let mut columns = table.columns.get().iter().enumerate();
    columns.find(|(_, column)| column.name.get() == name && is_text(column.kind))
}

fn text_place(table: &Table, name: &str) -> Option<usize>
    ensures { result ≡ text_column table.now name.now }
{
    match text_column_in(table, name) {
        None => None,
        Some((place, _)) => Some(place),
    }
}

fn text_column(table: &Table, name: &str) -> Option<u32>
    ensures found { IfSome result (λ n. text_column table.now name.now ≡ Some n) }
    ensures exact { length table.now.columns ≤ 2 ^ 32 → result ≡ text_column table.now name.now }
{
    number(text_place(table, name)?)
}

// The messages table that a table of this number is, where it has the three columns.
fn messages_in(table: &Table, number: u32) -> Option<Messages>
    ensures found { IfSome result (λ m. messages_in table.now number ≡ Some m) }
    ensures exact { length table.now.columns ≤ 2 ^ 32 → result ≡ messages_in table.now number }
{
    let topic = text_column(table, "topic")?;
    let extension = text_column(table, "extension")?;
    let action = text_column(table, "action")?;
    Some(Messages {
        table: number,
        topic,
        extension,
        action,
    })
}

// The first table of the name, and its place.
fn messages_table(catalog: &Catalog) -> Option<(usize, &Table)>
    ensures { option_map (λ t. (t.0, t.1.now)) result
        ≡ find (λ t. bytes_eq t.1.schema (codes "realtime") && bytes_eq t.1.name (codes "messages"))
        (enumerate_from 0 catalog.now.tables) }
{
    let mut tables = catalog.tables.get().iter().enumerate();
    tables.find(|(_, table)| table.schema.get() == "realtime" && table.name.get() == "messages")
}

fn messages_place(catalog: &Catalog) -> Option<usize>
    ensures { result ≡ table_named catalog.now (codes "realtime") (codes "messages") }
{
    match messages_table(catalog) {
        None => None,
        Some((place, _)) => Some(place),
    }
}

/// The messages table of a catalogue; `None` where it has none. Takes no memory.
///
/// Tables and columns are named by numbers of 32 bits, so a table or a column behind 2 ^ 32 others
/// isn't found.
#[tactic(auto, unfolding(crate::specs::Rights::messages_of))]
pub fn find(catalog: &Catalog) -> Option<Messages>
    ensures found { IfSome result (λ m. messages_of catalog.now ≡ Some m) }
    ensures exact { IsNumbered catalog.now → result ≡ messages_of catalog.now }
{
    let place = messages_place(catalog)?;
    let table = catalog.tables.get().get(place)?;
    messages_in(table, number(place)?)
}
