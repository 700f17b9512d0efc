//! The condition of a policy.
use crate::value::{no_case, text};
use rt_catalog::Table;
use rt_policy::{Comparison, Judge, Tested};
use rt_value::{List, Value};
use sqlite_items::Boxed;
use std::alloc::Global;
use std::io;

fn column(table: &Table, name: &str) -> io::Result<Judge> {
    let mut number = 0_u32;
    for column in table.columns.get() {
        if column.name.get() == name {
            return Ok(Judge::Outer(number));
        }
        number = number.saturating_add(1);
    }
    no_case()
}

fn equal(alloc: Global, a: Judge, b: Judge) -> io::Result<Judge> {
    let a = Boxed::new(alloc, a)?;
    Ok(Judge::Compare(Comparison::Equal, a, Boxed::new(alloc, b)?))
}

// Some row of table 1 has the topic in its first column and who asks in its second.
fn member(alloc: Global, table: &Table) -> io::Result<Judge> {
    let room = equal(alloc, Judge::Inner(0), column(table, "topic")?)?;
    let user = equal(alloc, Judge::Inner(1), Judge::Uid)?;
    let both = Judge::And(List::new(vec![in alloc; room, user]?));
    Ok(Judge::Exists(1, Boxed::new(alloc, both)?))
}

fn part(alloc: Global, table: &Table, word: &str) -> io::Result<Judge> {
    match word {
        "true" => return Ok(Judge::Literal(Value::Bool(true))),
        "null" => return Ok(Judge::Literal(Value::Null)),
        "member" => return member(alloc, table),
        _ => {}
    }
    if let Some(name) = word.strip_suffix("?") {
        let tested = Boxed::new(alloc, column(table, name)?)?;
        return Ok(Judge::Is(Tested::Null, tested));
    }
    match word.split_once('=') {
        None => no_case(),
        Some((name, wanted)) => {
            let wanted = Judge::Literal(Value::Text(text(alloc, wanted)?));
            equal(alloc, column(table, name)?, wanted)
        }
    }
}

/// Reads a condition: parts with `&` between them, all of which have to be true.
pub fn condition(alloc: Global, table: &Table, words: &str) -> io::Result<Judge> {
    let mut parts = Vec::new(alloc);
    for word in words.split('&') {
        parts.push(part(alloc, table, word)?)?;
    }
    Ok(Judge::And(List::new(parts)))
}
