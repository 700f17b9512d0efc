//! What a record does under a catalogue of one table, and values and faces of trees.
//!
//! The first lines of `stdin` say how a case is written.
#![tactic(auto)]

ghost use Rattle.std.specs.Prelude.{IfOk};
ghost use Rattle.rt_wal.specs.Records.{IsRecord};
ghost use Rattle.rt_bind.specs.Apart.{CatalogIsApart};

mod answers;

use case_lines::{answer_cases, text_of};
use catalog_lines::{catalog_of, kind_named};
use rt_bind::{bind, bind_lent, from_json, shown_copy};
use rt_catalog::Catalog;
use rt_change::{Bound, ChangeFault};
use rt_json::{Json, JsonFault, read};
use rt_wal::{Record, WalFault, parse_record};
use std::alloc::Global;
use std::io;

/// Returns the record that a line is.
///
/// # Errors
///
/// `InvalidInput` where it is none; `OutOfMemory`.
fn record_of(alloc: Global, line: &str) -> io::Result<Record>
    ensures { IfOk result (IsRecord line.now) }
{
    match parse_record(alloc, line.as_bytes()) {
        Ok(record) => Ok(record),
        Err(WalFault::BadRecord { .. }) => Err(io::ErrorKind::InvalidInput.into()),
        Err(WalFault::NoMemory) => Err(io::ErrorKind::OutOfMemory.into()),
    }
}

fn answer_of(alloc: Global, bound: Result<Bound, ChangeFault>) -> io::Result<String> {
    match bound {
        Ok(Bound::Change(change)) => Ok(answers::change(alloc, &change)?),
        Ok(Bound::Skip) => Ok(String::from_str(alloc, "skip")?),
        Err(fault) => answers::fault(alloc, fault),
    }
}

/// Binds the record of a line, lent and taken.
fn binding(alloc: Global, catalog: &Catalog, line: &str) -> io::Result<String>
    requires { CatalogIsApart catalog.now }
{
    let given = record_of(alloc, line)?;
    let lent = answer_of(alloc, bind_lent(alloc, catalog, &given))?;
    let taken = answer_of(alloc, bind(alloc, catalog, given))?;
    if lent.as_str() == taken.as_str() {
        Ok(taken)
    } else {
        Ok(format!(in alloc; "lent: {lent}; taken: {taken}")?)
    }
}

fn tree_of(alloc: Global, text: &str) -> io::Result<Json> {
    match read(alloc, text.as_bytes()) {
        Ok(tree) => Ok(tree),
        Err(JsonFault::NoMemory) => Err(io::ErrorKind::OutOfMemory.into()),
        Err(_) => Err(io::ErrorKind::InvalidInput.into()),
    }
}

fn value(alloc: Global, case: &str) -> io::Result<String> {
    let (kind, text) = case.split_once(' ').ok_or(io::ErrorKind::InvalidInput)?;
    let kind = kind_named(kind).ok_or(io::ErrorKind::InvalidInput)?;
    let tree = tree_of(alloc, text)?;
    match from_json(alloc, kind, &tree)? {
        Some(value) => Ok(answers::value(alloc, &value)?),
        None => Ok(String::from_str(alloc, "no value")?),
    }
}

fn shown(alloc: Global, case: &str) -> io::Result<String> {
    let (kind, text) = case.split_once(' ').ok_or(io::ErrorKind::InvalidInput)?;
    let kind = kind_named(kind).ok_or(io::ErrorKind::InvalidInput)?;
    let tree = shown_copy(alloc, kind, &tree_of(alloc, text)?)?;
    answers::tree(alloc, &tree)
}

/// Answers a case.
///
/// # Errors
///
/// `InvalidInput` where the line is no case; `OutOfMemory`.
fn answer(alloc: Global, case: &str) -> io::Result<String> {
    let (question, rest) = case.split_once(' ').ok_or(io::ErrorKind::InvalidInput)?;
    match question {
        "value" => value(alloc, rest),
        "shown" => shown(alloc, rest),
        "bind" => {
            let (table, line) = rest.split_once(" | ").ok_or(io::ErrorKind::InvalidInput)?;
            let catalog = catalog_of(alloc, table)?;
            binding(alloc, &catalog, line)
        }
        _ => Err(io::ErrorKind::InvalidInput.into()),
    }
}

fn answer_or_say(alloc: Global, case: &[u8]) -> io::Result<String> {
    match answer(alloc, text_of(case)?) {
        Err(error) if error.kind() == io::ErrorKind::InvalidInput => {
            Ok(String::from_str(alloc, "no case")?)
        }
        answered => answered,
    }
}

fn main(rt: HostRuntime) -> io::Result<()> {
    answer_cases(&rt, answer_or_say)
}
