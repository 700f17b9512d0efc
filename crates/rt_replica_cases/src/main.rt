//! What tables answer after edits.
//!
//! A case is calls on three tables, numbered from 0, with ` | ` between two, and its answer is that of its
//! questions. `put TABLE KEY CELLS`, `move TABLE OLD KEY CELLS`, `remove TABLE KEY`, `clear TABLE` and `nothing
//! TABLE` are edits. `get TABLE KEY` asks for the values of a row, `walk TABLE` for all rows, `rows` for how many
//! there are in all tables. `snapshot` puts a snapshot aside, and `swap` changes places with it. Values and cells
//! stand with a comma between two: whole numbers, `null`, else texts; a cell `-` is absent.
#![tactic(auto)]

mod asked;
mod edits;

use case_lines::{answer_cases, text_of};
use rt_replica::Tables;
use std::alloc::Global;
use std::{io, mem};

const TABLES: usize = 3;

fn answer(alloc: Global, case: &[u8]) -> io::Result<String> {
    let mut tables = Tables::new(alloc, TABLES)?;
    let mut aside = Tables::new(alloc, TABLES)?;
    let mut answer = String::new(alloc);
    for call in text_of(case)?.split(" | ") {
        match call {
            "snapshot" => aside = tables.snapshot()?,
            "swap" => mem::swap(&mut tables, &mut aside),
            _ => match asked::answer(alloc, &tables, call)? {
                Some(part) => asked::push_part(&mut answer, part.as_str())?,
                None => edits::make(alloc, &mut tables, call)?,
            },
        }
    }
    Ok(answer)
}

fn main(rt: HostRuntime) -> io::Result<()> {
    answer_cases(&rt, answer)
}
