//! What texts mean as values, how values compare, and what a table has before and after an edit.
//!
//! In a case a value is `null`, or its kind and its text, as `int8:-2`; in an answer a text stands in
//! quotes. A row is its key, a whole number, and its name, a text or `null`, as `3=a`.
#![tactic(auto)]

mod copies;
mod edits;
mod rows;
mod values;

use case_lines::{answer_cases, text_of};
use std::alloc::Global;
use std::io;

fn answer(alloc: Global, case: &[u8]) -> io::Result<String> {
    match case.strip_prefix(b"bytes ") {
        Some(bytes) => copies::bytes(alloc, bytes),
        None => answer_text(alloc, text_of(case)?),
    }
}

fn answer_text(alloc: Global, case: &str) -> io::Result<String> {
    let Some((question, given)) = case.split_once(' ') else {
        return Err(io::ErrorKind::InvalidInput.into());
    };
    match question {
        "read" => values::read(alloc, given),
        "compare" => values::compared(alloc, given),
        "show" => values::shown(alloc, given),
        "copy" => copies::row(alloc, given),
        "claims" => copies::claims(alloc, given),
        "shared" => copies::shared(alloc, given),
        "first" | "after" | "walk" | "with" => rows::answer(alloc, question, given),
        _ => edits::answer(alloc, question, given),
    }
}

fn main(rt: HostRuntime) -> io::Result<()> {
    answer_cases(&rt, answer)
}
