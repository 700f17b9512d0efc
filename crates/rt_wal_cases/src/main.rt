//! What lines of a wal2json stream say, and the batches that they are cut into.
//!
//! After `record` comes a line; the answer is its action, schema, table, columns, identity, keys,
//! commit time and bytes. After `time` comes a text; the answer is what it is as a commit time. After
//! `batches` come the least number of records and the lines, with ` | ` between two; the answer is the
//! actions of each batch, with ` | ` between two batches.
#![tactic(auto)]

mod batches;
mod records;

use case_lines::{answer_cases, text_of};
use std::alloc::Global;
use std::io;

fn answer(alloc: Global, case: &[u8]) -> io::Result<String> {
    match case.strip_prefix(b"record ") {
        Some(line) => records::record(alloc, line),
        None => answer_text(alloc, text_of(case)?),
    }
}

fn answer_text(alloc: Global, case: &str) -> io::Result<String> {
    match case.split_once(' ') {
        Some(("time", text)) => records::moment(alloc, text),
        Some(("batches", given)) => batches::batches(alloc, given),
        _ => Err(io::ErrorKind::InvalidInput.into()),
    }
}

fn main(rt: HostRuntime) -> io::Result<()> {
    answer_cases(&rt, answer)
}
