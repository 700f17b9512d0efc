//! What the text of a filter is read as, what test it is on columns, and which rows pass that test.
//!
//! The first lines of `stdin` say how a case is written.
#![tactic(auto)]

mod table;

use case_lines::{answer_cases, text_of};
use rt_filter::{Filter, FilterFault, Shown, Test, check, passes, read};
use std::alloc::{AllocError, Global};
use std::fmt::Write;
use std::io;
use table::{cells_of, columns_of};

/// Returns the column, the operator and the values, each value behind a `|`.
fn written(alloc: Global, filter: &Filter) -> Result<String, AllocError> {
    let column = filter.column.get();
    let op = filter.op;
    let mut text = format!(in alloc; "{column} {op:?}")?;
    for value in filter.values.get() {
        text.push('|')?;
        text.push_str(value.get())?;
    }
    Ok(text)
}

/// Returns the place of the column, the operator and the number of values.
fn described(alloc: Global, test: &Test) -> Result<String, AllocError> {
    let column = test.column;
    let op = test.op;
    let count = test.values.get().len();
    format!(in alloc; "{column} {op:?} {count}")
}

/// Returns the text of a fault.
///
/// # Errors
///
/// `OutOfMemory` where that is the fault.
fn refusal(alloc: Global, fault: FilterFault) -> io::Result<String> {
    match fault {
        FilterFault::NoMemory => Err(io::ErrorKind::OutOfMemory.into()),
        _ => Ok(format!(in alloc; "{fault}")?),
    }
}

fn reading(alloc: Global, text: &str) -> io::Result<String> {
    match read(alloc, text) {
        Ok(filter) => Ok(written(alloc, &filter)?),
        Err(fault) => refusal(alloc, fault),
    }
}

fn test_of(alloc: Global, text: &str, columns: &[Shown]) -> Result<Test, FilterFault> {
    check(alloc, &read(alloc, text)?, columns)
}

fn checking(alloc: Global, text: &str, columns: &[Shown]) -> io::Result<String> {
    match test_of(alloc, text, columns) {
        Ok(test) => Ok(described(alloc, &test)?),
        Err(fault) => refusal(alloc, fault),
    }
}

/// Says of each row whether it passes.
fn verdicts(alloc: Global, test: &Test, columns: &[Shown], rows: &str) -> io::Result<String> {
    let mut answer = String::new(alloc);
    for row in rows.split(" | ") {
        if !answer.is_empty() {
            answer.push(' ')?;
        }
        let cells = cells_of(alloc, columns, row)?;
        answer.push_str(if passes(test, &cells) {
            "passes"
        } else {
            "fails"
        })?;
    }
    Ok(answer)
}

fn passing(alloc: Global, text: &str, columns: &[Shown]) -> io::Result<String> {
    let (filter, rows) = text.split_once(" | ").ok_or(io::ErrorKind::InvalidInput)?;
    match test_of(alloc, filter, columns) {
        Ok(test) => verdicts(alloc, &test, columns, rows),
        Err(fault) => refusal(alloc, fault),
    }
}

/// Answers a case.
///
/// # Errors
///
/// `InvalidInput` where the line is no case; `OutOfMemory`.
fn answer(alloc: Global, case: &str) -> io::Result<String> {
    let (question, rest) = case.split_once(' ').unwrap_or((case, ""));
    if question == "read" {
        return reading(alloc, rest);
    }
    let (columns, text) = rest.split_once(": ").ok_or(io::ErrorKind::InvalidInput)?;
    let columns = columns_of(alloc, columns)?;
    match question {
        "check" => checking(alloc, text, columns.as_slice()),
        "pass" => passing(alloc, text, columns.as_slice()),
        _ => Err(io::ErrorKind::InvalidInput.into()),
    }
}

fn answer_or_say(alloc: Global, case: &[u8]) -> io::Result<String> {
    match answer(alloc, text_of(case)?) {
        Err(error) if error.kind() == io::ErrorKind::InvalidInput => {
            Ok(String::from_str(alloc, "no case")?)
        }
        answered => answered,
    }
}

fn main(rt: HostRuntime) -> io::Result<()> {
    answer_cases(&rt, answer_or_say)
}
