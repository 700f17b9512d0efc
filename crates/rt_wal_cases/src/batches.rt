ghost use Rattle.std.specs.Prelude.{◌≤◌};

use crate::records::refused;
use rt_wal::{Batcher, Batching, Record};
use std::alloc::{AllocError, Global};
use std::fmt::Write;
use std::io;

/// The batches that lines are cut into.
pub fn batches(alloc: Global, given: &str) -> io::Result<String> {
    let Some((max, lines)) = given.split_once(": ") else {
        return Err(io::ErrorKind::InvalidInput.into());
    };
    match max.parse::<usize>() {
        Ok(max) if max >= 1 => batches_of(alloc, max, lines),
        _ => Err(io::ErrorKind::InvalidInput.into()),
    }
}

fn batches_of(alloc: Global, max: usize, lines: &str) -> io::Result<String>
    requires { 1 ≤ max }
{
    let mut batcher = Batcher::new(alloc, max);
    let mut answer = String::new(alloc);
    for line in lines.split(" | ") {
        push_part(&mut answer, given_by(alloc, &mut batcher, line)?.as_str())?;
    }
    if let Some(batch) = batcher.end() {
        push_part(&mut answer, actions(alloc, batch.get())?.as_str())?;
    }
    Ok(answer)
}

/// What a line gives: the batch that it ends, else nothing; or why it is refused.
fn given_by(alloc: Global, batcher: &mut Batcher, line: &str) -> io::Result<String> {
    match batcher.line(line.as_bytes()) {
        Ok(Batching::Batch(batch)) => Ok(actions(alloc, batch.get())?),
        Ok(Batching::More) => Ok(String::new(alloc)),
        Err(fault) => refused(alloc, fault),
    }
}

fn actions(alloc: Global, batch: &[Record]) -> Result<String, AllocError> {
    let mut text = String::new(alloc);
    for record in batch {
        let action = record.action;
        let blank = if text.is_empty() { "" } else { " " };
        write!(text, "{blank}{action:?}")?;
    }
    Ok(text)
}

fn push_part(answer: &mut String, part: &str) -> Result<(), AllocError> {
    if !answer.is_empty() && !part.is_empty() {
        answer.push_str(" | ")?;
    }
    answer.push_str(part)
}
