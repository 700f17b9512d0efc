use rt_sql::{SqlFault, byte_tokens, tokens};
use std::alloc::Global;
use std::fmt::Write;
use std::io;

/// Each token's kind, place and bytes, or the fault.
pub fn of_text(alloc: Global, text: &str) -> io::Result<String> {
    answered(alloc, tokens_in(alloc, text))
}

/// Each token's kind and places, or the fault.
pub fn of_bytes(alloc: Global, bytes: &[u8]) -> io::Result<String> {
    answered(alloc, tokens_in_bytes(alloc, bytes))
}

/// What was told of the tokens, or the fault.
pub fn answered(alloc: Global, told: Result<String, SqlFault>) -> io::Result<String> {
    match told {
        Ok(answer) => Ok(answer),
        Err(SqlFault::NoMemory) => Err(io::ErrorKind::OutOfMemory.into()),
        Err(fault) => Ok(format!(in alloc; "{fault}")?),
    }
}

fn tokens_in(alloc: Global, text: &str) -> Result<String, SqlFault> {
    let mut answer = String::new(alloc);
    for token in &tokens(alloc, text)? {
        let blank = if answer.is_empty() { "" } else { " " };
        let kind = token.kind;
        let from = token.from;
        let slice = token.slice(text);
        write!(answer, "{blank}{kind:?}@{from}:{slice}")?;
    }
    Ok(answer)
}

fn tokens_in_bytes(alloc: Global, bytes: &[u8]) -> Result<String, SqlFault> {
    let mut answer = String::new(alloc);
    for token in &byte_tokens(alloc, bytes)? {
        let blank = if answer.is_empty() { "" } else { " " };
        let kind = token.kind;
        let from = token.from;
        let to = token.to;
        write!(answer, "{blank}{kind:?}@{from}..{to}")?;
    }
    Ok(answer)
}
