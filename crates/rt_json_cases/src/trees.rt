use case_lines::text_of;
use rt_json::{Json, JsonFault, member, read, write, write_behind, write_text_behind};
use std::alloc::Global;
use std::io;

/// The spelling of a text's tree, or the text's fault.
pub fn spelled(alloc: Global, text: &[u8]) -> io::Result<String> {
    match read(alloc, text) {
        Ok(tree) => spelling(alloc, &tree),
        Err(JsonFault::NoMemory) => Err(io::ErrorKind::OutOfMemory.into()),
        Err(fault) => Ok(format!(in alloc; "{fault}")?),
    }
}

/// The spelling of a copy of a text's tree.
pub fn copied(alloc: Global, text: &str) -> io::Result<String> {
    let copy = tree(alloc, text)?.copy(alloc)?;
    spelling(alloc, &copy)
}

/// The spelling of a member of a text's tree.
pub fn found(alloc: Global, name: &str, text: &str) -> io::Result<String> {
    let tree = tree(alloc, text)?;
    match member(&tree, name) {
        Some(value) => spelling(alloc, value),
        None => Ok(String::from_str(alloc, "none")?),
    }
}

/// A word, and behind it the spelling of a text's tree.
pub fn behind(alloc: Global, word: &str, text: &str) -> io::Result<String> {
    let tree = tree(alloc, text)?;
    let bytes = write_behind(Vec::from_slice(alloc, word.as_bytes())?, &tree)?;
    Ok(String::from_str(alloc, text_of(bytes.as_slice())?)?)
}

/// A word, and behind it a text in quotes.
pub fn quoted_behind(alloc: Global, word: &str, text: &str) -> io::Result<String> {
    let mut bytes = Vec::from_slice(alloc, word.as_bytes())?;
    write_text_behind(&mut bytes, text)?;
    Ok(String::from_str(alloc, text_of(bytes.as_slice())?)?)
}

fn tree(alloc: Global, text: &str) -> io::Result<Json> {
    match read(alloc, text.as_bytes()) {
        Ok(tree) => Ok(tree),
        Err(_) => Err(io::ErrorKind::InvalidInput.into()),
    }
}

fn spelling(alloc: Global, tree: &Json) -> io::Result<String> {
    let bytes = write(alloc, tree)?;
    Ok(String::from_str(alloc, text_of(bytes.get())?)?)
}
