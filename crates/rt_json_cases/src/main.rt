//! Which trees texts of JSON are, and how trees are spelled.
//!
//! After `read` comes a text: the answer is the spelling of its tree, or its fault. After `copy` the
//! answer is the spelling of a copy, after `member NAME` that of the member of that name, after
//! `behind WORD` the word with the spelling behind it, and after `quoted WORD` the word with the
//! text itself in quotes behind it.
#![tactic(auto)]

mod trees;

use case_lines::{answer_cases, text_of};
use std::alloc::Global;
use std::io;

fn answer(alloc: Global, case: &[u8]) -> io::Result<String> {
    match case.strip_prefix(b"read ") {
        Some(text) => trees::spelled(alloc, text),
        None => answer_text(alloc, text_of(case)?),
    }
}

fn answer_text(alloc: Global, case: &str) -> io::Result<String> {
    let (question, given) = case.split_once(' ').unwrap_or((case, ""));
    if question == "copy" {
        return trees::copied(alloc, given);
    }
    let (word, text) = given.split_once(' ').unwrap_or((given, ""));
    match question {
        "member" => trees::found(alloc, word, text),
        "behind" => trees::behind(alloc, word, text),
        "quoted" => trees::quoted_behind(alloc, word, text),
        _ => Err(io::ErrorKind::InvalidInput.into()),
    }
}

fn main(rt: HostRuntime) -> io::Result<()> {
    answer_cases(&rt, answer)
}
