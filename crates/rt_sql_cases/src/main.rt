//! Which tokens texts are cut into, and what the tokens are.
//!
//! After `tokens` comes a text: the answer is the kind, the place and the bytes of each token, or the
//! fault. After `bytes` come bytes, and the answer is the kind and the places of each token. After
//! `names` the answer is what each token keeps; after `keyword WORD` and `sign SIGN` whether each is
//! that one.
#![tactic(auto)]

mod cuts;
mod meanings;

use case_lines::{answer_cases, text_of};
use std::alloc::Global;
use std::io;

fn answer(alloc: Global, case: &[u8]) -> io::Result<String> {
    match case.strip_prefix(b"bytes ") {
        Some(bytes) => cuts::of_bytes(alloc, bytes),
        None => answer_text(alloc, text_of(case)?),
    }
}

fn answer_text(alloc: Global, case: &str) -> io::Result<String> {
    let (question, given) = case.split_once(' ').unwrap_or((case, ""));
    match question {
        "tokens" => cuts::of_text(alloc, given),
        "names" => meanings::names(alloc, given),
        _ => answer_about(alloc, question, given),
    }
}

fn answer_about(alloc: Global, question: &str, given: &str) -> io::Result<String> {
    let (word, text) = given.split_once(' ').unwrap_or((given, ""));
    match question {
        "keyword" => meanings::keywords(alloc, word, text),
        "sign" => meanings::signs(alloc, word, text),
        _ => Err(io::ErrorKind::InvalidInput.into()),
    }
}

fn main(rt: HostRuntime) -> io::Result<()> {
    answer_cases(&rt, answer)
}
