//! Codes of bytes, tokens signed and checked, and the claims of trees.
//!
//! A case is `hmac KEY|BYTES`, `sign SECRET|CLAIMS`, `check SECRET|SECONDS|TOKEN` or `claims JSON`. A
//! code is answered by its hexadecimal digits, claims by their role, sub, exp and members.
#![tactic(auto)]

mod codes;
mod tokens;

use case_lines::answer_cases;
use std::alloc::Global;
use std::io;

/// What stands before the first such byte, and what stands behind it.
fn cut_at(case: &[u8], byte: u8) -> (&[u8], &[u8]) {
    match case.iter().position(|b| *b == byte) {
        Some(at) => (&case[..at], &case[at + 1..]),
        None => (case, b""),
    }
}

fn answer(alloc: Global, case: &[u8]) -> io::Result<String> {
    let (question, given) = cut_at(case, b' ');
    match question {
        b"claims" => tokens::claims(alloc, given),
        _ => answer_with_secret(alloc, question, given),
    }
}

fn answer_with_secret(alloc: Global, question: &[u8], given: &[u8]) -> io::Result<String> {
    let (secret, given) = cut_at(given, b'|');
    match question {
        b"hmac" => codes::code(alloc, secret, given),
        b"sign" => codes::signed(alloc, secret, given),
        b"check" => checked(alloc, secret, given),
        _ => Err(io::ErrorKind::InvalidInput.into()),
    }
}

fn checked(alloc: Global, secret: &[u8], given: &[u8]) -> io::Result<String> {
    let (seconds, token) = cut_at(given, b'|');
    tokens::checked(alloc, secret, seconds, token)
}

fn main(rt: HostRuntime) -> io::Result<()> {
    answer_cases(&rt, answer)
}
