//! The loop of the programs whose cases are lines of text: a line of standard input, an answer.
#![tactic(auto)]

mod signs;

use signs::expand_signs;
use std::alloc::Global;
use std::io::{self, BufRead, BufReader, BufWriter, Write};

/// Returns a case as text.
///
/// # Errors
///
/// `InvalidData`: it is no UTF-8.
pub fn text_of(case: &[u8]) -> io::Result<&str> {
    match str::from_utf8(case) {
        Ok(text) => Ok(text),
        Err(_) => Err(io::ErrorKind::InvalidData.into()),
    }
}

/// Prints the answer to each line of standard input, a line each.
///
/// A line that begins with `#` and an empty one group the cases: they are passed over. In each other
/// line `‹0D 0A›` stands for bytes, two hexadecimal digits each, and `‹61×3000›` for one byte so
/// often, at most 4 MiB; `answer` is given the line with its signs expanded.
///
/// # Errors
///
/// - `InvalidData`: a line is no UTF-8.
/// - `InvalidInput`: a line has a `‹` that begins no sign.
/// - Else where standard input or output fails, or `answer` does, as when memory runs out.
pub fn answer_cases<R, F>(rt: &R, answer: F) -> io::Result<()>
where
    R: Input + Print + AllocGlobal,
    F: Fn(Global, &[u8]) -> io::Result<String>,
    requires { F.IsAlwaysCallable answer }
{
    let mut output = BufWriter::new(rt.alloc(), io::writer(rt))?;
    for line in BufReader::new(rt.alloc(), rt.reader())?.lines(rt.alloc()) {
        let line = line?;
        if line.is_empty() || line.starts_with("#") {
            continue;
        }
        let case = expand_signs(rt.alloc(), line.as_str())?;
        let answered = answer(rt.alloc(), case.as_slice())?;
        output.write_all(answered.as_bytes())?;
        output.write_all(b"\n")?;
    }
    output.flush()
}
