ghost use Rattle.std.specs.Prelude.{◌≡◌, ◌≤◌, ℕ, List, [], ◌++◌, take, drop, length, Ok, true, false, IfOk, OnOk};
ghost use Rattle.std.specs.Fmt.{decimal};
ghost use Rattle.std.specs.Io.BufRead.{strip_last};
ghost use Rattle.json_lines.specs.Lines.{IsAnswer, Answers, HasAnswered};
ghost use Rattle.json_lines.specs.Parts.{Takes, IsWhole, IsPart};

use memchr::memchr;
use rt_json::{JsonFault, read, write_behind};
use std::alloc::{AllocError, Global};
use std::io::{self, BufRead, ErrorKind, Write};

/// How many bytes there are up to the first line feed and with it, or in all, and whether the line is whole: with a
/// line feed, or where there is none left to read.
fn part_end(bytes: &[u8]) -> (usize, bool)
    ensures within { result.0 ≤ length bytes.now }
    ensures whole { result.1 ≡ true → (rest : List ℕ) → (length bytes.now ≡ 0 → rest ≡ [])
        → IsWhole (bytes.now ++ rest) (take result.0 bytes.now) (drop result.0 bytes.now ++ rest) }
    ensures part { result.1 ≡ false → (rest : List ℕ)
        → IsPart (bytes.now ++ rest) (take result.0 bytes.now) (drop result.0 bytes.now ++ rest) }
{
    match memchr(b'\n', bytes) {
        Some(at) => (at + 1, true),
        None => (bytes.len(), bytes.is_empty()),
    }
}

/// Puts what the reader shows of a line behind what is there of it. Says whether the line is whole.
fn read_part<R: BufRead>(input: &mut R, line: &mut Vec<u8>) -> io::Result<bool>
    ensures whole { result ≡ Ok true
        → Takes IsWhole (R.remaining input.old) (R.remaining input.new) line.old.items line.new.items }
    ensures part { result ≡ Ok false
        → Takes IsPart (R.remaining input.old) (R.remaining input.new) line.old.items line.new.items }
{
    let bytes = match input.fill_buf() {
        Ok(bytes) => bytes,
        Err(e) => {
            return if e.kind() == ErrorKind::Interrupted {
                Ok(false)
            } else {
                Err(e)
            };
        }
    };
    let (end, is_whole) = part_end(bytes);
    line.extend_from_slice(&bytes[..end])?;
    input.consume(end);
    Ok(is_whole)
}

/// The next line with its line feed in place of what was there, nothing at the end. It searches by `memchr`, where
/// `read_until` goes byte by byte.
fn read_line<R: BufRead>(input: &mut R, line: &mut Vec<u8>) -> io::Result<()>
    ensures { OnOk result (Takes IsWhole (R.remaining input.old) (R.remaining input.new) [] line.new.items) }
{
    line.clear();
    'parts: for _ in 0..u64::MAX {
        if read_part(input, line)? {
            return Ok(());
        }
    }
    Err(ErrorKind::Other.into())
}

/// A line without the line feed at its end.
fn text(line: &[u8]) -> &[u8]
    ensures { result.now ≡ strip_last 10 line.now }
{
    let len = line.len();
    if len > 0 && line[len - 1] == b'\n' {
        &line[..len - 1]
    } else {
        line
    }
}

/// The output with a fault's words and its place behind it.
fn told(alloc: Global, out: Vec<u8>, words: &str, at: usize) -> Result<Vec<u8>, AllocError>
    ensures { IfOk result (λ all. all.items ≡ out.items ++ (words.now ++ decimal at)) }
{
    let text = format!(in alloc; "{words}{at}")?;
    let mut out = out;
    out.extend_from_slice(text.as_bytes())?;
    Ok(out)
}

/// The room of bytes, with nothing in it.
fn emptied(bytes: Vec<u8>) -> Vec<u8>
    ensures { result.items ≡ [] }
{
    let mut room = bytes;
    room.clear();
    room
}

/// The answer to a line, in the line's room.
fn answer(alloc: Global, line: Vec<u8>) -> Result<Vec<u8>, AllocError>
    ensures { IfOk result (λ all. IsAnswer (strip_last 10 line.items) all.items) }
{
    match read(alloc, text(&line)) {
        Ok(tree) => write_behind(emptied(line), &tree),
        Err(JsonFault::Bad { at }) => told(alloc, emptied(line), "bad ", at),
        Err(JsonFault::TooDeep { at }) => told(alloc, emptied(line), "too deep ", at),
        Err(JsonFault::NoMemory) => Err(AllocError),
    }
}

/// Writes the answers to all lines that the reader has left, each with a line feed behind it. Fails where the reader
/// or the writer does, for want of memory, or past `u64::MAX` lines.
pub fn answer_lines<R: BufRead, W: Write>(
    alloc: Global,
    input: &mut R,
    output: &mut W,
) -> io::Result<()>
    ensures { OnOk result (HasAnswered (R.remaining input.old) (W.contents output.old) (W.contents output.new)) }
{
    let mut line = Vec::new(alloc);
    'lines: for _ in 0..u64::MAX {
        read_line(input, &mut line)?;
        if line.is_empty() {
            return output.flush();
        }
        line = answer(alloc, line)?;
        line.push(b'\n')?;
        output.write_all(&line)?;
    }
    Err(ErrorKind::Other.into())
}

/// The answers to all lines of bytes in memory, each with a line feed behind it. Fails for want of memory.
pub fn answers(alloc: Global, input: &[u8]) -> io::Result<Vec<u8>>
    ensures { IfOk result (λ output. Answers input.now output.items) }
{
    let mut left = input;
    let mut output = Vec::new(alloc);
    answer_lines(alloc, &mut left, &mut output)?;
    Ok(output)
}
