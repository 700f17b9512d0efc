//! For each line of standard input the spelling of its JSON text, or the place of its fault.
#![tactic(auto)]

mod lines;

use lines::answer_lines;
use std::io::{self, BufReader, BufWriter};

/// Bytes that are read or written at a time.
const ROOM: usize = 65536;

fn main(rt: HostRuntime) -> io::Result<()> {
    let mut input = BufReader::with_capacity(rt.alloc(), ROOM, rt.stdin())?;
    let mut output = BufWriter::with_capacity(rt.alloc(), ROOM, io::writer(&rt))?;
    answer_lines(rt.alloc(), &mut input, &mut output)
}
