use std::io;
use std::io::Read;
use std::rt::Files;

/// A script's reader: a file, or standard input for the word `-`.
#[derive(Drop)]
pub enum ScriptReader<F, I> {
    File(F),
    Input(I),
}

impl<F: Read, I: Read> Read for ScriptReader<F, I> {
    fn read(&mut self, buf: &mut [u8]) -> io::Result<usize> {
        match self {
            ScriptReader::File(file) => file.read(buf),
            ScriptReader::Input(input) => input.read(buf),
        }
    }
}

/// Opens the place that a word names.
pub fn open_script<R: Files + Input>(
    rt: &R,
    word: &str,
) -> io::Result<ScriptReader<R::File, R::Reader>> {
    if word == "-" {
        return Ok(ScriptReader::Input(rt.reader()));
    }
    match std::fs::open(rt, word) {
        Ok(file) => Ok(ScriptReader::File(file)),
        Err(fault) => Err(fault),
    }
}
