use case_lines::text_of;
use rt_io::{MemSink, MemSource, Sink, Source, read_all, write_all};
use rt_value::{Bytes, List};
use std::alloc::{AllocError, Global};
use std::io;

/// How many bytes a whole read gives, or its fault, and the source's faults.
pub fn read(alloc: Global, words: &[&str]) -> io::Result<String> {
    let [count, limit, failing @ ..] = words else {
        return Err(io::ErrorKind::InvalidInput.into());
    };
    let count = size(count)?;
    let limit = size(limit)?;
    let failing = calls(alloc, failing)?;
    Ok(outcome(alloc, source(alloc, count, failing)?, limit)?)
}

fn source(alloc: Global, count: usize, failing: List<u64>) -> Result<MemSource, AllocError> {
    let bytes = vec![in alloc; b'x'; count]?;
    Ok(MemSource::new(Bytes::new(bytes), failing))
}

fn outcome(alloc: Global, mut source: MemSource, limit: usize) -> Result<String, AllocError> {
    let ended = read_all(alloc, &mut source, limit);
    let faults = source.faults();
    match ended {
        Ok(bytes) => {
            let count = bytes.get().len();
            format!(in alloc; "{count} bytes, {faults} faults")
        }
        Err(fault) => format!(in alloc; "{fault}, {faults} faults"),
    }
}

/// What a whole write of `abcd` puts into a sink, its fault, and the sink's faults.
pub fn written(alloc: Global, words: &[&str]) -> io::Result<String> {
    let [room, failing @ ..] = words else {
        return Err(io::ErrorKind::InvalidInput.into());
    };
    let mut sink = MemSink::new(alloc, size(room)?, calls(alloc, failing)?)?;
    let ended = write_all(&mut sink, b"abcd");
    let faults = sink.faults();
    let taken = text_of(sink.written())?;
    match ended {
        Ok(()) => Ok(format!(in alloc; "'{taken}', {faults} faults")?),
        Err(fault) => Ok(format!(in alloc; "'{taken}', {fault}, {faults} faults")?),
    }
}

fn size(word: &str) -> io::Result<usize> {
    match word.parse::<usize>().ok() {
        Some(size) => Ok(size),
        None => Err(io::ErrorKind::InvalidInput.into()),
    }
}

/// The calls that fail.
fn calls(alloc: Global, words: &[&str]) -> io::Result<List<u64>> {
    let mut calls = Vec::new(alloc);
    for word in words {
        match word.parse::<u64>().ok() {
            Some(call) => calls.push(call)?,
            None => return Err(io::ErrorKind::InvalidInput.into()),
        }
    }
    Ok(List::new(calls))
}
