ghost use Rattle.std.specs.Prelude.{◌≤◌, IfOk};

use rt_io::{Sink, Source, StandardSink, StandardSource, read_all};
use std::alloc::Global;
use std::io;

/// A writer and reader that answers this count, at most what it was asked for, or fails.
#[derive(Drop)]
pub struct Device(Option<usize>);

impl Device {
    fn answer(&self, most: usize) -> io::Result<usize>
        ensures { IfOk result (λ count. count ≤ most) }
    {
        match self.0 {
            Some(count) => Ok(count.min(most)),
            None => Err(io::ErrorKind::Other.into()),
        }
    }
}

impl io::Read for Device {
    fn read(&mut self, buf: &mut [u8]) -> io::Result<usize> {
        self.answer(buf.len())
    }
}

impl io::Write for Device {
    fn write(&mut self, buf: &[u8]) -> io::Result<usize> {
        self.answer(buf.len())
    }

    fn flush(&mut self) -> io::Result<()> {
        Ok(())
    }
}

/// The device whose count is the word, or that fails where it is none.
pub fn device_of(words: &[&str]) -> Device {
    match words.first() {
        Some(word) => Device(word.parse::<usize>().ok()),
        None => Device(None),
    }
}

/// One read of 8 bytes, and the source's faults.
pub fn read(alloc: Global, device: Device) -> io::Result<String> {
    let mut buf = [0u8; 8];
    let mut source = StandardSource::new(Ok(device));
    let answer = source.read(&mut buf);
    Ok(format!(in alloc; "{answer:?}, {} faults", source.faults())?)
}

/// One write of 4 bytes, and the sink's faults.
pub fn written(alloc: Global, device: Device) -> io::Result<String> {
    let mut sink = StandardSink::new(device);
    let answer = sink.write(b"abcd");
    Ok(format!(in alloc; "{answer:?}, {} faults", sink.faults())?)
}

/// What a whole read of what could not be opened gives.
pub fn unopened(alloc: Global) -> io::Result<String> {
    let closed: io::Result<Device> = Err(io::ErrorKind::NotFound.into());
    let mut source = StandardSource::new(closed);
    match read_all(alloc, &mut source, 1) {
        Ok(_) => Ok(String::from_str(alloc, "read")?),
        Err(fault) => Ok(format!(in alloc; "{fault}")?),
    }
}
