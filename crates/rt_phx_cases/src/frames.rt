use case_lines::text_of;
use rt_json::{Json, read};
use rt_phx::{Message, PhxFault, Version, decode, encode};
use std::alloc::Global;
use std::io;

/// A case that is none.
pub fn wrong() -> io::Error {
    io::ErrorKind::InvalidInput.into()
}

/// The tree of a JSON text.
pub fn tree(alloc: Global, text: &str) -> io::Result<Json> {
    match read(alloc, text.as_bytes()) {
        Ok(tree) => Ok(tree),
        Err(_) => Err(wrong()),
    }
}

/// The message of a frame of version 2.
pub fn frame_of(alloc: Global, text: &str) -> io::Result<Message> {
    match decode(alloc, Version::V2, text.as_bytes()) {
        Ok(message) => Ok(message),
        Err(_) => Err(wrong()),
    }
}

/// What stands before the first blank, and what stands behind it.
pub fn first_word(case: &[u8]) -> (&[u8], &[u8]) {
    match case.iter().position(|byte| *byte == b' ') {
        Some(at) => (&case[..at], &case[at + 1..]),
        None => (case, b""),
    }
}

/// A message as a version spells it.
pub fn spelled(alloc: Global, version: Version, message: &Message) -> io::Result<String> {
    let bytes = encode(alloc, version, message)?;
    Ok(String::from_str(alloc, text_of(bytes.get())?)?)
}

/// `bad frame`.
fn refused(alloc: Global, fault: PhxFault) -> io::Result<String> {
    match fault {
        PhxFault::BadFrame => Ok(format!(in alloc; "{fault}")?),
        PhxFault::NoMemory => Err(io::ErrorKind::OutOfMemory.into()),
    }
}

/// The message of a frame, as another version spells it.
pub fn respelled(alloc: Global, frame: &[u8], from: Version, to: Version) -> io::Result<String> {
    match decode(alloc, from, frame) {
        Ok(message) => {
            let copy = message.copy(alloc)?;
            spelled(alloc, to, &copy)
        }
        Err(fault) => refused(alloc, fault),
    }
}

/// The length of a frame of version 2.
pub fn size(alloc: Global, frame: &[u8]) -> io::Result<String> {
    match decode(alloc, Version::V2, frame) {
        Ok(_) => Ok(format!(in alloc; "{} bytes", frame.len())?),
        Err(fault) => refused(alloc, fault),
    }
}
