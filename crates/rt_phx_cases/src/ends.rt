use rt_phx::EndName;
use std::alloc::Global;
use std::io;

/// What an opening's end is called to its slot.
pub fn end_text(alloc: Global, name: &str) -> io::Result<String> {
    let end = match name {
        "Gone" => EndName::Gone,
        "BadFrame" => EndName::BadFrame,
        "Idle" => EndName::Idle,
        "Replaced" => EndName::Replaced,
        "Stopped" => EndName::Stopped,
        "OutboxFull" => EndName::OutboxFull,
        _ => return Err(io::ErrorKind::InvalidInput.into()),
    };
    Ok(String::from_str(alloc, end.text())?)
}
