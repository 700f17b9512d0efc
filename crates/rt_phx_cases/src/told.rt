use crate::frames::{first_word, frame_of, tree, wrong};
use crate::sayings::numbers;
use case_lines::text_of;
use rt_json::Json;
use rt_phx::{Said, Version, encode_change, encode_said};
use rt_value::Text;
use std::alloc::Global;
use std::io;

/// The message of a frame of version 2 as it is told under another join_ref.
pub fn told(alloc: Global, arguments: &str) -> io::Result<String> {
    let Some((join_ref, frame)) = arguments.split_once(" | ") else {
        return Err(wrong());
    };
    let join_ref = tree(alloc, join_ref)?;
    let said = Said::new(alloc, frame_of(alloc, frame)?)?;
    let told = said.on(alloc, &join_ref, &Json::Null)?.copy(alloc)?;
    let bytes = encode_said(alloc, Version::V2, &told)?;
    Ok(String::from_str(alloc, text_of(bytes.get())?)?)
}

/// A change in a version, of which the text of what it shows is given.
pub fn spliced(alloc: Global, arguments: &[u8]) -> io::Result<String> {
    let (word, rest) = first_word(arguments);
    let version = match word {
        b"V1" => Version::V1,
        b"V2" => Version::V2,
        _ => return Err(wrong()),
    };
    let arguments: Vec<&str> = text_of(rest)?.split(" | ").collect(alloc)?;
    match arguments.as_slice() {
        [join_ref, topic, ids, shown] => changed(alloc, version, join_ref, topic, ids, shown),
        _ => Err(wrong()),
    }
}

fn changed(
    alloc: Global,
    version: Version,
    join_ref: &str,
    topic: &str,
    ids: &str,
    shown: &str,
) -> io::Result<String> {
    let join_ref = tree(alloc, join_ref)?;
    let topic = Text::new(String::from_str(alloc, topic)?);
    let ids = numbers(alloc, ids)?;
    let shown = shown.as_bytes();
    let bytes = encode_change(alloc, version, &join_ref, &topic, ids.as_slice(), shown)?;
    Ok(String::from_str(alloc, text_of(bytes.get())?)?)
}
