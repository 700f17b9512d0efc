ghost use Rattle.std.specs.Prelude.{◌≡◌, MatchResult};
ghost use Rattle.rt_json.specs.Grammar.{IsJson};
ghost use Rattle.rt_wal.specs.Records as spec;
ghost use Rattle.rt_wal.specs.Records.{IsRecord, IsRecordText, IsFault, IsTextFault, IsTreeFault};

use crate::faults::{RecordWhy, WalFault};
use crate::records::Record;
use crate::shapes::shape_of;
use crate::times::time_in;
use rt_json::{Json, JsonFault, read};
use std::alloc::Global;

fn ends_in(bytes: &[u8], byte: u8) -> bool
    ensures { result ≡ spec.ends_in byte bytes.now }
{
    bytes.last().map_or(false, |last| *last == byte)
}

/// The bytes without the byte at their end, if it stands there.
pub fn without_last(bytes: &[u8], byte: u8) -> &[u8]
    ensures { result.now ≡ spec.without_last byte bytes.now }
{
    if ends_in(bytes, byte) {
        &bytes[..bytes.len() - 1]
    } else {
        bytes
    }
}

/// A line without its end: an LF, and a CR before that. A line without an LF has no end.
pub fn content_of(line: &[u8]) -> &[u8]
    ensures { result.now ≡ spec.content_of line.now }
{
    if ends_in(line, b'\n') {
        without_last(without_last(line, b'\n'), b'\r')
    } else {
        line
    }
}

/// The fault of a line that is no JSON.
fn not_json() -> WalFault
    ensures { result ≡ WalFault.BadRecord RecordWhy.Json }
{
    WalFault::BadRecord {
        why: RecordWhy::Json,
    }
}

fn tree_of(alloc: Global, text: &[u8]) -> Result<Json, WalFault>
    ensures { MatchResult result (IsJson text.now) (IsTreeFault text.now) }
{
    match read(alloc, text) {
        Ok(tree) => Ok(tree),
        Err(JsonFault::NoMemory) => Err(WalFault::NoMemory),
        Err(JsonFault::Bad { .. }) => Err(not_json()),
        Err(JsonFault::TooDeep { .. }) => Err(not_json()),
    }
}

/// The record of a text, which is a line of a wal2json stream, format 2, without its end.
///
/// `BadRecord` has the first reason that applies: the text is no JSON, the tree has not the members of a record, or the
/// commit time has not its form. `NoMemory` comes where memory runs out.
pub fn parse_text(alloc: Global, text: &[u8]) -> Result<Record, WalFault>
    ensures { MatchResult result (IsRecordText text.now) (IsTextFault text.now) }
{
    let tree = tree_of(alloc, text)?;
    let Some(record) = shape_of(alloc, text.len(), &tree)? else {
        return Err(WalFault::BadRecord {
            why: RecordWhy::Shape,
        });
    };
    let moment = time_in(alloc, &tree)?;
    Ok(Record { moment, ..record })
}

/// The record of a line of a wal2json stream, format 2: that of its text without the line's end, which the last line may
/// lack. Its errors are those of `parse_text`.
pub fn parse_record(alloc: Global, line: &[u8]) -> Result<Record, WalFault>
    ensures { MatchResult result (IsRecord line.now) (IsFault line.now) }
{
    parse_text(alloc, content_of(line))
}
