ghost use Rattle.std.specs.Prelude.{◌≡◌, ◌≤◌, IfOk, IfErr, OnOk, OnErr};
ghost use Rattle.rt_io.specs.Streams.{Rose, Puts};
ghost use Rattle.rt_io.specs.Whole.{ReadsAll, ReadAllCause, TakesFront, PutsFront};

use crate::sink::{Sink, Wrote};
use crate::source::{Read, Source};
use rt_value::Bytes;
use std::alloc::{AllocError, Global};
use thiserror::Error;

/// Why not all of a source was read.
#[derive(Debug, Drop, Error)]
pub enum ReadAllFault {
    /// No memory for the bytes.
    #[error("out of memory")]
    NoMemory,
    /// The source failed, and its count of faults rose.
    #[error("read fault")]
    ReadFault,
    /// The source had more bytes than `limit`.
    #[error("more than {limit} bytes")]
    TooLong { limit: usize },
}

impl From<AllocError> for ReadAllFault {
    ghost use Rattle.std.specs.Prelude.{◌≡◌};
    ghost use Rattle.rt_io.specs.declared.whole.ReadAllFault.TheVariants.{NoMemory};

    ghost from_gives = { λ _ e. e ≡ NoMemory };

    fn from(_: AllocError) -> ReadAllFault {
        ReadAllFault::NoMemory
    }
}

/// The sink failed before it took all bytes.
#[derive(Debug, Drop, Error)]
#[error("write fault")]
pub struct WriteFault;

/// How many bytes one read asks for.
const PIECE: usize = 4096;

/// Reads all bytes up to the end of the source, at most `limit`.
///
/// `ReadFault` where the source failed, `TooLong` where it gave more than `limit` bytes. In both
/// cases some first bytes of what was left were taken from it. The source's count of faults rises
/// with `ReadFault` alone.
pub fn read_all<S: Source>(
    alloc: Global,
    source: &mut S,
    limit: usize,
) -> Result<Bytes, ReadAllFault>
    ensures whole { IfOk result (ReadsAll (S.left source.old) (S.left source.new) limit) }
    ensures cause { IfErr result (ReadAllCause (S.left source.old) (S.faults source.old)
        (S.faults source.new) limit) }
    ensures taken { TakesFront (S.left source.old) (S.left source.new) }
    ensures steady { OnOk result (S.faults source.new ≡ S.faults source.old) }
    ensures later { S.faults source.old ≤ S.faults source.new }
{
    let mut bytes = Vec::new(alloc);
    let mut buf = [0u8; PIECE];
    loop {
        match source.read(&mut buf) {
            Read::Failed => return Err(ReadAllFault::ReadFault),
            Read::Bytes(0) => return Ok(Bytes::new(bytes)),
            Read::Bytes(count) => {
                if count > limit - bytes.len() {
                    return Err(ReadAllFault::TooLong { limit });
                }
                bytes.extend_from_slice(&buf[..count])?;
            }
        }
    }
}

/// Writes all bytes, without memory.
///
/// `WriteFault` where the sink failed; some first bytes were written then. Else its count of faults
/// stays.
pub fn write_all<S: Sink>(sink: &mut S, bytes: &[u8]) -> Result<(), WriteFault>
    ensures whole { OnOk result (Puts (S.held sink.old) (S.held sink.new) bytes.now) }
    ensures front { OnErr result (PutsFront (S.held sink.old) (S.held sink.new) bytes.now) }
    ensures cause { OnErr result (Rose (S.faults sink.old) (S.faults sink.new)) }
    ensures steady { OnOk result (S.faults sink.new ≡ S.faults sink.old) }
    ensures later { S.faults sink.old ≤ S.faults sink.new }
{
    let mut at = 0;
    while at < bytes.len() {
        match sink.write(&bytes[at..]) {
            Wrote::Failed => return Err(WriteFault),
            Wrote::Bytes(count) => at += count,
        }
    }
    Ok(())
}
