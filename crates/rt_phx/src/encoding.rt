ghost use Rattle.std.specs.Prelude.{◌≡◌, ◌++◌, IfOk, IsUtf8};
ghost use Rattle.rt_json.specs.declared.tree.Json.{Null};
ghost use Rattle.rt_json.specs.Written.{written, quoted};
ghost use Rattle.rt_phx.specs.declared.message.Version.TheVariants.{V1, V2};
ghost use Rattle.rt_phx.specs.declared.message.Message.{Message};
ghost use Rattle.rt_phx.specs.Fits.{FitsFrame};
ghost use Rattle.rt_phx.specs.Frame.{IsMessage, message, spelled};

use crate::message::{Message, Version};
use crate::said::Said;
use rt_json::{Json, write_behind, write_text_behind, written_again};
use rt_value::Bytes;
use std::alloc::{AllocError, Global};

pub fn with_str(out: Vec<u8>, text: &str) -> Result<Vec<u8>, AllocError>
    ensures spelling { IfOk result (λ all. all.items ≡ out.items ++ text.now) }
    ensures utf8 { IfOk result (λ all. IsUtf8 out.items → IsUtf8 all.items) }
{
    let mut out = out;
    out.extend_from_slice(text.as_bytes())?;
    Ok(out)
}

pub fn with_tree(out: Vec<u8>, before: &str, tree: &Json) -> Result<Vec<u8>, AllocError>
    ensures spelling { IfOk result (λ all.
        all.items ≡ (out.items ++ before.now) ++ written tree.now) }
    ensures utf8 { IfOk result (λ all. IsUtf8 out.items → IsUtf8 all.items) }
{
    let out = with_str(out, before)?;
    write_behind(out, tree)
}

pub fn with_text(out: Vec<u8>, before: &str, text: &str) -> Result<Vec<u8>, AllocError>
    ensures spelling { IfOk result (λ all.
        all.items ≡ (out.items ++ before.now) ++ quoted text.now) }
    ensures utf8 { IfOk result (λ all. IsUtf8 out.items → IsUtf8 all.items) }
{
    let mut out = with_str(out, before)?;
    write_text_behind(&mut out, text)?;
    Ok(out)
}

fn encode_object(
    alloc: Global,
    reference: &Json,
    topic: &str,
    event: &str,
    payload: &Json,
) -> Result<Vec<u8>, AllocError>
    ensures spelling { IfOk result (λ bytes. bytes.items
        ≡ spelled V1 (message Null reference.now topic.now event.now payload.now)) }
    ensures utf8 { IfOk result (λ bytes. IsUtf8 bytes.items) }
{
    let out = Vec::new(alloc);
    let out = with_text(out, "{\"topic\":", topic)?;
    let out = with_text(out, ",\"event\":", event)?;
    let out = with_tree(out, ",\"payload\":", payload)?;
    let out = with_tree(out, ",\"ref\":", reference)?;
    with_str(out, "}")
}

fn encode_list(
    alloc: Global,
    join_ref: &Json,
    reference: &Json,
    topic: &str,
    event: &str,
    payload: &Json,
) -> Result<Vec<u8>, AllocError>
    ensures spelling { IfOk result (λ bytes. bytes.items
        ≡ spelled V2 (message join_ref.now reference.now topic.now event.now payload.now)) }
    ensures utf8 { IfOk result (λ bytes. IsUtf8 bytes.items) }
{
    let out = Vec::new(alloc);
    let out = with_tree(out, "[", join_ref)?;
    let out = with_tree(out, ",", reference)?;
    let out = with_text(out, ",", topic)?;
    let out = with_text(out, ",", event)?;
    let out = with_tree(out, ",", payload)?;
    with_str(out, "]")
}

fn encode_parts(
    alloc: Global,
    version: Version,
    join_ref: &Json,
    reference: &Json,
    topic: &str,
    event: &str,
    payload: &Json,
) -> Result<Bytes, AllocError>
    ensures spelling { IfOk result (λ bytes. bytes ≡ spelled version
        (message join_ref.now reference.now topic.now event.now payload.now)) }
    ensures utf8 { IfOk result (λ bytes. IsUtf8 bytes) }
{
    let bytes = match version {
        Version::V1 => encode_object(alloc, reference, topic, event, payload)?,
        Version::V2 => encode_list(alloc, join_ref, reference, topic, event, payload)?,
    };
    Ok(Bytes::new(bytes))
}

/// The one spelling of a message, without blanks and in UTF-8: in version 1 the object of `topic`,
/// `event`, `payload` and `ref`, in version 2 the list of join_ref, ref, topic, event and payload.
/// Fails for want of memory alone.
pub fn encode(alloc: Global, version: Version, message: &Message) -> Result<Bytes, AllocError>
    ensures spelling { IfOk result (λ bytes. bytes ≡ spelled version message.now) }
    ensures utf8 { IfOk result (λ bytes. IsUtf8 bytes) }
{
    encode_parts(
        alloc,
        version,
        &message.join_ref,
        &message.reference,
        message.topic.get(),
        message.event.get(),
        &message.payload,
    )
}

/// The one spelling of a message that is shared, as `encode` gives it: nothing of the message is
/// copied before it is written. Fails for want of memory alone.
pub fn encode_said(alloc: Global, version: Version, said: &Said) -> Result<Bytes, AllocError>
    ensures spelling { IfOk result (λ bytes. bytes ≡ spelled version said.now) }
    ensures utf8 { IfOk result (λ bytes. IsUtf8 bytes) }
{
    encode_parts(
        alloc,
        version,
        said.join_ref(),
        said.reference(),
        said.topic(),
        said.event(),
        said.payload(),
    )
}

/// What is encoded in version 2 is a frame of the same message, and in version 1 of the same but
/// for its join_ref, which is null there. The message's refs are null, texts or numbers, its texts
/// are UTF-8, its payload nests in at most 63 levels, and its spelling is within a frame's length.
pub fn encoded_again()
    ensures second { (m : Message) → FitsFrame V2 m → IsMessage V2 (spelled V2 m) m }
    ensures first { (m : Message) → FitsFrame V1 m
        → IsMessage V1 (spelled V1 m) (record m { join_ref = Null }) }
{
    written_again();
}
