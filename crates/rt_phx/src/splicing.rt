//! The spelling of a change whose shown tree is spelled already, put together from pieces.
ghost use Rattle.std.specs.Prelude.{◌≡◌, ◌++◌, ◌∷◌, [], IfOk, OnOk, codes, ℕ, List};
ghost use Rattle.std.specs.Fmt.{decimal};
ghost use Rattle.rt_json.specs.Written.{written, quoted, listed};
ghost use Rattle.rt_json.specs.declared.tree.Json.{Json};
ghost use Rattle.rt_phx.specs.Frame.{spelled};
ghost use Rattle.rt_phx.specs.Says.{said_on, change_payload};
ghost use Rattle.rt_phx.specs.Spliced.{spliced_object, spliced_list, spliced};
ghost use Rattle.rt_phx.specs.declared.message.Version.{Version};

use crate::encoding::{with_str, with_text, with_tree};
use crate::message::Version;
use rt_json::{Json, write_comma};
use rt_value::{Bytes, Text};
use std::alloc::{AllocError, Global};

fn write_number(alloc: Global, out: &mut Vec<u8>, number: u64) -> Result<(), AllocError>
    ensures { OnOk result (out.new.items ≡ out.old.items ++ decimal number) }
{
    let digits = format!(in alloc; "{number}")?;
    out.extend_from_slice(digits.as_bytes())
}

fn write_ids(alloc: Global, out: &mut Vec<u8>, ids: &[u64]) -> Result<(), AllocError>
    ensures { OnOk result (out.new.items ≡ out.old.items ++ listed decimal ids.now) }
{
    for (i, id) in ids.iter().enumerate() {
        write_comma(out, i)?;
        write_number(alloc, out, *id)?;
    }
    Ok(())
}

fn with_ids(alloc: Global, out: Vec<u8>, ids: &[u64]) -> Result<Vec<u8>, AllocError>
    ensures { IfOk result (λ all. all.items ≡ out.items ++ listed decimal ids.now) }
{
    let mut out = out;
    write_ids(alloc, &mut out, ids)?;
    Ok(out)
}

fn with_bytes(out: Vec<u8>, bytes: &[u8]) -> Result<Vec<u8>, AllocError>
    ensures { IfOk result (λ all. all.items ≡ out.items ++ bytes.now) }
{
    let mut out = out;
    out.extend_from_slice(bytes)?;
    Ok(out)
}

fn change_object(
    alloc: Global,
    topic: &str,
    ids: &[u64],
    shown: &[u8],
) -> Result<Vec<u8>, AllocError>
    ensures { IfOk result (λ all. all.items ≡ spliced_object topic.now ids.now shown.now) }
{
    let out = Vec::new(alloc);
    let out = with_text(out, "{\"topic\":", topic)?;
    let out = with_str(
        out,
        ",\"event\":\"postgres_changes\",\"payload\":{\"ids\":[",
    )?;
    let out = with_ids(alloc, out, ids)?;
    let out = with_str(out, "],\"data\":")?;
    let out = with_bytes(out, shown)?;
    with_str(out, "},\"ref\":null}")
}

fn change_list(
    alloc: Global,
    join_ref: &Json,
    topic: &str,
    ids: &[u64],
    shown: &[u8],
) -> Result<Vec<u8>, AllocError>
    ensures { IfOk result (λ all.
        all.items ≡ spliced_list join_ref.now topic.now ids.now shown.now) }
{
    let out = Vec::new(alloc);
    let out = with_tree(out, "[", join_ref)?;
    let out = with_text(out, ",null,", topic)?;
    let out = with_str(out, ",\"postgres_changes\",{\"ids\":[")?;
    let out = with_ids(alloc, out, ids)?;
    let out = with_str(out, "],\"data\":")?;
    let out = with_bytes(out, shown)?;
    with_str(out, "}]")
}

/// The pieces are the one spelling of a change's message, where the bytes are a tree's spelling.
pub fn change_spliced()
    ensures { (version : Version) (join_ref tree : Json) (topic ids : List ℕ)
        → spliced version join_ref topic ids (written tree)
        ≡ spelled version (said_on join_ref topic (codes "postgres_changes")
        (change_payload ids tree)) }
{}

/// A change for the subscriptions of these ids, as `encode` spells the message of
/// `saying::change`, where `written` is the spelling of what the change shows. So that is written
/// once and copied into many messages. Fails for want of memory alone.
pub fn encode_change(
    alloc: Global,
    version: Version,
    join_ref: &Json,
    topic: &Text,
    ids: &[u64],
    written: &[u8],
) -> Result<Bytes, AllocError>
    ensures { IfOk result (λ bytes.
        bytes ≡ spliced version join_ref.now topic.now ids.now written.now) }
{
    let bytes = match version {
        Version::V1 => change_object(alloc, topic.get(), ids, written)?,
        Version::V2 => change_list(alloc, join_ref, topic.get(), ids, written)?,
    };
    Ok(Bytes::new(bytes))
}
