ghost use Rattle.std.specs.Prelude.{◌≡◌, ◌↔◌, ℕ, List, Some, IfOk, IfErr, option_and_then};
ghost use Rattle.rt_json.specs.Trees.{list_of};
ghost use Rattle.rt_phx.specs.declared.message.Version.{Version};
ghost use Rattle.rt_phx.specs.declared.message.Message.{Message};
ghost use Rattle.rt_phx.specs.Answers.{IsFaultOf, IsAnswer, IsBadFrame, IsComputed};
ghost use Rattle.rt_phx.specs.Frame.{IsMessage, message_of, message_of_tree, message_of_object};
ghost use Rattle.rt_phx.specs.Frame.{message_of_five};

use crate::fault::PhxFault;
use crate::message::{Message, Version};
use crate::parts::Parts;
use rt_json::{Json, one_tree, read};
use std::alloc::Global;

/// The bytes of the longest frame.
const FRAME_LIMIT: usize = 1_048_576;

fn message_of_object(alloc: Global, tree: Json) -> Option<Message>
    ensures { result ≡ message_of_object tree }
{
    match tree {
        Json::Object(members) => Parts::among(members.into_inner()).message(alloc),
        _ => None,
    }
}

fn message_of_list(alloc: Global, tree: Json) -> Option<Message>
    ensures { result ≡ option_and_then message_of_five (list_of tree) }
{
    match tree {
        Json::List(items) => Parts::in_five(items.into_inner())?.message(alloc),
        _ => None,
    }
}

fn message_of_tree(alloc: Global, version: Version, tree: Json) -> Option<Message>
    ensures { result ≡ message_of_tree version tree }
{
    match version {
        Version::V1 => message_of_object(alloc, tree),
        Version::V2 => message_of_list(alloc, tree),
    }
}

fn computed(alloc: Global, version: Version, bytes: &[u8]) -> Result<Message, PhxFault>
    ensures { IsComputed (message_of version bytes.now) result }
{
    if bytes.len() > FRAME_LIMIT {
        return Err(PhxFault::BadFrame);
    }
    let tree = read(alloc, bytes)?;
    message_of_tree(alloc, version, tree).ok_or(PhxFault::BadFrame)
}

/// The message of a frame of at most 1048576 bytes, which is JSON (RFC 8259).
///
/// In version 1 it is an object with texts `topic` and `event`, and optionally `payload` (`{}`
/// where it is absent), `ref` and `join_ref` (null where they are absent). Of a name that comes
/// again the last counts, and other members are passed over. In version 2 it is a list of exactly
/// five: join_ref, ref, topic, event and payload. In both a ref is null, a text or a number.
///
/// Fails with `BadFrame` exactly where the bytes are no such frame, or for want of memory.
pub fn decode(alloc: Global, version: Version, bytes: &[u8]) -> Result<Message, PhxFault>
    // What is answered is the frame's message, and a bad frame has none.
    ensures found { IfOk result (λ message. IsMessage version bytes.now message) }
    ensures fault { IfErr result (λ fault. IsFaultOf version bytes.now fault) }

    // The message of a frame is answered, and that a frame is bad, unless memory runs out.
    ensures only { (message : Message) → IsMessage version bytes.now message
        → IsAnswer result message }
    ensures bad { ((message : Message) → IsMessage version bytes.now message → ⊥)
        → IsBadFrame result }

    // The function that computes the message agrees.
    ensures computed { IsComputed (message_of version bytes.now) result }
{
    one_message();
    computed(alloc, version, bytes)
}

/// A frame has one message at most, and the function that computes it gives it.
pub fn one_message()
    ensures one { (version : Version) (bytes : List ℕ) (a b : Message) → IsMessage version bytes a
        → IsMessage version bytes b → a ≡ b }
    ensures computed { (version : Version) (bytes : List ℕ) (message : Message)
        → IsMessage version bytes message ↔ (message_of version bytes ≡ Some message) }
{
    one_tree();
}
