//! What the server says, from its parts. Each fails for want of memory alone.
ghost use Rattle.std.specs.Prelude.{◌≡◌, IfOk, map, codes};
ghost use Rattle.rt_phx.specs.Frame.{message};
ghost use Rattle.rt_phx.specs.Says as spec;

use crate::end::EndName;
use crate::message::Message;
use crate::trees::{object_of_one, object_of_two};
use rt_json::Json;
use rt_json::building::{number_tree, put_text, text_tree};
use rt_value::{List, Text};
use std::alloc::{AllocError, Global};

/// A message whose payload is null.
fn head(
    alloc: Global,
    join_ref: &Json,
    reference: &Json,
    topic: &str,
    event: &str,
) -> Result<Message, AllocError>
    ensures { IfOk result (λ m.
        m ≡ message join_ref.now reference.now topic.now event.now Json.Null) }
{
    Ok(Message {
        topic: Text::new(String::from_str(alloc, topic)?),
        event: Text::new(String::from_str(alloc, event)?),
        payload: Json::Null,
        join_ref: join_ref.copy(alloc)?,
        reference: reference.copy(alloc)?,
    })
}

fn message(
    alloc: Global,
    join_ref: &Json,
    reference: &Json,
    topic: &str,
    event: &str,
    payload: Json,
) -> Result<Message, AllocError>
    ensures { IfOk result (λ m.
        m ≡ message join_ref.now reference.now topic.now event.now payload) }
{
    let head = head(alloc, join_ref, reference, topic, event)?;
    Ok(Message { payload, ..head })
}

fn reply_to(
    alloc: Global,
    join_ref: &Json,
    frame: &Message,
    status: &str,
    response: Json,
) -> Result<Message, AllocError>
    ensures { IfOk result (λ m. m ≡ spec.reply_to join_ref.now frame.now
        (spec.reply_payload status.now response)) }
{
    let status = text_tree(alloc, status)?;
    let payload = object_of_two(alloc, "status", status, "response", response)?;
    let topic = frame.topic.get();
    message(
        alloc,
        join_ref,
        &frame.reference,
        topic,
        "phx_reply",
        payload,
    )
}

/// The reply `ok` to a frame, with the frame's topic and ref. `join_ref` is the channel's, or the
/// frame's where there is no channel.
pub fn reply_ok(
    alloc: Global,
    join_ref: &Json,
    frame: &Message,
    response: Json,
) -> Result<Message, AllocError>
    ensures { IfOk result (λ m. m ≡ spec.reply_ok join_ref.now frame.now response) }
{
    reply_to(alloc, join_ref, frame, "ok", response)
}

/// The reply `error` to a frame, with a reason.
pub fn reply_error(
    alloc: Global,
    join_ref: &Json,
    frame: &Message,
    reason: &str,
) -> Result<Message, AllocError>
    ensures { IfOk result (λ m. m ≡ spec.reply_error join_ref.now frame.now reason.now) }
{
    let reason = text_tree(alloc, reason)?;
    let response = object_of_one(alloc, "reason", reason)?;
    reply_to(alloc, join_ref, frame, "error", response)
}

/// A message on a channel, which answers no frame: its ref is null.
pub fn said_on(
    alloc: Global,
    join_ref: &Json,
    topic: &str,
    event: &str,
    payload: Json,
) -> Result<Message, AllocError>
    ensures { IfOk result (λ m. m ≡ spec.said_on join_ref.now topic.now event.now payload) }
{
    message(alloc, join_ref, &Json::Null, topic, event, payload)
}

/// A broadcast, with the payload that was sent.
pub fn broadcast(
    alloc: Global,
    join_ref: &Json,
    topic: &str,
    payload: Json,
) -> Result<Message, AllocError>
    ensures { IfOk result (λ m. m ≡ spec.said_on join_ref.now topic.now
        (codes "broadcast") payload) }
{
    said_on(alloc, join_ref, topic, "broadcast", payload)
}

/// That a channel is closed, whose join_ref is the message's ref too.
pub fn close(alloc: Global, join_ref: &Json, topic: &str) -> Result<Message, AllocError>
    ensures { IfOk result (λ m. m ≡ spec.close_of join_ref.now topic.now) }
{
    let nothing = Json::Object(List::new(Vec::new(alloc)));
    message(alloc, join_ref, join_ref, topic, "phx_close", nothing)
}

fn system(
    alloc: Global,
    join_ref: &Json,
    topic: &str,
    text: &str,
    status: &str,
    extension: &str,
    channel: &str,
) -> Result<Message, AllocError>
    ensures { IfOk result (λ m. m ≡ spec.said_on join_ref.now topic.now (codes "system")
        (spec.system_payload text.now status.now extension.now channel.now)) }
{
    let mut members = Vec::new(alloc);
    put_text(alloc, &mut members, "message", text)?;
    put_text(alloc, &mut members, "status", status)?;
    put_text(alloc, &mut members, "extension", extension)?;
    put_text(alloc, &mut members, "channel", channel)?;
    let payload = Json::Object(List::new(members));
    said_on(alloc, join_ref, topic, "system", payload)
}

/// That the changes of a channel come. `channel` is the topic without `realtime:`.
pub fn subscribed(
    alloc: Global,
    join_ref: &Json,
    topic: &str,
    channel: &str,
) -> Result<Message, AllocError>
    ensures { IfOk result (λ m. m ≡ spec.said_on join_ref.now topic.now (codes "system")
        (spec.subscribed_payload channel.now)) }
{
    let text = "Subscribed to PostgreSQL";
    system(
        alloc,
        join_ref,
        topic,
        text,
        "ok",
        "postgres_changes",
        channel,
    )
}

/// Why a channel closes. `channel` is the topic without `realtime:`.
pub fn failed(
    alloc: Global,
    join_ref: &Json,
    topic: &str,
    reason: &str,
    channel: &str,
) -> Result<Message, AllocError>
    ensures { IfOk result (λ m. m ≡ spec.said_on join_ref.now topic.now (codes "system")
        (spec.failed_payload reason.now channel.now)) }
{
    system(alloc, join_ref, topic, reason, "error", "system", channel)
}

fn number_trees(alloc: Global, numbers: &[u64]) -> Result<Json, AllocError>
    ensures { IfOk result (λ tree. tree ≡ Json.List (map spec.number_tree numbers.now)) }
{
    let mut trees = Vec::with_capacity(alloc, numbers.len())?;
    for number in numbers {
        trees.push(number_tree(alloc, *number)?)?;
    }
    Ok(Json::List(List::new(trees)))
}

/// A change, as `tree` shows it, for the subscriptions of these ids.
pub fn change(
    alloc: Global,
    join_ref: &Json,
    topic: &str,
    ids: &[u64],
    tree: Json,
) -> Result<Message, AllocError>
    ensures { IfOk result (λ m. m ≡ spec.said_on join_ref.now topic.now (codes "postgres_changes")
        (spec.change_payload ids.now tree)) }
{
    let ids = number_trees(alloc, ids)?;
    let payload = object_of_two(alloc, "ids", ids, "data", tree)?;
    said_on(alloc, join_ref, topic, "postgres_changes", payload)
}

impl EndName {
    /// The name that a slot is given where its opening ends.
    pub fn text(self) -> &'static str
        ensures { result.now ≡ spec.end_text self }
    {
        match self {
            EndName::Gone => "gone",
            EndName::BadFrame => "bad frame",
            EndName::Idle => "idle",
            EndName::Replaced => "replaced",
            EndName::Stopped => "server stopped",
            EndName::OutboxFull => "outbox full",
        }
    }
}
