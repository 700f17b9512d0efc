use crate::frames::{frame_of, spelled, tree, wrong};
use rt_json::Json;
use rt_phx::saying::{
    broadcast, change, close, failed, reply_error, reply_ok, said_on, subscribed,
};
use rt_phx::{Message, Version};
use std::alloc::Global;
use std::io;

/// What a function of `rt_phx::saying` says, as version 2 spells it. The first argument is always
/// the join_ref.
pub fn said(alloc: Global, function: &str, arguments: &str) -> io::Result<String> {
    let Some((join_ref, arguments)) = arguments.split_once(" | ") else {
        return Err(wrong());
    };
    let join_ref = tree(alloc, join_ref)?;
    let arguments: Vec<&str> = arguments.split(" | ").collect(alloc)?;
    let message = message_of(alloc, function, &join_ref, arguments.as_slice())?;
    spelled(alloc, Version::V2, &message)
}

fn message_of(
    alloc: Global,
    function: &str,
    join_ref: &Json,
    arguments: &[&str],
) -> io::Result<Message> {
    match arguments {
        [topic] => closed(alloc, function, join_ref, topic),
        [one, two] => of_two(alloc, function, join_ref, one, two),
        [topic, one, two] => of_three(alloc, function, join_ref, topic, one, two),
        _ => Err(wrong()),
    }
}

fn closed(alloc: Global, function: &str, join_ref: &Json, topic: &str) -> io::Result<Message> {
    match function {
        "close" => Ok(close(alloc, join_ref, topic)?),
        _ => Err(wrong()),
    }
}

fn of_two(
    alloc: Global,
    function: &str,
    join_ref: &Json,
    one: &str,
    two: &str,
) -> io::Result<Message> {
    match function {
        "reply_ok" => replied(alloc, join_ref, one, two),
        "reply_error" => {
            let frame = frame_of(alloc, one)?;
            Ok(reply_error(alloc, join_ref, &frame, two)?)
        }
        "broadcast" => {
            let payload = tree(alloc, two)?;
            Ok(broadcast(alloc, join_ref, one, payload)?)
        }
        "subscribed" => Ok(subscribed(alloc, join_ref, one, two)?),
        _ => Err(wrong()),
    }
}

fn of_three(
    alloc: Global,
    function: &str,
    join_ref: &Json,
    topic: &str,
    one: &str,
    two: &str,
) -> io::Result<Message> {
    match function {
        "said_on" => {
            let payload = tree(alloc, two)?;
            Ok(said_on(alloc, join_ref, topic, one, payload)?)
        }
        "change" => changed(alloc, join_ref, topic, one, two),
        "failed" => Ok(failed(alloc, join_ref, topic, one, two)?),
        _ => Err(wrong()),
    }
}

fn replied(alloc: Global, join_ref: &Json, frame: &str, response: &str) -> io::Result<Message> {
    let response = tree(alloc, response)?;
    let frame = frame_of(alloc, frame)?;
    Ok(reply_ok(alloc, join_ref, &frame, response)?)
}

fn changed(
    alloc: Global,
    join_ref: &Json,
    topic: &str,
    ids: &str,
    data: &str,
) -> io::Result<Message> {
    let ids = numbers(alloc, ids)?;
    let data = tree(alloc, data)?;
    Ok(change(alloc, join_ref, topic, ids.as_slice(), data)?)
}

/// Numbers with a blank between two.
pub fn numbers(alloc: Global, text: &str) -> io::Result<Vec<u64>> {
    let mut numbers = Vec::new(alloc);
    for digits in text.split(' ') {
        let Ok(number) = digits.parse::<u64>() else {
            return Err(wrong());
        };
        numbers.push(number)?;
    }
    Ok(numbers)
}
