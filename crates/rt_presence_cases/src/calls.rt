use crate::changes::{change, text};
use case_lines::text_of;
use rt_json::{Json, write};
use rt_presence::{Diff, Presence, difference_tree};
use std::alloc::{AllocError, Global};
use std::{io, mem};

/// What each call answers.
pub fn in_turn(alloc: Global, calls: &str) -> io::Result<String> {
    let mut presence = Presence::new(alloc);
    let mut aside = Presence::new(alloc);
    let mut answer = String::new(alloc);
    for call in calls.split(" | ") {
        match call {
            "copy" => aside = presence.copy()?,
            "back" => mem::swap(&mut presence, &mut aside),
            _ => push_answer(alloc, &mut answer, &mut presence, call)?,
        }
    }
    Ok(answer)
}

/// What the calls change, in one tree.
pub fn together(alloc: Global, calls: &str) -> io::Result<String> {
    let mut presence = Presence::new(alloc);
    let mut differences = Vec::new(alloc);
    for call in calls.split(" | ") {
        push_change(alloc, &mut differences, &mut presence, call)?;
    }
    spelled(alloc, differences.as_slice())
}

fn push_answer(
    alloc: Global,
    answer: &mut String,
    presence: &mut Presence,
    call: &str,
) -> io::Result<()> {
    let part = match call.strip_prefix("state ") {
        Some(topic) => state(alloc, presence, topic)?,
        None => changed(alloc, presence, call)?,
    };
    Ok(push_part(answer, part.as_str())?)
}

fn push_part(answer: &mut String, part: &str) -> Result<(), AllocError> {
    if !answer.is_empty() {
        answer.push_str(" | ")?;
    }
    answer.push_str(part)
}

fn state(alloc: Global, presence: &Presence, topic: &str) -> io::Result<String> {
    let topic = text(alloc, topic)?;
    let tree = presence.state(&topic)?;
    spelling(alloc, &tree)
}

fn changed(alloc: Global, presence: &mut Presence, call: &str) -> io::Result<String> {
    let mut differences = Vec::new(alloc);
    push_change(alloc, &mut differences, presence, call)?;
    if differences.is_empty() {
        Ok(String::from_str(alloc, "none")?)
    } else {
        spelled(alloc, differences.as_slice())
    }
}

fn push_change(
    alloc: Global,
    differences: &mut Vec<Diff>,
    presence: &mut Presence,
    call: &str,
) -> io::Result<()> {
    if let Some(difference) = change(alloc, presence, call)? {
        differences.push(difference)?;
    }
    Ok(())
}

fn spelled(alloc: Global, differences: &[Diff]) -> io::Result<String> {
    let tree = difference_tree(alloc, differences)?;
    spelling(alloc, &tree)
}

fn spelling(alloc: Global, tree: &Json) -> io::Result<String> {
    let bytes = write(alloc, tree)?;
    Ok(String::from_str(alloc, text_of(bytes.get())?)?)
}
