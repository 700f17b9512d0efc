use crate::nodes::Nodes;
use std::alloc::Global;
use std::io;

/// What the script shows.
pub fn run(alloc: Global, script: &str) -> io::Result<String> {
    let mut nodes = Nodes::new(alloc);
    let mut answer = String::new(alloc);
    for line in script.split(" | ") {
        if !take(alloc, &mut nodes, &mut answer, line)? {
            push_part(&mut answer, "form")?;
            return Ok(answer);
        }
    }
    Ok(answer)
}

fn push_part(answer: &mut String, part: &str) -> io::Result<()> {
    if !answer.is_empty() {
        answer.push_str(" | ")?;
    }
    Ok(answer.push_str(part)?)
}

fn number(digits: &str) -> Option<u32> {
    digits.parse::<u32>().ok()
}

// The words behind the first, of which the last takes the rest of the line.
fn words<'a>(alloc: Global, rest: &'a str, count: usize) -> io::Result<Vec<&'a str>> {
    Ok(rest.splitn(count, ' ').collect(alloc)?)
}

// Whether it is a line.
fn take(alloc: Global, nodes: &mut Nodes, answer: &mut String, line: &str) -> io::Result<bool> {
    let Some((verb, rest)) = line.split_once(' ') else {
        return Ok(false);
    };
    match verb {
        "nodes" => match number(rest) {
            Some(count) => Ok(nodes.begin(alloc, count)?),
            None => Ok(false),
        },
        "track" => track(alloc, nodes, rest),
        "untrack" => untrack(alloc, nodes, rest),
        "show" => show(alloc, nodes, answer, rest),
        _ => pair(alloc, nodes, verb, rest),
    }
}

fn track(alloc: Global, nodes: &mut Nodes, rest: &str) -> io::Result<bool> {
    match words(alloc, rest, 4)?.as_slice() {
        [node, topic, key, tree] => match number(node) {
            Some(node) => Ok(nodes.track(alloc, node, (topic, key), tree)?),
            None => Ok(false),
        },
        _ => Ok(false),
    }
}

fn untrack(alloc: Global, nodes: &mut Nodes, rest: &str) -> io::Result<bool> {
    match words(alloc, rest, 3)?.as_slice() {
        [node, topic, key] => match number(node) {
            Some(node) => Ok(nodes.untrack(alloc, node, (topic, key))?),
            None => Ok(false),
        },
        _ => Ok(false),
    }
}

fn pair(alloc: Global, nodes: &mut Nodes, verb: &str, rest: &str) -> io::Result<bool> {
    let Some((one, other)) = rest.split_once(' ') else {
        return Ok(false);
    };
    let (Some(one), Some(other)) = (number(one), number(other)) else {
        return Ok(false);
    };
    match verb {
        "drop" => Ok(nodes.drop_node(alloc, one, other)?),
        "give" => Ok(nodes.give(alloc, one, other)?),
        "sync" => Ok(nodes.sync(alloc, one, other)?),
        _ => Ok(false),
    }
}

fn show(alloc: Global, nodes: &Nodes, answer: &mut String, rest: &str) -> io::Result<bool> {
    let Some((node, topic)) = rest.split_once(' ') else {
        return Ok(false);
    };
    let Some(number) = number(node) else {
        return Ok(false);
    };
    match nodes.show(alloc, number, topic)? {
        None => Ok(false),
        Some(state) => {
            push_part(answer, node)?;
            answer.push_str(" ")?;
            answer.push_str(topic)?;
            answer.push_str(" ")?;
            answer.push_str(state.as_str())?;
            Ok(true)
        }
    }
}
