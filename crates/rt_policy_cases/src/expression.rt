//! Expressions as a case writes them: a word, or in parentheses a head and the expressions that are
//! its parts.
use crate::value::{no_case, read_value};
use rt_policy::{Comparison, Judge, Tested};
use rt_value::{List, Text, Value};
use sqlite_items::Boxed;
use std::alloc::Global;
use std::io;

/// A head, and the parts that stand behind it.
#[derive(Drop)]
struct Group<'a> {
    head: &'a str,
    parts: Vec<Judge>,
}

fn comparison_named(head: &str) -> Option<Comparison> {
    match head {
        "=" => Some(Comparison::Equal),
        "<>" => Some(Comparison::NotEqual),
        "<" => Some(Comparison::Less),
        "<=" => Some(Comparison::LessOrEqual),
        ">" => Some(Comparison::Greater),
        ">=" => Some(Comparison::GreaterOrEqual),
        _ => None,
    }
}

fn tested_named(head: &str) -> Option<Tested> {
    match head {
        "is-null" => Some(Tested::Null),
        "is-true" => Some(Tested::True),
        "is-false" => Some(Tested::False),
        "is-unknown" => Some(Tested::Unknown),
        _ => None,
    }
}

fn one(parts: Vec<Judge>) -> io::Result<Judge> {
    let mut parts = parts.into_iter();
    match (parts.next(), parts.next()) {
        (Some(part), None) => Ok(part),
        _ => no_case(),
    }
}

fn two(parts: Vec<Judge>) -> io::Result<(Judge, Judge)> {
    let mut parts = parts.into_iter();
    match (parts.next(), parts.next(), parts.next()) {
        (Some(first), Some(second), None) => Ok((first, second)),
        _ => no_case(),
    }
}

fn index(part: Judge) -> io::Result<u32> {
    match part {
        Judge::Literal(Value::Int(number)) => match u32::try_from(number) {
            Ok(index) => Ok(index),
            Err(_) => no_case(),
        },
        _ => no_case(),
    }
}

fn text(part: Judge) -> io::Result<Text> {
    match part {
        Judge::Literal(Value::Text(text)) => Ok(text),
        _ => no_case(),
    }
}

fn compared(alloc: Global, comparison: Comparison, parts: Vec<Judge>) -> io::Result<Judge> {
    let (a, b) = two(parts)?;
    let a = Boxed::new(alloc, a)?;
    Ok(Judge::Compare(comparison, a, Boxed::new(alloc, b)?))
}

fn one_of(alloc: Global, mut parts: Vec<Judge>) -> io::Result<Judge> {
    if parts.is_empty() {
        return no_case();
    }
    let side = parts.remove(0);
    Ok(Judge::OneOf(Boxed::new(alloc, side)?, List::new(parts)))
}

fn exists(alloc: Global, parts: Vec<Judge>) -> io::Result<Judge> {
    let (table, condition) = two(parts)?;
    Ok(Judge::Exists(index(table)?, Boxed::new(alloc, condition)?))
}

/// Returns the expression whose head is a sign or asks with IS.
fn signed(alloc: Global, group: Group<'_>) -> io::Result<Judge> {
    if let Some(comparison) = comparison_named(group.head) {
        compared(alloc, comparison, group.parts)
    } else if let Some(tested) = tested_named(group.head) {
        Ok(Judge::Is(tested, Boxed::new(alloc, one(group.parts)?)?))
    } else {
        no_case()
    }
}

/// Returns the expression that a group is.
fn judge_of(alloc: Global, group: Group<'_>) -> io::Result<Judge> {
    match group.head {
        "outer" => Ok(Judge::Outer(index(one(group.parts)?)?)),
        "inner" => Ok(Judge::Inner(index(one(group.parts)?)?)),
        "claim" => Ok(Judge::Claim(text(one(group.parts)?)?)),
        "in" => one_of(alloc, group.parts),
        "not" => Ok(Judge::Not(Boxed::new(alloc, one(group.parts)?)?)),
        "and" => Ok(Judge::And(List::new(group.parts))),
        "or" => Ok(Judge::Or(List::new(group.parts))),
        "exists" => exists(alloc, group.parts),
        _ => signed(alloc, group),
    }
}

fn read_word(alloc: Global, word: &str) -> io::Result<Judge> {
    match word {
        "uid" => Ok(Judge::Uid),
        "role" => Ok(Judge::Role),
        _ => Ok(Judge::Literal(read_value(alloc, word)?)),
    }
}

/// Adds the words of a text to the innermost of the groups that are open.
fn add_words(alloc: Global, open: &mut Vec<Group<'_>>, text: &str) -> io::Result<()> {
    let Some(group) = open.last_mut() else {
        return no_case();
    };
    for word in text.split_whitespace() {
        group.parts.push(read_word(alloc, word)?)?;
    }
    Ok(())
}

/// Ends the innermost group, which is a part of the one around it.
fn close(alloc: Global, open: &mut Vec<Group<'_>>) -> io::Result<()> {
    let Some(ended) = open.pop() else {
        return no_case();
    };
    let part = judge_of(alloc, ended)?;
    let Some(group) = open.last_mut() else {
        return no_case();
    };
    Ok(group.parts.push(part)?)
}

/// Reads what stands from one `(` to the next: a head, words, and ends of groups with words behind
/// them.
fn read_group<'a>(alloc: Global, open: &mut Vec<Group<'a>>, text: &'a str) -> io::Result<()> {
    let mut pieces = text.split(')');
    let first = pieces.next().unwrap_or("");
    let (head, words) = first.split_once(' ').unwrap_or((first, ""));
    let parts = Vec::new(alloc);
    open.push(Group { head, parts })?;
    add_words(alloc, open, words)?;
    for words in pieces {
        close(alloc, open)?;
        add_words(alloc, open, words)?;
    }
    Ok(())
}

/// Reads an expression.
///
/// # Errors
///
/// `InvalidInput` where the text writes none; `OutOfMemory`.
pub fn read_expression(alloc: Global, text: &str) -> io::Result<Judge> {
    let mut texts = text.split('(');
    let parts = Vec::new(alloc);
    let mut open = vec![in alloc; Group { head: "", parts }]?;
    add_words(alloc, &mut open, texts.next().unwrap_or(""))?;
    for text in texts {
        read_group(alloc, &mut open, text)?;
    }
    match open.pop() {
        Some(group) if open.is_empty() => one(group.parts),
        _ => no_case(),
    }
}
