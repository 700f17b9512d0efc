//! What expressions of row policies are, and which rows policies show.
//!
//! The first lines of `stdin` say how a case is written.
#![tactic(auto)]

mod expression;
mod value;
mod world;

use case_lines::{answer_cases, text_of};
use rt_policy::{Caller, Rules, Seen, Truth, holds, sees};
use rt_value::{Key, List, Row, SortedTables};
use std::alloc::{AllocError, Global};
use std::fmt::Write;
use std::io;
use value::no_case;
use world::{Asker, Question, World, parted, read_world};

fn push_seen(answer: &mut String, seen: Seen) -> Result<(), AllocError> {
    match seen {
        Seen::Yes => answer.push_str("yes"),
        Seen::NoPolicy => answer.push_str("no policy"),
        Seen::NonePermits => answer.push_str("none permits"),
        Seen::Restrictive(n) => write!(answer, "restrictive {n}"),
    }
}

fn push_truth(answer: &mut String, truth: Truth) -> Result<(), AllocError> {
    answer.push_str(match truth {
        Truth::True => "true",
        Truth::False => "false",
        Truth::Unknown => "unknown",
    })
}

fn row_without_columns(alloc: Global) -> Row {
    Row {
        key: Key {
            values: List::new(Vec::new(alloc)),
        },
        values: List::new(Vec::new(alloc)),
    }
}

/// Answers the questions.
fn answers(
    alloc: Global,
    questions: &[Question],
    asker: &Asker,
    rules: &Rules,
    db: &SortedTables,
) -> Result<String, AllocError> {
    let caller = Caller {
        role: asker.role,
        bypass: asker.bypass,
        claims: &asker.claims,
    };
    let row = row_without_columns(alloc);
    let mut answer = String::new(alloc);
    for question in questions {
        if !answer.is_empty() {
            answer.push_str(", ")?;
        }
        match question {
            Question::Row(table, row) => push_seen(
                &mut answer,
                sees(rules, &caller, *table, row, db),
            )?,
            Question::Truth(judge) => push_truth(
                &mut answer,
                holds(judge, &row, &caller, rules, db),
            )?,
        }
    }
    Ok(answer)
}

/// Answers a case.
///
/// # Errors
///
/// `InvalidInput` where the line is no case; `OutOfMemory`.
fn answer(alloc: Global, case: &str) -> io::Result<String> {
    let World {
        caller,
        tables,
        questions,
    } = read_world(alloc, case)?;
    let (tables, rows) = parted(alloc, tables)?;
    let Some(db) = SortedTables::new(rows) else {
        return no_case();
    };
    match Rules::new(tables) {
        Err(_) => Ok(String::from_str(alloc, "ring")?),
        Ok(_) if questions.is_empty() => Ok(String::from_str(alloc, "no ring")?),
        Ok(rules) => Ok(answers(alloc, questions.as_slice(), &caller, &rules, &db)?),
    }
}

fn answer_or_say(alloc: Global, case: &[u8]) -> io::Result<String> {
    match answer(alloc, text_of(case)?) {
        Err(error) if error.kind() == io::ErrorKind::InvalidInput => {
            Ok(String::from_str(alloc, "no case")?)
        }
        answered => answered,
    }
}

fn main(rt: HostRuntime) -> io::Result<()> {
    answer_cases(&rt, answer_or_say)
}
