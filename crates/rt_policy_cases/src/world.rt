//! What a case gives, and what it asks: parts with ` | ` between them.
use crate::expression::read_expression;
use crate::value::{claims_of_ada, no_case, read_row, read_value, text_from};
use rt_policy::{Judge, Policy, TableRules};
use rt_value::{Claims, List, Row, Value};
use std::alloc::{AllocError, Global};
use std::io;

/// More policies than a table of a case has.
const MANY: usize = 1000;

/// A table with row security.
#[derive(Drop)]
pub struct Table {
    rank: u32,
    policies: Vec<Policy>,
    rows: Vec<Row>,
}

/// What is asked.
#[derive(Drop)]
pub enum Question {
    /// Whether the row of the table of this number is seen.
    Row(u32, Row),
    /// What the expression is.
    Truth(Judge),
}

/// Who asks.
#[derive(Drop)]
pub struct Asker {
    pub role: u32,
    pub bypass: bool,
    pub claims: Claims,
}

/// What a case gives and asks.
#[derive(Drop)]
pub struct World {
    pub caller: Asker,
    pub tables: Vec<Table>,
    pub questions: Vec<Question>,
}

fn read_index(text: &str) -> io::Result<u32> {
    match text.parse::<u32>() {
        Ok(index) => Ok(index),
        Err(_) => no_case(),
    }
}

/// Reads `public` or numbers of roles with commas between them.
fn read_roles(alloc: Global, text: &str) -> io::Result<Option<List<u32>>> {
    if text == "public" {
        return Ok(None);
    }
    let mut roles = Vec::new(alloc);
    for role in text.split(',') {
        roles.push(read_index(role)?)?;
    }
    Ok(Some(List::new(roles)))
}

/// Reads ROLES EXPRESSION, or ROLES alone for a policy that isn't for reading.
fn read_policy(alloc: Global, restrictive: bool, text: &str) -> io::Result<Policy> {
    let (roles, judge) = match text.split_once(' ') {
        None => (text, None),
        Some((roles, text)) => (roles, Some(read_expression(alloc, text)?)),
    };
    Ok(Policy {
        name: text_from(alloc, "")?,
        restrictive,
        selects: judge.is_some(),
        roles: read_roles(alloc, roles)?,
        judge,
    })
}

impl World {
    /// Reads ROLE or ROLE USER.
    fn set_caller(&mut self, alloc: Global, bypass: bool, text: &str) -> io::Result<()> {
        let (role, user) = text.split_once(' ').unwrap_or((text, "null"));
        self.caller.role = read_index(role)?;
        self.caller.bypass = bypass;
        self.caller.claims.sub = match read_value(alloc, user)? {
            Value::Null => None,
            Value::Uuid(user) => Some(user),
            _ => return no_case(),
        };
        Ok(())
    }

    fn add_policy(&mut self, policy: Policy) -> io::Result<()> {
        match self.tables.last_mut() {
            None => no_case(),
            Some(table) => Ok(table.policies.push(policy)?),
        }
    }

    fn add_row(&mut self, row: Row) -> io::Result<()> {
        match self.tables.last_mut() {
            None => no_case(),
            Some(table) => Ok(table.rows.push(row)?),
        }
    }

    fn add_table(&mut self, alloc: Global, rank: u32) -> io::Result<()> {
        let policies = Vec::new(alloc);
        let rows = Vec::new(alloc);
        Ok(
            self.tables.push(Table {
                rank,
                policies,
                rows,
            })?,
        )
    }

    /// Reads TABLE ROW.
    fn ask_row(&mut self, alloc: Global, text: &str) -> io::Result<()> {
        let Some((table, row)) = text.split_once(' ') else {
            return no_case();
        };
        let question = Question::Row(read_index(table)?, read_row(alloc, row)?);
        Ok(self.questions.push(question)?)
    }

    fn ask_truth(&mut self, judge: Judge) -> io::Result<()> {
        Ok(self.questions.push(Question::Truth(judge))?)
    }

    fn add(&mut self, alloc: Global, part: &str) -> io::Result<()> {
        let (word, text) = part.split_once(' ').unwrap_or((part, ""));
        match word {
            "caller" => self.set_caller(alloc, false, text),
            "bypassing" => self.set_caller(alloc, true, text),
            "table" => self.add_table(alloc, read_index(text)?),
            "permissive" => self.add_policy(read_policy(alloc, false, text)?),
            "restrictive" => self.add_policy(read_policy(alloc, true, text)?),
            "row" => self.add_row(read_row(alloc, text)?),
            "sees" => self.ask_row(alloc, text),
            "is" => self.ask_truth(read_expression(alloc, text)?),
            _ => no_case(),
        }
    }
}

/// Reads a case.
///
/// # Errors
///
/// `InvalidInput` where the line is none; `OutOfMemory`.
pub fn read_world(alloc: Global, case: &str) -> io::Result<World> {
    let mut world = World {
        caller: Asker {
            role: 1,
            bypass: false,
            claims: claims_of_ada(alloc)?,
        },
        tables: Vec::new(alloc),
        questions: Vec::new(alloc),
    };
    for part in case.split(" | ") {
        world.add(alloc, part)?;
    }
    Ok(world)
}

/// Returns the row security of the tables, and their rows.
///
/// # Errors
///
/// `InvalidInput` where a table has over 1000 policies; `OutOfMemory`.
pub fn parted(
    alloc: Global,
    tables: Vec<Table>,
) -> io::Result<(List<TableRules>, List<List<Row>>)> {
    let mut rules = Vec::new(alloc);
    let mut rows = Vec::new(alloc);
    for table in tables {
        if table.policies.len() > MANY {
            return no_case();
        }
        rules.push(TableRules {
            secured: true,
            rank: table.rank,
            policies: List::new(table.policies),
        })?;
        rows.push(List::new(table.rows))?;
    }
    Ok((List::new(rules), List::new(rows)))
}
