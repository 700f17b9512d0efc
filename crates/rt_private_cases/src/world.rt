//! What a case makes, and what it asks.
use crate::condition::condition;
use crate::value::{claims, kind, no_case, number, text, user, value};
use rt_catalog::{Catalog, Column, Grant, Role, Table};
use rt_policy::{Policy, Rules, TableRules};
use rt_private::{Messages, Right, find, rights};
use rt_value::{Key, List, Row, SortedTables};
use std::alloc::{AllocError, Global};
use std::io;

/// More policies than a table of a case has.
const MANY: usize = 1000;

/// A table with its row security and its rows.
#[derive(Drop)]
struct Described {
    table: Table,
    secured: bool,
    policies: Vec<Policy>,
    rows: Vec<Row>,
}

/// What a case makes, and its questions.
#[derive(Drop)]
pub struct World<'a> {
    tables: Vec<Described>,
    roles: Vec<Role>,
    grants: Vec<Grant>,
    questions: Vec<&'a str>,
}

/// The catalogue of a case, and its rows.
#[derive(Drop)]
struct Made {
    catalog: Catalog,
    tables: SortedTables,
}

// Reads SCHEMA NAME COLUMN:KIND .., where a column with a star is of the key.
fn table(alloc: Global, words: &str) -> io::Result<Table> {
    let mut words = words.split(' ');
    let (Some(schema), Some(name)) = (words.next(), words.next()) else {
        return no_case();
    };
    let mut columns = Vec::new(alloc);
    let mut key = Vec::new(alloc);
    let mut place = 0_u32;
    for word in words {
        let Some((named, shown)) = word.split_once(':') else {
            return no_case();
        };
        let is_key = named.starts_with("*");
        if is_key {
            key.push(place)?;
        }
        columns.push(Column {
            name: text(alloc, named.strip_prefix("*").unwrap_or(named))?,
            kind: kind(shown)?,
            shown: text(alloc, shown)?,
        })?;
        place = place.saturating_add(1);
    }
    Ok(Table {
        schema: text(alloc, schema)?,
        name: text(alloc, name)?,
        columns: List::new(columns),
        key: List::new(key),
    })
}

fn row(alloc: Global, table: &Table, words: &str) -> io::Result<Row> {
    let words: Vec<&str> = words.split(' ').collect(alloc)?;
    let mut values = Vec::new(alloc);
    for word in &words {
        values.push(value(alloc, word)?)?;
    }
    let mut key = Vec::new(alloc);
    for column in table.key.get() {
        match words.get(*column as usize) {
            None => return no_case(),
            Some(word) => key.push(value(alloc, word)?)?,
        }
    }
    Ok(Row {
        key: Key {
            values: List::new(key),
        },
        values: List::new(values),
    })
}

fn grant(words: &str) -> io::Result<Grant> {
    let mut words = words.split(' ');
    let (Some(role), Some(table)) = (words.next(), words.next()) else {
        return no_case();
    };
    let role = if role == "public" {
        None
    } else {
        Some(number(role)?)
    };
    let column = match words.next() {
        None => None,
        Some(column) => Some(number(column)?),
    };
    Ok(Grant {
        table: number(table)?,
        column,
        role,
    })
}

// Reads ROLE CONDITION, where the role is `public` or a number.
fn policy(alloc: Global, table: &Table, restrictive: bool, words: &str) -> io::Result<Policy> {
    let Some((role, words)) = words.split_once(' ') else {
        return no_case();
    };
    let roles = if role == "public" {
        None
    } else {
        Some(List::new(vec![in alloc; number(role)?]?))
    };
    Ok(Policy {
        name: text(alloc, "")?,
        restrictive,
        selects: true,
        roles,
        judge: Some(condition(alloc, table, words)?),
    })
}

impl<'a> World<'a> {
    /// Nothing yet.
    pub fn new(alloc: Global) -> Self {
        World {
            tables: Vec::new(alloc),
            roles: Vec::new(alloc),
            grants: Vec::new(alloc),
            questions: Vec::new(alloc),
        }
    }

    fn add_table(&mut self, alloc: Global, words: &str) -> io::Result<()> {
        let described = Described {
            table: table(alloc, words)?,
            secured: false,
            policies: Vec::new(alloc),
            rows: Vec::new(alloc),
        };
        Ok(self.tables.push(described)?)
    }

    // Adds to the last table.
    fn describe(&mut self, alloc: Global, word: &str, words: &str) -> io::Result<()> {
        let Some(last) = self.tables.last_mut() else {
            return no_case();
        };
        match word {
            "secured" => last.secured = true,
            "permissive" => {
                let policy = policy(alloc, &last.table, false, words)?;
                last.policies.push(policy)?;
            }
            "restrictive" => {
                let policy = policy(alloc, &last.table, true, words)?;
                last.policies.push(policy)?;
            }
            "row" => {
                let row = row(alloc, &last.table, words)?;
                last.rows.push(row)?;
            }
            _ => return no_case(),
        }
        Ok(())
    }

    fn add_role(&mut self, alloc: Global, bypass: bool) -> Result<(), AllocError> {
        let name = text(alloc, "")?;
        self.roles.push(Role { name, bypass })?;
        Ok(())
    }

    /// Takes a part in.
    pub fn add(&mut self, alloc: Global, part: &'a str) -> io::Result<()> {
        let (word, words) = part.split_once(' ').unwrap_or((part, ""));
        match word {
            "find" => Ok(self.questions.push("")?),
            "rights" => Ok(self.questions.push(words)?),
            "table" => self.add_table(alloc, words),
            "role" => Ok(self.add_role(alloc, false)?),
            "bypassing" => Ok(self.add_role(alloc, true)?),
            "grant" => Ok(self.grants.push(grant(words)?)?),
            _ => self.describe(alloc, word, words),
        }
    }

    fn made(self, alloc: Global) -> io::Result<(Made, Vec<&'a str>)> {
        let mut tables = Vec::new(alloc);
        let mut rules = Vec::new(alloc);
        let mut rows = Vec::new(alloc);
        // An earlier table may read a later one.
        let mut rank = u32::MAX;
        for described in self.tables {
            if described.policies.len() > MANY {
                return no_case();
            }
            let policies = List::new(described.policies);
            rules.push(TableRules {
                secured: described.secured,
                rank,
                policies,
            })?;
            rank = rank.saturating_sub(1);
            tables.push(described.table)?;
            rows.push(List::new(described.rows))?;
        }
        let Ok(rules) = Rules::new(List::new(rules)) else {
            return no_case();
        };
        let catalog = Catalog {
            tables: List::new(tables),
            roles: List::new(self.roles),
            grants: List::new(self.grants),
            rules,
        };
        let Some(tables) = SortedTables::new(List::new(rows)) else {
            return no_case();
        };
        Ok((Made { catalog, tables }, self.questions))
    }

    /// What is answered.
    pub fn answer(self, alloc: Global) -> io::Result<String> {
        let (made, questions) = self.made(alloc)?;
        let mut out = String::new(alloc);
        for question in &questions {
            if !out.is_empty() {
                out.push_str(" | ")?;
            }
            out.push_str(answered(alloc, &made, question)?.as_str())?;
        }
        Ok(out)
    }
}

fn shown_right(alloc: Global, right: Right) -> Result<String, AllocError> {
    match right {
        Right::Yes => String::from_str(alloc, "yes"),
        Right::NoPrivilege => String::from_str(alloc, "no privilege"),
        Right::NoPolicy => String::from_str(alloc, "no policy"),
        Right::NonePermits => String::from_str(alloc, "none permits"),
        Right::Restrictive(number) => format!(in alloc; "restrictive {number}"),
    }
}

fn shown_messages(alloc: Global, messages: Messages) -> Result<String, AllocError> {
    let table = messages.table;
    let topic = messages.topic;
    let extension = messages.extension;
    let action = messages.action;
    format!(in alloc; "{table}: {topic} {extension} {action}")
}

fn answered(alloc: Global, made: &Made, question: &str) -> io::Result<String> {
    let Some(messages) = find(&made.catalog) else {
        return Ok(String::from_str(alloc, "none")?);
    };
    if question.is_empty() {
        return Ok(shown_messages(alloc, messages)?);
    }
    asked(alloc, made, messages, question)
}

// Reads ROLE USER TOPIC.
fn asked(alloc: Global, made: &Made, messages: Messages, question: &str) -> io::Result<String> {
    let words: Vec<&str> = question.splitn(3, ' ').collect(alloc)?;
    let [role, sub, topic] = words.as_slice() else {
        return no_case();
    };
    let claims = claims(alloc, user(sub)?)?;
    let topic = text(alloc, topic)?;
    let role = number(role)?;
    let all = rights(
        alloc,
        &made.catalog,
        &made.tables,
        &messages,
        role,
        &claims,
        &topic,
    )?;
    let mut out = shown_right(alloc, all.join)?;
    for right in [all.presence, all.send, all.track] {
        out.push_str(", ")?;
        out.push_str(shown_right(alloc, right)?.as_str())?;
    }
    Ok(out)
}
