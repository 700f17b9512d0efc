//! How many lines of a stream were what.

use crate::binding::{Outcome, Refusal};
use rt_change::Verb;
use std::fmt;

/// A refused line: its number, from 1, and why.
#[derive(Drop)]
struct Refused {
    line: u64,
    why: Refusal,
}

/// Counts stop at the greatest number of 64 bits.
#[derive(Drop)]
pub struct Tally {
    lines: u64,
    inserts: u64,
    updates: u64,
    deletes: u64,
    truncates: u64,
    skipped: u64,
    refused: u64,
    first: Option<Refused>,
}

impl Tally {
    pub fn new() -> Self {
        Tally {
            lines: 0,
            inserts: 0,
            updates: 0,
            deletes: 0,
            truncates: 0,
            skipped: 0,
            refused: 0,
            first: None,
        }
    }

    /// Counts the next line.
    pub fn add(&mut self, outcome: Outcome) {
        self.lines = self.lines.saturating_add(1);
        match outcome {
            Outcome::Changed(verb) => self.add_change(verb),
            Outcome::Skipped => self.skipped = self.skipped.saturating_add(1),
            Outcome::Refused(why) => self.add_refused(why),
        }
    }

    fn add_change(&mut self, verb: Verb) {
        let count = match verb {
            Verb::Insert => &mut self.inserts,
            Verb::Update => &mut self.updates,
            Verb::Delete => &mut self.deletes,
            Verb::Truncate => &mut self.truncates,
        };
        *count = count.saturating_add(1);
    }

    fn add_refused(&mut self, why: Refusal) {
        self.refused = self.refused.saturating_add(1);
        if self.first.is_none() {
            let line = self.lines;
            self.first = Some(Refused { line, why });
        }
    }
}

impl fmt::Display for Tally {
    fn fmt<W: fmt::Write>(&self, f: &mut fmt::Formatter<W>) -> fmt::Result {
        let Tally {
            lines,
            inserts,
            updates,
            deletes,
            truncates,
            skipped,
            refused,
            first,
        } = self;
        write!(f, "lines {lines} inserts {inserts} updates {updates}")?;
        write!(f, " deletes {deletes} truncates {truncates}")?;
        write!(f, " skipped {skipped} refused {refused}")?;
        if let Some(Refused { line, why }) = first {
            write!(f, ", first line {line}: {why}")?;
        }
        Ok(())
    }
}
