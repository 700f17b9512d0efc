//! What a line of the stream is under a catalogue.

ghost use Rattle.rt_bind.specs.Apart.{CatalogIsApart};

use anyhow::Result;
use rt_bind::bind;
use rt_catalog::Catalog;
use rt_change::{Bound, ChangeFault, Verb};
use rt_wal::{WalFault, parse_record};
use std::alloc::Global;
use std::fmt;

/// Why a line is no change and is not skipped.
#[derive(Drop)]
pub enum Refusal {
    Line(WalFault),
    Record(ChangeFault),
}

impl fmt::Display for Refusal {
    fn fmt<W: fmt::Write>(&self, f: &mut fmt::Formatter<W>) -> fmt::Result {
        match self {
            Refusal::Line(fault) => write!(f, "{fault}"),
            Refusal::Record(ChangeFault::ColumnUnknown { name }) => {
                let name = name.get();
                write!(f, "column unknown: {name}")
            }
            Refusal::Record(ChangeFault::BadValue { name }) => {
                let name = name.get();
                write!(f, "bad value: {name}")
            }
            Refusal::Record(ChangeFault::KeyDiffers) => write!(f, "key differs"),
            Refusal::Record(ChangeFault::NoMemory) => write!(f, "no memory"),
        }
    }
}

/// What a line is.
#[derive(Drop)]
pub enum Outcome {
    Changed(Verb),
    Skipped,
    Refused(Refusal),
}

/// Binds the line's record. Only want of memory is an error.
pub fn outcome_of(alloc: Global, catalog: &Catalog, line: &[u8]) -> Result<Outcome>
    requires { CatalogIsApart catalog.now }
{
    let given = match parse_record(alloc, line) {
        Ok(given) => given,
        Err(WalFault::NoMemory) => return Err(WalFault::NoMemory.into()),
        Err(fault) => return Ok(Outcome::Refused(Refusal::Line(fault))),
    };
    match bind(alloc, catalog, given) {
        Ok(Bound::Change(change)) => Ok(Outcome::Changed(change.verb)),
        Ok(Bound::Skip) => Ok(Outcome::Skipped),
        Err(ChangeFault::NoMemory) => Err(ChangeFault::NoMemory.into()),
        Err(fault) => Ok(Outcome::Refused(Refusal::Record(fault))),
    }
}
