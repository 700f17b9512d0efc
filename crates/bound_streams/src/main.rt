//! Says how the lines of a recorded wal2json stream, on standard input, are bound to a catalogue.
//!
//! The argument is the catalogue's file, whose lines are as `catalog_lines` reads them. It prints a line: how many lines
//! there are, how many changes of each verb, how many records change no table of the catalogue, how many lines are
//! refused, and of the first of these its number and why.
#![tactic(auto)]

ghost use Rattle.rt_bind.specs.Apart.{CatalogIsApart};

mod binding;
mod tally;

use anyhow::{Context, Result, anyhow};
use binding::outcome_of;
use catalog_lines::catalog_of;
use rt_catalog::Catalog;
use std::io::{BufRead, BufReader};
use std::rt::{Env, Files};
use std::{env, fs};
use tally::Tally;

fn read_lines(rt: &(impl Input + AllocGlobal), catalog: &Catalog) -> Result<Tally>
    requires { CatalogIsApart catalog.now }
{
    let mut tally = Tally::new();
    for line in BufReader::new(rt.alloc(), rt.reader())?.lines(rt.alloc()) {
        let outcome = outcome_of(rt.alloc(), catalog, line?.as_bytes())?;
        tally.add(outcome);
    }
    Ok(tally)
}

fn run<R>(rt: &R) -> Result<()>
where
    R: Input + Print + Files + Env + AllocGlobal,
{
    let place = env::args(rt)?.nth(1);
    let place = place.ok_or(anyhow!("the catalogue's file is missing"))?;
    let lines = fs::read_to_string(rt, place.as_str()).context("the catalogue's file")?;
    let catalog = catalog_of(rt.alloc(), lines.as_str()).context("the catalogue")?;
    let tally = read_lines(rt, &catalog)?;
    println!(rt; "{tally}")?;
    Ok(())
}

fn main(rt: HostRuntime) -> Result<()> {
    run(&rt)
}
