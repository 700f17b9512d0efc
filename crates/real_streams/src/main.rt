//! Says how many lines of a recorded wal2json stream, on standard input, are records.
#![tactic(auto)]

use anyhow::Result;
use rt_wal::{WalFault, parse_record};
use std::io::{BufRead, BufReader};

#[derive(Clone, Copy)]
struct Tally {
    records: u64,
    refused: u64,
}

fn read_lines(rt: &(impl Input + AllocGlobal)) -> Result<Tally> {
    let mut tally = Tally {
        records: 0,
        refused: 0,
    };
    for line in BufReader::new(rt.alloc(), rt.reader())?.lines(rt.alloc()) {
        let line = line?;
        match parse_record(rt.alloc(), line.as_bytes()) {
            Ok(_) => tally.records = tally.records.saturating_add(1),
            Err(WalFault::BadRecord { .. }) => tally.refused = tally.refused.saturating_add(1),
            Err(WalFault::NoMemory) => return Err(WalFault::NoMemory.into()),
        }
    }
    Ok(tally)
}

fn main(rt: HostRuntime) -> Result<()> {
    let Tally { records, refused } = read_lines(&rt)?;
    println!(rt; "records {records} refused {refused}")?;
    Ok(())
}
