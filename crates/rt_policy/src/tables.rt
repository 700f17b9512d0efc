ghost use Rattle.std.specs.Prelude.{◌<◌, ◌^◌, length};

use crate::Judge;
use rt_value::{List, Text};

/// A row policy. No roles means PUBLIC. A policy that selects, for ALL or SELECT, has a judge.
#[derive(Drop)]
pub struct Policy {
    pub name: Text,
    pub restrictive: bool,
    pub selects: bool,
    pub roles: Option<List<u32>>,
    pub judge: Option<Judge>,
}

/// The row security of a table, with its policies in the order of their names. The rank is above that
/// of every table which the policies that select read.
#[derive(Drop)]
pub struct TableRules {
    pub secured: bool,
    pub rank: u32,
    pub policies: List<Policy>,
    pub ghost few: { length policies < 2 ^ 32 },
}
