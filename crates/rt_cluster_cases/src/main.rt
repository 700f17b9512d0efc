//! What scripts of several nodes show.
//!
//! A case is a script, with ` | ` between two lines, and its answer what it shows, with ` | ` between
//! two. `nodes N` comes first; `track n TOPIC KEY TREE`, `untrack n TOPIC KEY` and `drop n m` are
//! operations of the node n; `give K n` merges the delta of the K-th operation, from 0 on, into the
//! node n, `sync a b` the whole of a into b; `show n TOPIC` shows the state of a topic. Where a line
//! is none of these, has a node or an operation that isn't there or a tree that is no JSON, the
//! answer ends with `form`.
#![tactic(auto)]

mod nodes;
mod script;

use case_lines::{answer_cases, text_of};
use std::alloc::Global;
use std::io;

fn answer(alloc: Global, case: &[u8]) -> io::Result<String> {
    script::run(alloc, text_of(case)?)
}

fn main(rt: HostRuntime) -> io::Result<()> {
    answer_cases(&rt, answer)
}
