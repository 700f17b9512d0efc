ghost use Rattle.std.specs.Prelude.{◌≡◌, ◌⊎◌, ℕ, List, IfOk, IfErr, MatchResult};
ghost use Rattle.rt_cluster_script.specs.Agreeing.{LeadsOn};
ghost use Rattle.rt_cluster_script.specs.Script.{Shows, Refuses, IsFault};

use crate::fault::ClusterFault;
use crate::nodes::Nodes;
use rt_lines::{first_line, is_passed_over};
use rt_value::Bytes;
use std::alloc::{AllocError, Global};

/// Takes a line of a text; whether it is one.
fn take_line(alloc: Global, nodes: &mut Nodes, line: &[u8]) -> Result<bool, AllocError>
    ensures { IfOk result (LeadsOn nodes.old nodes.new line.now) }
{
    if is_passed_over(line) {
        return Ok(true);
    }
    match std::str::from_utf8(line) {
        Ok(text) => nodes.take(alloc, text),
        Err(_) => Ok(false),
    }
}

/// What the script shows: a line for each of its lines that shows something.
///
/// Errors: `Refused` with the first line that is none; memory ran out.
pub fn run(alloc: Global, text: &[u8]) -> Result<Bytes, ClusterFault>
    ensures shown { IfOk result (Shows text.now) }
    ensures fault { IfErr result (IsFault text.now) }
    ensures only_shown { (bytes : List ℕ) → Shows text.now bytes
        → MatchResult result (λ found. found ≡ bytes) (λ fault. fault ≡ ClusterFault.NoMemory) }
    ensures only_refused { (line : ℕ) → Refuses text.now line → MatchResult result (λ _. ⊥)
        (λ fault. (fault ≡ ClusterFault.Refused line) ⊎ (fault ≡ ClusterFault.NoMemory)) }
{
    let mut nodes = Nodes {
        replicas: Vec::new(alloc),
        told: Vec::new(alloc),
        shown: Vec::new(alloc),
    };
    let mut rest = text;
    for number in 1..u64::MAX {
        let Some((line, more)) = first_line(rest) else {
            return Ok(Bytes::new(nodes.shown));
        };
        if !take_line(alloc, &mut nodes, line)? {
            return Err(ClusterFault::Refused { line: number });
        }
        rest = more;
    }
    // No memory holds so many lines.
    Err(ClusterFault::NoMemory)
}
