ghost use Rattle.std.specs.Prelude.{◌≡◌, ◌≤◌, ◌+◌, ◌∷◌, ◌++◌, [], true, length, List, ℕ, MatchOption, IsOk, IfOk, IfErr, OnErr};
ghost use Rattle.std.specs.Option.{option_to_list};
ghost use Rattle.rt_wal.specs.declared.records.Record.{Record as Entry};
ghost use Rattle.rt_wal.specs.Records.{IsFault};
ghost use Rattle.rt_wal.specs.Batches as spec;
ghost use Rattle.rt_wal.specs.Batches.{HasCut, IsCutOfLines, TakesLine, IsNext};

use crate::faults::WalFault;
use crate::parsing::{content_of, parse_text, without_last};
use crate::records::{Action, Record};
use rt_value::List;
use std::alloc::{AllocFailed, Global};
use std::marker::Model;
use std::mem;

/// What a line of a stream gave.
#[derive(Drop)]
pub enum Batching {
    /// The line ended this batch.
    Batch(List<Record>),
    /// The line ended no batch.
    More,
}

/// Cuts a stream's lines into batches: a batch ends with the first commit at which it has at least so many records.
#[derive(Drop)]
pub struct Batcher {
    alloc: Global,
    max: usize,
    pending: Vec<Record>,
}

impl Model for Batcher {
    ghost use Rattle.rt_wal.specs.Batches.{Waiting, waiting_code};
    ghost use Rattle.rt_wal.specs.contracts.records.Record as entry;

    ghost Value = { Waiting };

    ghost coded = { waiting_code entry.the_row.coded };

    ghost view = { λ b. record { max = b.max; records = b.pending.items } };
}

fn is_blank(line: &[u8]) -> bool
    ensures { result ≡ spec.is_blank line.now }
{
    without_last(without_last(line, b'\n'), b'\r').is_empty()
}

fn is_commit(action: Action) -> bool
    ensures { result ≡ spec.is_commit action }
{
    matches!(action, Action::Commit)
}

impl Batcher {
    /// A batcher that no line was given to.
    pub fn new(alloc: Global, max: usize) -> Batcher
        requires { 1 ≤ max }
        ensures waits { result ≡ record { max = max; records = [] } }
        ensures cut { HasCut [] [] result }
    {
        Batcher {
            alloc,
            max,
            pending: Vec::new(alloc),
        }
    }

    fn take(&mut self, entry: Record) -> Result<Batching, AllocFailed<Record>>
        ensures next { IfOk result (λ answer. IsNext self.old entry answer self.new) }
        ensures unchanged { OnErr result (self.new ≡ self.old) }
    {
        let ends = is_commit(entry.action) && self.pending.len() + 1 >= self.max;
        self.pending.push(entry)?;
        if ends {
            let batch = mem::replace(&mut self.pending, Vec::new(self.alloc));
            Ok(Batching::Batch(List::new(batch)))
        } else {
            Ok(Batching::More)
        }
    }

    /// Takes the stream's next line with its LF, which the last line may lack. A line that is empty or a CR alone counts
    /// for nothing.
    ///
    /// `BadRecord` where the line is no record, with the reason that `parse_record` gives, and `NoMemory` where memory
    /// runs out. The batcher is then as it was before.
    pub fn line(&mut self, line: &[u8]) -> Result<Batching, WalFault>
        ensures takes { IfOk result (λ answer. TakesLine self.old line.now answer self.new) }
        // The batches so far and what waits stay the one cut of the lines so far.
        ensures cut { IfOk result (λ answer. (lines : List (List ℕ)) (given : List (List Entry)) → HasCut lines given self.old
            → HasCut (lines ++ line.now ∷ []) (given ++ spec.batches_in answer) self.new) }

        ensures blank { spec.is_blank line.now ≡ true → IsOk result }
        ensures refused { IfErr result (IsFault line.now) }
        ensures unchanged { OnErr result (self.new ≡ self.old) }
    {
        if is_blank(line) {
            return Ok(Batching::More);
        }
        let entry = parse_text(self.alloc, content_of(line))?;
        Ok(self.take(entry)?)
    }

    /// The batch of the lines that wait at the stream's end, where there is one.
    pub fn end(self) -> Option<List<Record>>
        ensures rest { MatchOption result (self.records ≡ []) (λ batch. (batch ≡ self.records) × (1 ≤ length batch)) }
        ensures cut { (lines : List (List ℕ)) (given : List (List Entry)) → HasCut lines given self
            → IsCutOfLines self.max lines (given ++ option_to_list result) }
    {
        let Batcher { pending, .. } = self;
        if pending.is_empty() {
            None
        } else {
            Some(List::new(pending))
        }
    }
}
