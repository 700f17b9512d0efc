//! The records of a wal2json stream, format 2, and the cut of the stream into batches.
#![tactic(auto)]

mod batching;
mod faults;
mod laws;
mod parsing;
mod records;
mod shapes;
mod times;

pub use batching::{Batcher, Batching};
pub use faults::{RecordWhy, WalFault};
pub use laws::{one_cut, one_moment, one_record};
pub use parsing::{parse_record, parse_text};
pub use records::{Action, Field, Record};
