//! Where bytes come from and go to: the traits of sources and sinks, what stands for them in
//! memory, the adapters over standard readers and writers, and whole reads and writes.
#![tactic(auto)]

mod memory;
mod sink;
mod source;
mod standard;
mod whole;

pub use memory::{MemSink, MemSource};
pub use sink::{Sink, Wrote};
pub use source::{Read, Source};
pub use standard::{StandardSink, StandardSource};
pub use whole::{ReadAllFault, WriteFault, read_all, write_all};
