//! Scripts: the lines that feed a run, and what the run prints.
#![tactic(auto)]

mod fault;
mod laws;
mod script;

pub use fault::{LineWhy, ScriptFault};
pub use laws::{one_script, one_stream, served_statuses};
pub use script::{Act, Line, Script};
