//! Scripts of several nodes: what they do, tell each other and show.
#![tactic(auto)]

mod fault;
mod laws;
mod nodes;
mod running;
mod words;

pub use fault::ClusterFault;
pub use laws::one_end;
pub use running::run;
