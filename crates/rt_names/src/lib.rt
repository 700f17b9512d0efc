//! Where names stand: indices from a name, and from a name within a schema, to the first place at
//! which it stands.
#![tactic(auto)]

mod names;
mod numbers;

pub use names::Names;
pub use numbers::Numbers;
