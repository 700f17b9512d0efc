//! Presence over several nodes: each keeps its marks as an add-wins set, and tells the others in
//! deltas that may be lost, repeated and reordered.
#![tactic(auto)]

mod dots;
pub mod examples;
pub mod laws;
mod merging;
mod places;
mod ranges;
mod replica;
mod seen;
mod walks;

pub use dots::{Delta, Dot, Mark};
pub use replica::Replica;
