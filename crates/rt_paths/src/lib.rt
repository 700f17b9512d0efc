//! Which numbers lead to which, over steps from one to another.
#![tactic(auto)]

mod cells;
pub mod laws;
mod paths;
mod step;

pub use paths::Paths;
pub use step::Step;
