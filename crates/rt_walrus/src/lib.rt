//! The decision: who gets a change, and its data (a profile of WALRUS, `realtime.apply_rls`).
#![tactic(auto)]

mod access;
mod asking;
mod deciding;
mod shaping;
mod sides;
mod sight;
mod steps;

pub use deciding::{judge, verdict};
pub use shaping::shape;
pub use sight::Sight;
pub use steps::Steps;
