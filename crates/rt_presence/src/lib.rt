//! Presence: who is present on a topic (the Realtime protocol, "Presence").
#![tactic(auto)]

mod differences;
pub mod laws;
mod maps;
mod present;
mod tracks;
mod trees;

pub use differences::{Diff, Meta};
pub use present::Presence;
pub use tracks::TrackKey;
pub use trees::{difference_tree, meta, metas_tree};
