//! The rights of private channels: who may join a topic, follow its presence, send to it and track
//! on it, as the policies of a table say (Realtime's channel authorization, in this project's
//! profile).
#![tactic(auto)]

mod access;
mod asked;
mod finding;
mod judging;
pub mod laws;
mod right;
mod row;

pub use finding::find;
pub use judging::rights;
pub use right::{Messages, Right, Rights};
