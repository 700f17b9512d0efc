//! An ordered map whose snapshots share.
//!
//! A [`Tree`] has four levels: a list of limbs, each a list of at most 12 branches, each a list of at most 12
//! leaves, each a list of at most 12 entries in the order of their keys. Every list, key and value stands
//! behind an `Arc`, so a snapshot shares the lists. A change writes to one leaf and what stands above it
//! where no snapshot has them, and makes anew what is shared.
#![tactic(auto)]

mod change;
mod entry;
mod node;
mod part;
mod parts;
mod sharing;
mod sought;
mod tree;

pub use sharing::trees_may_be_shared;
pub use sought::Sought;
pub use tree::{Entries, Tree};
