//! Records of a stream bound to the catalogue: what each changes, or why it doesn't fit (wal2json,
//! format 2).
#![tactic(auto)]

mod apart;
mod binding;
mod cells;
mod edits;
mod fields;
mod keys;
pub mod laws;
mod lookup;
mod moved;
mod parts;
mod refusals;
mod values;

pub use apart::is_apart;
pub use binding::{bind, bind_lent};
pub use values::{from_json, shown, shown_copy};
