//! JSON, RFC 8259: texts read as trees, and trees written as texts.
#![tactic(auto)]

pub mod building;
mod bytes;
mod copying;
mod fault;
mod lookup;
mod reading;
mod scalar;
mod scan;
mod sharing;
mod stack;
mod state;
mod stop;
mod text;
mod tree;
mod writing;

pub use fault::JsonFault;
pub use lookup::member;
pub use reading::{one_fault, one_tree, read};
pub use sharing::trees_may_be_shared;
pub use tree::Json;
pub use tree::named::Member;
pub use writing::{
    write, write_behind, write_comma, write_text_behind, written_again, written_by_parts,
};
