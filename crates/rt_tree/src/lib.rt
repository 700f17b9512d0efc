//! The tree of an expression of a row policy, made from the tokens of a text.
#![tactic(auto)]

mod building;
mod machine;
mod steps;
mod trees;

pub use building::built;
