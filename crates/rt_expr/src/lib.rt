//! Expressions of row policies, read from the tokens of a text.
#![tactic(auto)]

mod parsing;

pub use parsing::parse;
