//! Expressions of row policies, recognized in the tokens of a text: where one ends and how deep it
//! is, or the first token that can't go on, without its tree.
#![tactic(auto)]

mod measuring;
mod recognizing;
mod sketch;
mod sketching;

pub use measuring::{Halted, measured};
