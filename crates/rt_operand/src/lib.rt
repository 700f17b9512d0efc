//! How an operand of an expression is read in which no other stands: a column, a constant, a call,
//! or an EXISTS up to its WHERE.
#![tactic(auto)]

mod casts;
mod columns;
mod goals;
mod openings;
mod sources;

pub use columns::begin;
pub use goals::part_moved;
pub use openings::{existing, is_plain, is_select, selecting};
