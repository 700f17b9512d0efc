//! What the bindings of a channel mean, or the first reason against them (the Realtime protocol,
//! "Postgres Changes").
#![tactic(auto)]

mod bound;
mod filters;
mod lookup;
mod meaning;

pub use bound::bindings_for;
