//! The tables that a stream rebuilds.
#![tactic(auto)]

pub mod laws;
mod lent_key;
mod sharing;
mod table;
mod tables;

pub use sharing::tables_may_be_shared;
pub use tables::Tables;
