//! A catalogue whose tables are lines of text, as cases and small programs write it.
#![tactic(auto)]

mod kinds;
mod tables;

pub use kinds::kind_named;
pub use tables::catalog_of;
