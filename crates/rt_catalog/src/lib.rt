//! The catalogue: tables, roles, grants and row security, read from a part of PostgreSQL's statements ("SQL Commands").
#![tactic(auto)]

mod catalog;
mod fault;
pub mod laws;
mod statement;

pub use catalog::{Catalog, Column, Grant, Membership, Role, Table};
pub use fault::{CatalogFault, Why};
pub use statement::{Command, Item, Login, Mark, PolicyText, Statement, TableName};
