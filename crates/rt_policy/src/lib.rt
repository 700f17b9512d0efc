//! Conditions of row policies: how they are written, what they are at a row, and which rows they
//! show (PostgreSQL, "Row Security Policies").
#![tactic(auto)]

pub mod building;
mod caller;
mod claims;
mod evaluation;
mod expr;
mod fault;
mod joining;
mod judge;
mod kinds;
pub mod laws;
mod lent;
mod logic;
mod lookup;
mod meaning;
pub mod part;
mod parts;
mod ranking;
mod resolution;
mod rules;
mod scope;
pub mod stack;
mod tables;
mod types;
pub mod words;

pub use caller::{Caller, Seen};
pub use evaluation::{holds, sees};
pub use expr::{Expr, Literal, Selected, TypeName};
pub use fault::ExprFault;
pub use judge::{Comparison, Judge, Tested, Truth};
pub use resolution::resolve;
pub use rules::Rules;
pub use scope::{ColumnView, Scope, TableView};
pub use tables::{Policy, TableRules};
