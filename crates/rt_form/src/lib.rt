//! The first form of a catalogue and a script: one table, one role, one socket that joins, one
//! insert, one poll. Its two texts are read, and the three messages that are due by it are made and
//! printed.
#![tactic(auto)]

mod catalogue;
mod catalogue_text;
mod fault;
mod insert;
mod join;
mod lexing;
mod messages;
mod numbers;
mod printing;
mod script;
mod script_text;
mod shapes;
mod statements;

pub use catalogue::{Catalogue, Column, ColumnType, Table};
pub use catalogue_text::read_catalogue;
pub use fault::FormFault;
pub use messages::{change, join_reply, subscribed};
pub use numbers::number_of;
pub use printing::print_slot;
pub use script::{Join, Script};
pub use script_text::read_script;
