//! Values, rows, edits and claims: the data that every crate above speaks of.
#![tactic(auto)]

mod bytes;
mod claims;
mod copying;
mod db;
mod edit;
mod editing;
pub mod laws;
mod lent;
mod list;
mod memory;
mod moments;
mod order;
mod reading;
mod rising;
mod row;
mod run;
mod shared;
mod sharing;
mod showing;
mod text;
mod value;

pub use bytes::Bytes;
pub use claims::{Claim, Claims};
pub use db::{Db, Walk, rows_in};
pub use edit::Edit;
pub use editing::{edited, fill};
pub use lent::{LentValue, begin_key, lend, order_key};
pub use list::List;
pub use memory::SortedTables;
pub use order::compare;
pub use reading::{ValueFault, from_text};
pub use row::{Cells, Key, Row};
pub use run::{Run, rows_with};
pub use shared::Shared;
pub use sharing::{data_may_be_shared, lists_may_be_shared, may_share};
pub use showing::shown_moment;
pub use text::Text;
pub use value::{Kind, Value};
