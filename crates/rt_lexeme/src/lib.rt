//! What a token is to an expression of a row policy, and what it keeps.
#![tactic(auto)]

mod classes;
mod long;
mod look;

pub use classes::{is_auth, tested_of, word_next};
pub use long::any_long;
pub use look::{Look, at_end, at_token, content, digits, name};
