//! The lines of a script's text, and their words.
#![tactic(auto)]

mod lines;
mod words;

pub use lines::{first_line, is_passed_over};
pub use words::{number_of, parted};
