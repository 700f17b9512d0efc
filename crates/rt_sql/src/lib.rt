//! The tokens of a catalogue's text: the one cut of it, and what each token means.
#![tactic(auto)]

mod fault;
mod laws;
mod lexeme;
mod piece;
mod scan;

pub use fault::SqlFault;
pub use laws::{front_is_cut, one_cut, one_fault, quotes_keep, tokens_of_the_text};
pub use lexeme::{Token, TokenKind};
pub use scan::{byte_tokens, tokens};
