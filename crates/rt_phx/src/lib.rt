//! Messages of the channel protocol in both versions of its frames (the Realtime protocol,
//! "Messages").
#![tactic(auto)]

mod copying;
mod decoding;
mod encoding;
mod end;
mod fault;
mod message;
mod parts;
mod said;
pub mod saying;
mod sharing;
mod splicing;
pub mod trees;

pub use decoding::{decode, one_message};
pub use encoding::{encode, encode_said, encoded_again};
pub use end::EndName;
pub use fault::PhxFault;
pub use message::{Message, Posting, Version};
pub use said::Said;
pub use sharing::messages_may_be_shared;
pub use splicing::{change_spliced, encode_change};
