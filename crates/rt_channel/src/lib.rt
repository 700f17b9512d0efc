//! What a socket's frame asks for, before anything but the socket is known (the Realtime protocol,
//! "Channels").
#![tactic(auto)]

mod answer;
mod effect;
mod held;
mod sharing;

pub use answer::Answer;
pub use effect::{Effect, Wish};
pub use held::{Held, Joined};
pub use sharing::sockets_may_be_shared;
