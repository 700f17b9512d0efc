//! What sockets ask for, done: that the effects of a socket's frame do what the journal says of the
//! frame.
#![tactic(auto)]

pub mod laws;
