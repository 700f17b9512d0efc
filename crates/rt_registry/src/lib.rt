//! Bindings of channels, and the subscriptions that they are (the Realtime protocol, "Postgres Changes").
#![tactic(auto)]

mod binding;
mod fault;
mod sharing;
mod subscriptions;

pub use binding::{Binding, Subscribed};
pub use fault::{BindingWhy, RegistryFault};
pub use sharing::subscriptions_may_be_shared;
pub use subscriptions::Subscriptions;
