//! Filters of subscriptions, as a client writes them and as a test of a row's cells (the Realtime
//! protocol, "Postgres Changes").
#![tactic(auto)]

mod checking;
mod fault;
mod filter;
pub mod laws;
mod passing;
mod reading;
mod sharing;
mod subscription;

pub use checking::check;
pub use fault::FilterFault;
pub use filter::{Filter, Op, Shown, Test};
pub use passing::{all_pass, passes};
pub use reading::read;
pub use sharing::tests_may_be_shared;
pub use subscription::{Subscription, Wanted};
