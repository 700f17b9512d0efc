//! Changes: the records of a stream bound to the catalogue, and what a subscription gets of them (a profile of WALRUS, `realtime.apply_rls`).
#![tactic(auto)]

mod change;
mod decision;
mod fault;
mod sharing;

pub use change::{Bound, Change, Verb};
pub use decision::{Denial, Verdict};
pub use fault::ChangeFault;
pub use sharing::changes_may_be_shared;
