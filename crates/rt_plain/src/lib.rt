//! The runs of scripts: each script has one, and the plain schedule gives every slot all that is
//! due to it, for any number of workers.
#![tactic(auto)]

mod runs;
mod schedule;
mod scripts;

pub use runs::{runs_are_one, scripts_run};
pub use schedule::{
    due_is_free, plain_ends, plain_gives_all, rounds_are_at_once, workers_are_free,
    workers_end_alike,
};
pub use scripts::scripts_are_allowed;
