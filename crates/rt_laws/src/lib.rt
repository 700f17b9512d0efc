//! Laws of what the journal gives and of the machine of steps. Each is the contract of a function
//! with an empty body.
#![tactic(auto)]

mod access;
mod exact;
mod presence;
mod private;
mod serving;
mod steps;
mod stories;
mod workers;

pub use access::{audit_decides, changes_are_allowed, given_is_allowed, verdicts_are_one};
pub use exact::{cuts_are_put, only_polls_tell_changes};
pub use presence::{
    answers_are_readable, clients_agree, clients_follow, departures_are_told, given_clients_agree,
    readers_agree, states_are_read, taken_clients_agree,
};
pub use private::{
    broadcasts_are_permitted, denials_are_answers, joins_are_judged, members_are_judged,
    posts_run_out, renewals_are_judged, tracks_are_permitted, without_messages,
};
pub use serving::{serves_all, uncut_is_due};
pub use steps::{cuts_are_own, others_are_untouched, push_keeps_the_rest};
pub use stories::openings_are_whole;
pub use workers::{others_keep, pushes_take, work_spells, workers_keep, works_are_apart};
