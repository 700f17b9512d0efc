//! Laws of the journal, each on a function that does nothing: what the next input finds by what
//! this one found and did, who is a member, what is present, and what stands in the lanes.

mod changes;
mod counts;
mod lanes;
mod polls;
mod spelling;
mod stories;

pub use changes::{departures_leave_others, subscriptions_grow, watchers_grow};
pub use counts::{
    joins_are_next, journals_are_counted, meanings_agree, members_are_registered, members_rise,
};
pub use lanes::{entries_give, lanes_fan_out, lanes_grow, marks_stay, stops_are_marked};
pub use polls::{bounds_are_of_kinds, bounds_are_of_tables, reports_are_audits, tables_are_edited};
pub use spelling::spelling_goes_on;
pub use stories::{
    ids_rise, members_are_apart, slots_are_open, story_grows, tracks_are_apart, tracks_are_ordered,
};
