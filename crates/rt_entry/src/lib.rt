//! The inputs of the journal, what each does and gives, and the machine of steps that carries it to
//! the slots; and laws of the journal.
#![tactic(auto)]

mod answer;
mod entry;
mod input;
pub mod laws;
mod sharing;
mod story;
mod views;

pub use answer::{Answer, Item};
pub use entry::{ChannelView, Entry};
pub use input::{Input, Settings, Step};
pub use sharing::{handed_may_be_shared, views_may_be_shared};
pub use story::{Channel, Member, Opening, Part, Standing, Track};
pub use views::ChannelViews;
