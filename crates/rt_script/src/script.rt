use rt_entry::{Settings, Step};
use rt_value::List;

/// What a line does.
#[derive(Drop)]
pub enum Act {
    /// One step of the machine.
    One(Step),
    /// Everything that can be done without taking an input.
    Drain,
}

/// A line that does something, by its number from 1 on.
#[derive(Drop)]
pub struct Line {
    /// The number among all lines of the text.
    pub number: u32,
    /// What it does.
    pub step: Act,
}

/// A script. Where the schedule isn't manual, each step is followed by its take and by a drain.
#[derive(Drop)]
pub struct Script {
    /// The limits of the run, and the secret of its tokens.
    pub settings: Settings,
    /// Whether takes and drains are written out.
    pub manual: bool,
    /// The lines that do something, in their order.
    pub steps: List<Line>,
}
