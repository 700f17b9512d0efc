/// A step from one number to another.
#[derive(Clone, Copy, Debug, Drop, PartialEq, Eq)]
pub struct Step {
    /// Where it begins.
    pub from: usize,
    /// Where it leads.
    pub to: usize,
}
