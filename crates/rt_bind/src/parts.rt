use rt_value::{Cells, Edit};

/// What is left of a record that passes its checks.
#[derive(Drop)]
pub struct Parts {
    pub new: Cells,
    pub old: Cells,
    pub edit: Edit,
}
