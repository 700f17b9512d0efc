use super::Json;
use rt_value::Text;

/// A member of an object.
#[cycle(tree)]
#[derive(Drop)]
pub struct Member {
    pub name: Text,
    pub value: Json,
}
