pub mod named;

use named::Member;
use rt_value::{List, Text};

/// A JSON value. A number is kept as its text, and an object keeps its members in order, also where a name comes again.
#[cycle(tree)]
#[derive(Drop)]
pub enum Json {
    Null,
    Bool(bool),
    Num(Text),
    Text(Text),
    List(List<Json>),
    Object(List<Member>),
}
