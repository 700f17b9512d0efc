use rt_value::{List, Text, Value};
use sqlite_items::Boxed;

/// SQL's three truth values.
#[derive(Clone, Copy, Debug, Drop, PartialEq, Eq)]
pub enum Truth {
    True,
    False,
    Unknown,
}

/// How two values are compared.
#[derive(Clone, Copy, Debug, Drop, PartialEq, Eq)]
pub enum Comparison {
    Equal,
    NotEqual,
    Less,
    LessOrEqual,
    Greater,
    GreaterOrEqual,
}

/// What IS asks of a value.
#[derive(Clone, Copy, Debug, Drop, PartialEq, Eq)]
pub enum Tested {
    Null,
    True,
    False,
    Unknown,
}

/// An expression whose names and kinds are resolved. NOT IN is the NOT of an IN, and IS NOT that of
/// an IS.
#[derive(Drop)]
pub enum Judge {
    Literal(Value),
    /// A column of the policy's own table.
    Outer(u32),
    /// A column of the table that the EXISTS around it reads.
    Inner(u32),
    Uid,
    Role,
    Claim(Text),
    Compare(Comparison, Boxed<Judge>, Boxed<Judge>),
    OneOf(Boxed<Judge>, List<Judge>),
    Not(Boxed<Judge>),
    And(List<Judge>),
    Or(List<Judge>),
    Is(Tested, Boxed<Judge>),
    /// Some row of the table that the caller sees makes the condition true; without WHERE that is the
    /// literal true.
    Exists(u32, Boxed<Judge>),
}
