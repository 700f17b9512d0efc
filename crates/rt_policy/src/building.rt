use crate::part::{Part, Source};
use crate::stack::Stack;
use crate::{Comparison, Expr};
use rt_value::List;
use std::alloc::AllocError;

/// What the next operand is for.
#[derive(Drop)]
pub enum Slot {
    First,
    Right(Comparison, Expr),
    Item(bool, Expr, List<Expr>),
}

/// What stands complete before an OR and before an AND.
#[derive(Drop)]
pub struct Level {
    pub ors: List<Expr>,
    pub ands: List<Expr>,
}

/// What is open, with what stands before it.
#[derive(Drop)]
pub enum Frame {
    Not(Level),
    Group(Level, Slot),
    Where(Level, Slot, Source),
}

/// What may come next.
#[derive(Drop)]
pub enum Mode {
    Want(Slot),
    /// Behind a parenthesis where an operand begins.
    Opened(Slot),
    /// Within an operand.
    Within(Slot, Part),
    Operand(Expr),
    Related(Expr),
    Tested(Expr),
    NotIn(Expr),
    In(bool, Expr),
    Items(bool, Expr, List<Expr>),
    Is(Expr),
    IsNot(Expr),
}

#[derive(Drop)]
pub struct State {
    pub stack: Stack<Frame>,
    pub level: Level,
    pub mode: Mode,
}

/// Why a token leads to no state.
#[derive(Drop)]
pub enum Stop {
    NoMemory,
    /// The expression ends before this token.
    End(Expr),
    Bad,
}

impl From<AllocError> for Stop {
    ghost use Rattle.std.specs.Prelude.{◌≡◌};
    ghost use Rattle.rt_policy.specs.declared.building.Stop.TheVariants.{NoMemory};

    ghost from_gives = { λ _ e. e ≡ NoMemory };

    fn from(_: AllocError) -> Stop {
        Stop::NoMemory
    }
}
