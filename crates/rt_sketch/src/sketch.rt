use rt_policy::part::Part;
use rt_policy::stack::Stack;
use std::alloc::AllocError;

/// What the next operand is for, with the heights of what stands before it.
#[derive(Clone, Copy)]
pub enum Place {
    First,
    Right(u8),
    Item(u8, u8),
}

/// What is open, with the height of what stands before it.
#[derive(Clone, Copy)]
pub enum Fence {
    Not(u8),
    Group(u8, Place),
    /// The WHERE of an EXISTS, and whether another EXISTS is open around it.
    Where(u8, Place, bool),
}

/// What may come next.
#[derive(Drop)]
pub enum Stage {
    Want(Place),
    Opened(Place),
    Within(Place, Part),
    Operand(u8),
    Related(u8),
    Tested(u8),
    NotIn(u8),
    In(u8),
    Items(u8, u8),
    Is(u8),
    IsNot(u8),
}

/// What stands before: what is open, whether an EXISTS is, and the greatest height behind the last
/// that is open.
#[derive(Drop)]
pub struct Around {
    pub fences: Stack<Fence>,
    pub inside: bool,
    pub level: u8,
}

/// What is kept of a state where only the heights of its trees matter.
#[derive(Drop)]
pub struct Sketch {
    pub around: Around,
    pub stage: Stage,
}

/// Why a token leads to no sketch.
#[derive(Drop)]
pub enum Stopped {
    NoMemory,
    /// The expression ends before this token, with this height.
    End(u8),
    Bad,
}

impl From<AllocError> for Stopped {
    ghost use Rattle.std.specs.Prelude.{◌≡◌};
    ghost use Rattle.rt_sketch.specs.declared.sketch.Stopped.TheVariants.{NoMemory};

    ghost from_gives = { λ _ e. e ≡ NoMemory };

    fn from(_: AllocError) -> Stopped {
        Stopped::NoMemory
    }
}
