ghost use Rattle.std.specs.Prelude.{◌≡◌, ◌∷◌, IfOk, MatchOption};
ghost use Rattle.rt_value.specs.Places.{next};
ghost use Rattle.rt_policy.specs.Machine as spec;
ghost use Rattle.rt_policy.specs.Machine.{Gives};

use crate::trees::{
    compared, conjunction, disjunction, exists_where, group, is, none, not, one_of, pushed,
};
use rt_lexeme::tested_of;
use rt_policy::Expr;
use rt_policy::building::{Frame, Level, Mode, Slot, State, Stop};
use rt_policy::stack::Stack;
use rt_policy::words::{Class, Sign, Word};
use rt_value::List;
use std::alloc::{AllocError, Global};

/// What stands before: what is open, and what stands complete behind the last that is open.
#[derive(Drop)]
pub struct Around {
    pub stack: Stack<Frame>,
    pub level: Level,
}

pub fn state(around: Around, mode: Mode) -> State
    ensures { result ≡ spec.state around.stack around.level mode }
{
    let Around { stack, level } = around;
    State { stack, level, mode }
}

/// An operand is read.
pub fn given(alloc: Global, around: Around, slot: Slot, v: Expr) -> Result<State, Stop>
    ensures { Gives result (next (spec.given around.stack around.level slot v)) }
{
    let mode = match slot {
        Slot::First => Mode::Operand(v),
        Slot::Right(op, a) => Mode::Related(compared(alloc, op, a, v)?),
        Slot::Item(negated, a, items) => Mode::Items(negated, a, pushed(items, v)?),
    };
    Ok(state(around, mode))
}

/// An expression is read.
fn closed(alloc: Global, stack: Stack<Frame>, e: Expr, class: Option<Class>) -> Result<State, Stop>
    ensures { Gives result (spec.closed stack e class) }
{
    let mut stack = stack;
    match stack.pop() {
        None => Err(Stop::End(e)),
        Some(Frame::Not(_)) => Err(Stop::Bad),
        Some(Frame::Group(level, slot)) => match class {
            Some(Class::Sign(Sign::Close)) => {
                let e = group(alloc, e)?;
                given(alloc, Around { stack, level }, slot, e)
            }
            _ => Err(Stop::Bad),
        },
        Some(Frame::Where(level, slot, source)) => match class {
            Some(Class::Sign(Sign::Close)) => {
                let e = exists_where(alloc, source, e)?;
                given(alloc, Around { stack, level }, slot, e)
            }
            _ => Err(Stop::Bad),
        },
    }
}

fn wanting(around: Around, slot: Slot) -> State
    ensures { result ≡ spec.state around.stack around.level (Mode.Want slot) }
{
    state(around, Mode::Want(slot))
}

/// What AND joins is read.
fn after_conjunction(
    alloc: Global,
    stack: Stack<Frame>,
    ors: List<Expr>,
    class: Option<Class>,
) -> Result<State, Stop>
    ensures { Gives result (spec.after_conjunction stack ors class) }
{
    match class {
        Some(Class::Word(Word::Or)) => {
            let ands = none(alloc);
            let level = Level { ors, ands };
            Ok(wanting(Around { stack, level }, Slot::First))
        }
        _ => closed(alloc, stack, disjunction(ors), class),
    }
}

/// What NOT may stand before is read.
fn after_negation(
    alloc: Global,
    stack: Stack<Frame>,
    ors: List<Expr>,
    all: List<Expr>,
    class: Option<Class>,
) -> Result<State, Stop>
    ensures { Gives result (spec.after_negation stack ors all class) }
{
    match class {
        Some(Class::Word(Word::And)) => {
            let level = Level { ors, ands: all };
            Ok(wanting(Around { stack, level }, Slot::First))
        }
        _ => {
            let ors = pushed(ors, conjunction(all))?;
            after_conjunction(alloc, stack, ors, class)
        }
    }
}

pub struct Below {
    stack: Stack<Frame>,
    level: Level,
    tree: Expr,
}

/// The level behind a NOT that waits.
fn waiting(stack: Stack<Frame>) -> Result<(Stack<Frame>, Option<Level>), AllocError>
    ensures { IfOk result (λ r. MatchOption r.1 ((r.0 ≡ stack) × spec.Opens stack)
        (λ l. stack ≡ Frame.Not l ∷ r.0)) }
{
    let mut stack = stack;
    match stack.pop() {
        None => Ok((stack, None)),
        Some(Frame::Not(level)) => Ok((stack, Some(level))),
        Some(frame) => Ok((stack.push(frame)?, None)),
    }
}

/// With the NOTs before it.
fn negated(
    alloc: Global,
    stack: Stack<Frame>,
    level: Level,
    tree: Expr,
) -> Result<Below, AllocError>
    ensures { IfOk result (λ n. spec.negated stack level tree ≡
        record { stack = n.stack; level = n.level; tree = n.tree }) }
{
    let mut now = Below { stack, level, tree };
    loop {
        let Below { stack, level, tree } = now;
        let (stack, outer) = waiting(stack)?;
        match outer {
            None => return Ok(Below { stack, level, tree }),
            Some(outer) => {
                now = Below {
                    stack,
                    level: outer,
                    tree: not(alloc, tree)?,
                };
            }
        }
    }
}

pub fn after_test(
    alloc: Global,
    around: Around,
    e: Expr,
    class: Option<Class>,
) -> Result<State, Stop>
    ensures { Gives result (spec.after_test around.stack around.level e class) }
{
    let Below { stack, level, tree } = negated(alloc, around.stack, around.level, e)?;
    let Level { ors, ands } = level;
    let all = pushed(ands, tree)?;
    after_negation(alloc, stack, ors, all, class)
}

pub fn after_related(
    alloc: Global,
    around: Around,
    r: Expr,
    class: Option<Class>,
) -> Result<State, Stop>
    ensures { Gives result (spec.after_related around.stack around.level r class) }
{
    match class {
        Some(Class::Word(Word::Is)) => Ok(state(around, Mode::Is(r))),
        _ => after_test(alloc, around, r, class),
    }
}

pub fn after_operand(
    alloc: Global,
    around: Around,
    a: Expr,
    class: Option<Class>,
) -> Result<State, Stop>
    ensures { Gives result (spec.after_operand around.stack around.level a class) }
{
    let mode = match class {
        Some(Class::Compared(op)) => Mode::Want(Slot::Right(op, a)),
        Some(Class::Word(Word::In)) => Mode::In(false, a),
        Some(Class::Word(Word::Not)) => Mode::NotIn(a),
        _ => return after_related(alloc, around, a, class),
    };
    Ok(state(around, mode))
}

pub fn after_item(
    alloc: Global,
    around: Around,
    negated: bool,
    a: Expr,
    items: List<Expr>,
    class: Option<Class>,
) -> Result<State, Stop>
    ensures { Gives result (spec.after_item around.stack around.level negated a items class) }
{
    let mode = match class {
        Some(Class::Sign(Sign::Comma)) => Mode::Want(Slot::Item(negated, a, items)),
        Some(Class::Sign(Sign::Close)) => Mode::Related(one_of(alloc, negated, a, items)?),
        _ => return Err(Stop::Bad),
    };
    Ok(state(around, mode))
}

/// An operand is read, which ends before the token.
pub fn over(
    alloc: Global,
    around: Around,
    slot: Slot,
    v: Expr,
    class: Option<Class>,
) -> Result<State, Stop>
    ensures { Gives result (spec.over around.stack around.level slot v class) }
{
    match slot {
        Slot::First => after_operand(alloc, around, v, class),
        Slot::Right(op, a) => {
            let related = compared(alloc, op, a, v)?;
            after_related(alloc, around, related, class)
        }
        Slot::Item(negated, a, items) => {
            let items = pushed(items, v)?;
            after_item(alloc, around, negated, a, items, class)
        }
    }
}

pub fn tests(
    alloc: Global,
    around: Around,
    negated: bool,
    a: Expr,
    class: Option<Class>,
) -> Result<State, Stop>
    ensures { Gives result
        (spec.tests around.stack around.level negated a (spec.tested_of class)) }
{
    match tested_of(class) {
        None => Err(Stop::Bad),
        Some(tested) => Ok(state(around, Mode::Tested(is(alloc, negated, tested, a)?))),
    }
}
