ghost use Rattle.std.specs.Prelude.{◌≡◌, ◌∷◌, false, IfSome, Some};
ghost use Rattle.std.specs.List.{list_any};
ghost use Rattle.rt_value.specs.Places.{next};
ghost use Rattle.rt_sql.specs.Lexeme.{Lexeme};
ghost use Rattle.rt_policy.specs.Machine as spec;
ghost use Rattle.rt_policy.specs.Machine.{Gives};
ghost use Rattle.rt_policy.specs.Parts as parts;
ghost use Rattle.rt_lexeme.specs.Look.{IsLook, lexeme_in, seen_in};
ghost use Rattle.rt_operand.specs.Plain.{is_plain};

use crate::machine::{
    Around, after_item, after_operand, after_related, after_test, given, over, state, tests,
};
use crate::trees::none;
use rt_lexeme::Look;
use rt_operand::{begin, existing, is_plain, is_select, part_moved, selecting};
use rt_policy::Expr;
use rt_policy::building::{Frame, Level, Mode, Slot, State, Stop};
use rt_policy::part::{Moved, Part, Source};
use rt_policy::stack::Stack;
use rt_policy::words::{Class, Sign, Word};
use std::alloc::Global;

fn fresh(alloc: Global) -> Level
    ensures { result ≡ spec.fresh }
{
    Level {
        ors: none(alloc),
        ands: none(alloc),
    }
}

fn opened(alloc: Global, stack: Stack<Frame>, frame: Frame) -> Result<State, Stop>
    ensures { Gives result (next (spec.state (frame ∷ stack) spec.fresh (Mode.Want Slot.First))) }
{
    let stack = stack.push(frame)?;
    Ok(State {
        stack,
        level: fresh(alloc),
        mode: Mode::Want(Slot::First),
    })
}

fn is_where(frame: &Frame) -> bool
    ensures { result ≡ spec.is_where frame.now }
{
    matches!(frame, Frame::Where(_, _, _))
}

fn any_where(frames: &[Frame]) -> bool
    ensures { result ≡ list_any spec.is_where frames.now }
{
    frames.iter().any(|frame| is_where(frame))
}

/// Whether an EXISTS is open.
fn inside(stack: &Stack<Frame>) -> bool
    ensures { result ≡ spec.inside stack.now }
{
    any_where(stack.items())
}

fn within(around: Around, slot: Slot, part: Part) -> State
    ensures { result ≡ spec.state around.stack around.level (Mode.Within slot part) }
{
    state(around, Mode::Within(slot, part))
}

fn condition(alloc: Global, around: Around, slot: Slot, source: Source) -> Result<State, Stop>
    ensures { Gives result (spec.condition around.stack around.level slot source) }
{
    let Around { stack, level } = around;
    if inside(&stack) {
        Err(Stop::Bad)
    } else {
        opened(alloc, stack, Frame::Where(level, slot, source))
    }
}

fn moved_to(
    alloc: Global,
    around: Around,
    slot: Slot,
    moved: Moved,
    class: Option<Class>,
) -> Result<State, Stop>
    ensures { Gives result (spec.moved_to around.stack around.level slot moved class) }
{
    match moved {
        Moved::More(part) => Ok(within(around, slot, part)),
        Moved::Done(e) => given(alloc, around, slot, e),
        Moved::Over(e) => over(alloc, around, slot, e, class),
        Moved::Condition(source) => condition(alloc, around, slot, source),
        Moved::Bad => Err(Stop::Bad),
    }
}

fn want_not(alloc: Global, around: Around, slot: Slot) -> Result<State, Stop>
    ensures { Gives result (spec.want_not around.stack around.level slot) }
{
    match slot {
        Slot::First => opened(alloc, around.stack, Frame::Not(around.level)),
        _ => Err(Stop::Bad),
    }
}

fn begun(around: Around, slot: Slot, part: Option<Part>) -> Result<State, Stop>
    ensures { Gives result (spec.begun around.stack around.level slot part) }
{
    match part {
        Some(part) => Ok(within(around, slot, part)),
        None => Err(Stop::Bad),
    }
}

/// The first token of a part.
fn want_plain(
    alloc: Global,
    text: &str,
    around: Around,
    slot: Slot,
    class: Class,
    look: Look,
) -> Result<State, Stop>
    requires look { IsLook text.now look }
    requires class { look.class ≡ Some class }
    ensures { Gives result (spec.begun around.stack around.level slot
        (parts.begin class (lexeme_in text.now look))) }
{
    let part = begin(alloc, text, class, look)?;
    begun(around, slot, part)
}

/// A token that opens more, or none.
fn want_marked(
    alloc: Global,
    around: Around,
    slot: Slot,
    class: Option<Class>,
) -> Result<State, Stop>
    requires { IfSome class (λ c. is_plain c ≡ false) }
    ensures { (x : Lexeme) → Gives result (spec.want around.stack around.level slot class x) }
{
    match class {
        Some(Class::Sign(Sign::Open)) => Ok(state(around, Mode::Opened(slot))),
        Some(Class::Word(Word::Not)) => want_not(alloc, around, slot),
        Some(Class::Word(Word::Exists)) => {
            if inside(&around.stack) {
                Err(Stop::Bad)
            } else {
                Ok(within(around, slot, existing()))
            }
        }
        _ => Err(Stop::Bad),
    }
}

/// An operand's first token.
fn want(alloc: Global, text: &str, around: Around, slot: Slot, look: Look) -> Result<State, Stop>
    requires { IsLook text.now look }
    ensures { Gives result
        (spec.want around.stack around.level slot look.class (lexeme_in text.now look)) }
{
    match look.class {
        None => want_marked(alloc, around, slot, None),
        Some(class) => {
            if is_plain(class) {
                want_plain(alloc, text, around, slot, class, look)
            } else {
                want_marked(alloc, around, slot, Some(class))
            }
        }
    }
}

/// Behind a parenthesis where an operand begins.
fn after_open(
    alloc: Global,
    text: &str,
    around: Around,
    slot: Slot,
    look: Look,
) -> Result<State, Stop>
    requires { IsLook text.now look }
    ensures { Gives result
        (spec.after_open around.stack around.level slot look.class (lexeme_in text.now look)) }
{
    if is_select(look.class) {
        Ok(within(around, slot, selecting()))
    } else {
        let stack = around.stack.push(Frame::Group(around.level, slot))?;
        let around = Around {
            stack,
            level: fresh(alloc),
        };
        want(alloc, text, around, Slot::First, look)
    }
}

fn after_is(alloc: Global, around: Around, a: Expr, class: Option<Class>) -> Result<State, Stop>
    ensures { Gives result (spec.after_is around.stack around.level a class) }
{
    match class {
        Some(Class::Word(Word::Not)) => Ok(state(around, Mode::IsNot(a))),
        _ => tests(alloc, around, false, a, class),
    }
}

fn after_not(around: Around, a: Expr, class: Option<Class>) -> Result<State, Stop>
    ensures { Gives result (spec.after_not around.stack around.level a class) }
{
    match class {
        Some(Class::Word(Word::In)) => Ok(state(around, Mode::In(true, a))),
        _ => Err(Stop::Bad),
    }
}

fn after_in(
    alloc: Global,
    around: Around,
    negated: bool,
    a: Expr,
    class: Option<Class>,
) -> Result<State, Stop>
    ensures { Gives result (spec.after_in around.stack around.level negated a class) }
{
    match class {
        Some(Class::Sign(Sign::Open)) => {
            let slot = Slot::Item(negated, a, none(alloc));
            Ok(state(around, Mode::Want(slot)))
        }
        _ => Err(Stop::Bad),
    }
}

/// Reads one token, or the end.
pub fn step(alloc: Global, text: &str, state: State, look: Look) -> Result<State, Stop>
    requires { IsLook text.now look }
    ensures { Gives result (spec.step state (seen_in text.now look)) }
{
    let State { stack, level, mode } = state;
    let around = Around { stack, level };
    let class = look.class;
    match mode {
        Mode::Want(slot) => want(alloc, text, around, slot, look),
        Mode::Opened(slot) => after_open(alloc, text, around, slot, look),
        Mode::Within(slot, part) => {
            let moved = part_moved(alloc, text, part, look)?;
            moved_to(alloc, around, slot, moved, class)
        }
        Mode::Operand(a) => after_operand(alloc, around, a, class),
        Mode::Related(e) => after_related(alloc, around, e, class),
        Mode::Tested(e) => after_test(alloc, around, e, class),
        Mode::NotIn(a) => after_not(around, a, class),
        Mode::In(negated, a) => after_in(alloc, around, negated, a, class),
        Mode::Items(negated, a, items) => after_item(alloc, around, negated, a, items, class),
        Mode::Is(a) => after_is(alloc, around, a, class),
        Mode::IsNot(a) => tests(alloc, around, true, a, class),
    }
}

/// The first state.
pub fn start(alloc: Global) -> State
    ensures { result ≡ spec.start }
{
    State {
        stack: Stack::new(alloc),
        level: fresh(alloc),
        mode: Mode::Want(Slot::First),
    }
}
