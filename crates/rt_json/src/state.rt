ghost use Rattle.std.specs.Prelude.{◌≡◌, ◌≢◌, IfOk, [], ◌∷◌, ◌++◌};
ghost use Rattle.rt_json.specs.Machine as spec;
ghost use Rattle.rt_json.specs.States.{state, Steps, OpensTo};

use crate::bytes::Class;
use crate::stack::{Stack, pushed};
use crate::stop::Stop;
use crate::tree::Json;
use crate::tree::named::Member;
use rt_value::{List, Text};
use std::alloc::{AllocError, Global};

/// What is open around a value.
#[derive(Drop)]
pub enum Frame {
    /// A list, with the items before the value.
    Item(List<Json>),
    /// An object, with the members before the value, and its name.
    Member(List<Member>, Text),
}

/// What may come next, besides blanks, in what is open.
#[derive(Drop)]
pub enum Mode {
    Value,
    /// Behind `[`: an item or `]`.
    FirstItem,
    /// Behind an item: a comma or `]`.
    AfterItem(List<Json>),
    /// Behind `{`: a name or `}`.
    FirstName,
    /// Behind a comma: a name.
    Name(List<Member>),
    /// Behind a name: a colon.
    Colon(List<Member>, Text),
    /// Behind a member: a comma or `}`.
    AfterMember(List<Member>),
    /// Behind the whole value: nothing.
    Done(Json),
}

#[derive(Drop)]
pub struct State {
    pub stack: Stack<Frame>,
    pub mode: Mode,
}

/// How many lists and objects may be open at once.
const MAX_LEVELS: usize = 64;

/// Puts a value into what is open.
#[inline(always)]
pub fn completed(stack: Stack<Frame>, tree: Json) -> Result<State, AllocError>
    ensures { IfOk result (λ s. state s ≡ spec.completed stack tree) }
{
    let mut stack = stack;
    match stack.pop() {
        None => Ok(State {
            stack,
            mode: Mode::Done(tree),
        }),
        Some(Frame::Item(items)) => {
            let items = pushed(items, tree)?;
            Ok(State {
                stack,
                mode: Mode::AfterItem(items),
            })
        }
        Some(Frame::Member(members, name)) => {
            let members = pushed(members, Member { name, value: tree })?;
            Ok(State {
                stack,
                mode: Mode::AfterMember(members),
            })
        }
    }
}

/// Begins a list or an object.
#[inline(always)]
pub fn opened(stack: Stack<Frame>, mode: Mode, left: usize) -> Result<State, Stop>
    ensures { OpensTo stack mode left result }
{
    if stack.len() < MAX_LEVELS {
        Ok(State { stack, mode })
    } else {
        Err(Stop::TooDeep(left))
    }
}

#[inline(always)]
pub fn after_item(
    stack: Stack<Frame>,
    items: List<Json>,
    class: Class,
    left: usize,
) -> Result<State, Stop>
    ensures { Steps left result (spec.after_item stack items class) }
{
    match class {
        Class::Blank => Ok(State {
            stack,
            mode: Mode::AfterItem(items),
        }),
        Class::Comma => {
            let stack = stack.push(Frame::Item(items))?;
            Ok(State {
                stack,
                mode: Mode::Value,
            })
        }
        Class::RightBracket => Ok(completed(stack, Json::List(items))?),
        _ => Err(Stop::Bad(left)),
    }
}

/// Behind `{`, where no name begins.
#[inline(always)]
pub fn at_first_name(
    alloc: Global,
    stack: Stack<Frame>,
    class: Class,
    left: usize,
) -> Result<State, Stop>
    requires { class ≢ Class.Quote }
    ensures { Steps left result (spec.at_first_name stack class) }
{
    match class {
        Class::Blank => Ok(State {
            stack,
            mode: Mode::FirstName,
        }),
        Class::RightBrace => {
            let empty = Json::Object(List::new(Vec::new(alloc)));
            Ok(completed(stack, empty)?)
        }
        _ => Err(Stop::Bad(left)),
    }
}

/// Behind a comma in an object, where no name begins.
#[inline(always)]
pub fn at_name(
    stack: Stack<Frame>,
    members: List<Member>,
    class: Class,
    left: usize,
) -> Result<State, Stop>
    requires { class ≢ Class.Quote }
    ensures { Steps left result (spec.at_name stack members class) }
{
    match class {
        Class::Blank => Ok(State {
            stack,
            mode: Mode::Name(members),
        }),
        _ => Err(Stop::Bad(left)),
    }
}

#[inline(always)]
pub fn at_colon(
    stack: Stack<Frame>,
    members: List<Member>,
    name: Text,
    class: Class,
    left: usize,
) -> Result<State, Stop>
    ensures { Steps left result (spec.at_colon stack members name class) }
{
    match class {
        Class::Blank => Ok(State {
            stack,
            mode: Mode::Colon(members, name),
        }),
        Class::Colon => {
            let stack = stack.push(Frame::Member(members, name))?;
            Ok(State {
                stack,
                mode: Mode::Value,
            })
        }
        _ => Err(Stop::Bad(left)),
    }
}

#[inline(always)]
pub fn after_member(
    stack: Stack<Frame>,
    members: List<Member>,
    class: Class,
    left: usize,
) -> Result<State, Stop>
    ensures { Steps left result (spec.after_member stack members class) }
{
    match class {
        Class::Blank => Ok(State {
            stack,
            mode: Mode::AfterMember(members),
        }),
        Class::Comma => Ok(State {
            stack,
            mode: Mode::Name(members),
        }),
        Class::RightBrace => Ok(completed(stack, Json::Object(members))?),
        _ => Err(Stop::Bad(left)),
    }
}

#[inline(always)]
pub fn after_all(stack: Stack<Frame>, tree: Json, class: Class, left: usize) -> Result<State, Stop>
    ensures { Steps left result (spec.after_all stack tree class) }
{
    match class {
        Class::Blank => Ok(State {
            stack,
            mode: Mode::Done(tree),
        }),
        _ => Err(Stop::Bad(left)),
    }
}
