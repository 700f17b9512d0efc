ghost use Rattle.std.specs.Prelude.{◌≡◌, ◌↔◌, ◌<◌, ◌≤◌, ℕ, List, [], Some, IfOk, IfErr, length, slice_index};
ghost use Rattle.rt_json.specs.Machine as spec;
ghost use Rattle.rt_json.specs.States.{Advances, Gives, state as state_of};
ghost use Rattle.rt_json.specs.Answers.{IsFaultOf, IsTree, IsBad, IsTooDeep, IsComputed, HasAnswer};
ghost use Rattle.rt_json.specs.Grammar.{IsJson, IsBadAt, IsTooDeepAt};
ghost use Rattle.rt_json.specs.Machine.{tree_of};
ghost use Rattle.rt_json.specs.declared.tree.Json.{Json};

use crate::bytes::{Class, class_of};
use crate::fault::JsonFault;
use crate::scalar::{number, word};
use crate::scan::past_blanks;
use crate::stack::Stack;
use crate::state::{
    Frame, Mode, State, after_all, after_item, after_member, at_colon, at_first_name, at_name,
    completed, opened,
};
use crate::stop::Stop;
use crate::text::text;
use crate::tree::Json;
use crate::tree::named::Member;
use rt_value::List;
use std::alloc::Global;

/// A value or a blank, where a value is wanted.
#[inline(always)]
fn value(
    alloc: Global,
    stack: Stack<Frame>,
    bytes: &[u8],
    at: usize,
    class: Class,
) -> Result<(State, usize), Stop>
    requires within { at < length bytes.now }
    requires class { spec.class_of (slice_index bytes.now at) ≡ class }
    ensures { Advances bytes.now at (spec.outside stack Mode.Value) result }
{
    match class {
        Class::Blank => Ok((
            State {
                stack,
                mode: Mode::Value,
            },
            at + 1,
        )),
        Class::Quote => {
            let (text, to) = text(alloc, bytes, at + 1)?;
            Ok((completed(stack, Json::Text(text))?, to))
        }
        Class::NumberStart(digits) => {
            let (tree, to) = number(alloc, bytes, at, digits)?;
            Ok((completed(stack, tree)?, to))
        }
        Class::WordStart(which) => {
            let (tree, to) = word(bytes, at, which)?;
            Ok((completed(stack, tree)?, to))
        }
        Class::LeftBracket => Ok((opened(stack, Mode::FirstItem, bytes.len() - at)?, at + 1)),
        Class::LeftBrace => Ok((opened(stack, Mode::FirstName, bytes.len() - at)?, at + 1)),
        _ => Err(Stop::Bad(bytes.len() - at)),
    }
}

/// A first item, the end of an empty list or a blank.
#[inline(always)]
fn first_item(
    alloc: Global,
    stack: Stack<Frame>,
    bytes: &[u8],
    at: usize,
    class: Class,
) -> Result<(State, usize), Stop>
    requires within { at < length bytes.now }
    requires class { spec.class_of (slice_index bytes.now at) ≡ class }
    ensures { Advances bytes.now at (spec.outside stack Mode.FirstItem) result }
{
    let items = List::new(Vec::new(alloc));
    match class {
        Class::Blank => Ok((
            State {
                stack,
                mode: Mode::FirstItem,
            },
            at + 1,
        )),
        Class::RightBracket => Ok((completed(stack, Json::List(items))?, at + 1)),
        _ => {
            let stack = stack.push(Frame::Item(items))?;
            value(alloc, stack, bytes, at, class)
        }
    }
}

/// The rest of a name behind its opening quote.
#[inline(always)]
fn name(
    alloc: Global,
    stack: Stack<Frame>,
    members: List<Member>,
    bytes: &[u8],
    at: usize,
) -> Result<(State, usize), Stop>
    requires { at ≤ length bytes.now }
    ensures { Advances bytes.now at (spec.in_text stack (spec.as_name members) [] spec.between) result }
{
    let (name, to) = text(alloc, bytes, at)?;
    let mode = Mode::Colon(members, name);
    Ok((State { stack, mode }, to))
}

/// Behind `{`.
#[inline(always)]
fn first_name(
    alloc: Global,
    stack: Stack<Frame>,
    bytes: &[u8],
    at: usize,
    class: Class,
) -> Result<(State, usize), Stop>
    requires within { at < length bytes.now }
    requires class { spec.class_of (slice_index bytes.now at) ≡ class }
    ensures { Advances bytes.now at (spec.outside stack Mode.FirstName) result }
{
    match class {
        Class::Quote => name(alloc, stack, List::new(Vec::new(alloc)), bytes, at + 1),
        _ => {
            let state = at_first_name(alloc, stack, class, bytes.len() - at)?;
            Ok((state, at + 1))
        }
    }
}

/// Behind a comma in an object.
#[inline(always)]
fn next_name(
    alloc: Global,
    stack: Stack<Frame>,
    members: List<Member>,
    bytes: &[u8],
    at: usize,
    class: Class,
) -> Result<(State, usize), Stop>
    requires within { at < length bytes.now }
    requires class { spec.class_of (slice_index bytes.now at) ≡ class }
    ensures { Advances bytes.now at (spec.outside stack (Mode.Name members)) result }
{
    match class {
        Class::Quote => name(alloc, stack, members, bytes, at + 1),
        _ => {
            let state = at_name(stack, members, class, bytes.len() - at)?;
            Ok((state, at + 1))
        }
    }
}

/// Goes on from a state: over a byte, or over a word, a number or a text.
#[inline(always)]
fn advance(alloc: Global, state: State, bytes: &[u8], at: usize) -> Result<(State, usize), Stop>
    requires { at < length bytes.now }
    ensures { Advances bytes.now at (state_of state) result }
{
    let class = class_of(bytes[at]);
    let left = bytes.len() - at;
    let State { stack, mode } = state;
    let next = match mode {
        Mode::Value => return value(alloc, stack, bytes, at, class),
        Mode::FirstItem => return first_item(alloc, stack, bytes, at, class),
        Mode::FirstName => return first_name(alloc, stack, bytes, at, class),
        Mode::Name(members) => return next_name(alloc, stack, members, bytes, at, class),
        Mode::AfterItem(items) => after_item(stack, items, class, left),
        Mode::Colon(members, name) => at_colon(stack, members, name, class, left),
        Mode::AfterMember(members) => after_member(stack, members, class, left),
        Mode::Done(tree) => after_all(stack, tree, class, left),
    };
    match next {
        Ok(state) => Ok((state, at + 1)),
        Err(stop) => Err(stop),
    }
}

/// The tree, if the text may end in the state.
#[inline(always)]
fn finished(state: State) -> Result<Json, Stop>
    ensures { Gives result (spec.finished (spec.end_step (state_of state))) }
{
    let State { stack: _, mode } = state;
    match mode {
        Mode::Done(tree) => Ok(tree),
        _ => Err(Stop::Bad(0)),
    }
}

fn tree(alloc: Global, bytes: &[u8]) -> Result<Json, Stop>
    ensures { Gives result (spec.outcome spec.start bytes.now) }
{
    let mut state = State {
        stack: Stack::new(alloc),
        mode: Mode::Value,
    };
    let mut at = 0;
    loop {
        at = past_blanks(bytes, at);
        if at == bytes.len() {
            return finished(state);
        }
        match advance(alloc, state, bytes, at) {
            Ok((next, to)) => {
                state = next;
                at = to;
            }
            Err(stop) => return Err(stop),
        }
    }
}

/// The tree of a JSON text: one value with blanks around it, in UTF-8, whose lists and objects nest in at most 64
/// levels (RFC 8259).
///
/// Fails with `Bad` where the bytes up to its place begin no value and with `TooDeep` where a list or an object of
/// depth 65 begins, whichever comes first, or for want of memory.
pub fn read(alloc: Global, bytes: &[u8]) -> Result<Json, JsonFault>
    // What is read is in the grammar, and the place of a fault is that of the grammar.
    ensures found { IfOk result (λ tree. IsJson bytes.now tree) }
    ensures fault { IfErr result (λ fault. IsFaultOf bytes.now fault) }

    // What is in the grammar is read, and a fault that is there is told, unless memory runs out.
    ensures only { (tree : Json) → IsJson bytes.now tree → IsTree result tree }
    ensures bad { (at : ℕ) → IsBadAt bytes.now at → IsBad result at }
    ensures deep { (at : ℕ) → IsTooDeepAt bytes.now at → IsTooDeep result at }

    // The function that computes the tree agrees.
    ensures computed { IsComputed (tree_of bytes.now) result }
{
    match tree(alloc, bytes) {
        Ok(tree) => Ok(tree),
        Err(Stop::Bad(left)) => Err(JsonFault::Bad {
            at: bytes.len() - left,
        }),
        Err(Stop::TooDeep(left)) => Err(JsonFault::TooDeep {
            at: bytes.len() - left,
        }),
        Err(Stop::NoMemory) => Err(JsonFault::NoMemory),
    }
}

/// Bytes are one tree at most, and the function that computes it gives it.
pub fn one_tree()
    ensures one { (bytes : List ℕ) (a b : Json) → IsJson bytes a → IsJson bytes b → a ≡ b }
    ensures computed { (bytes : List ℕ) (tree : Json) → IsJson bytes tree ↔ (tree_of bytes ≡ Some tree) }
{}

/// Bytes that are no tree have one fault at one place.
pub fn one_fault()
    ensures bad { (bytes : List ℕ) (a b : ℕ) → IsBadAt bytes a → IsBadAt bytes b → a ≡ b }
    ensures deep { (bytes : List ℕ) (a b : ℕ) → IsTooDeepAt bytes a → IsTooDeepAt bytes b → a ≡ b }
    ensures either { (bytes : List ℕ) (a b : ℕ) → IsBadAt bytes a → IsTooDeepAt bytes b → ⊥ }
    ensures bad_no_tree { (bytes : List ℕ) (a : ℕ) (tree : Json) → IsBadAt bytes a → IsJson bytes tree → ⊥ }
    ensures deep_no_tree { (bytes : List ℕ) (a : ℕ) (tree : Json) → IsTooDeepAt bytes a → IsJson bytes tree → ⊥ }
    ensures some { (bytes : List ℕ) → HasAnswer bytes }
{}
