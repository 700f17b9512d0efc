ghost use Rattle.std.specs.Prelude.{◌≡◌, All, Some};
ghost use Rattle.rt_value.specs.Places.{run as run_of};
ghost use Rattle.rt_sql.specs.Lexeme.{IsTokenOf, lexeme_of, lexemes};
ghost use Rattle.rt_policy.specs.Machine as spec;
ghost use Rattle.rt_tree.specs.Answers.{Advances, Ran, Built};

use crate::steps::{start, step};
use rt_lexeme::{at_end, at_token};
use rt_policy::building::{Frame, Level, Mode, Slot, State, Stop};
use rt_policy::part::Part;
use rt_policy::stack::Stack;
use rt_policy::{Expr, ExprFault};
use rt_sql::Token;
use std::alloc::Global;

/// Why reading goes no further, with the number of the token.
#[derive(Drop)]
pub enum Halt {
    NoMemory,
    /// The expression ends before the token.
    End(Expr, usize),
    Bad(usize),
}

fn advanced(alloc: Global, text: &str, state: State, token: Token, n: usize) -> Result<State, Halt>
    requires { IsTokenOf text.now token }
    ensures { Advances n result (spec.step state (Some (lexeme_of text.now token))) }
{
    match step(alloc, text, state, at_token(text, token)) {
        Ok(state) => Ok(state),
        Err(Stop::End(tree)) => Err(Halt::End(tree, n)),
        Err(Stop::Bad) => Err(Halt::Bad(n)),
        Err(Stop::NoMemory) => Err(Halt::NoMemory),
    }
}

fn run(alloc: Global, text: &str, tokens: &[Token]) -> Result<State, Halt>
    requires { All (IsTokenOf text.now) tokens.now }
    ensures { Ran (lexemes text.now tokens.now) result }
{
    let mut state = start(alloc);
    for (n, token) in tokens.iter().enumerate() {
        match advanced(alloc, text, state, *token, n) {
            Ok(after) => state = after,
            Err(halt) => return Err(halt),
        }
    }
    Ok(state)
}

fn discard_slot(_: Slot) {}

fn discard_level(_: Level) {}

fn discard_part(_: Part) {}

fn discard_stack(_: Stack<Frame>) {}

fn discard_expr(_: Expr) {}

fn discard_mode(mode: Mode) {
    match mode {
        Mode::Want(slot) | Mode::Opened(slot) => discard_slot(slot),
        Mode::Within(slot, part) => {
            discard_slot(slot);
            discard_part(part);
        }
        Mode::Operand(e)
        | Mode::Related(e)
        | Mode::Tested(e)
        | Mode::NotIn(e)
        | Mode::In(_, e)
        | Mode::Is(e)
        | Mode::IsNot(e) => discard_expr(e),
        Mode::Items(_, e, _items) => discard_expr(e),
    }
}

fn discard(state: State) {
    let State { stack, level, mode } = state;
    discard_stack(stack);
    discard_level(level);
    discard_mode(mode);
}

#[tactic(none)]
fn finished(
    alloc: Global,
    text: &str,
    state: State,
    tokens: &[Token],
) -> Result<(Expr, usize), ExprFault>
    requires { run_of spec.step (lexemes text.now tokens.now) spec.start ≡ Some state }
    ensures { Built (lexemes text.now tokens.now) result }
{
    match step(alloc, text, state, at_end(text)) {
        Err(Stop::End(tree)) => Ok((tree, tokens.len())),
        Err(Stop::NoMemory) => Err(ExprFault::NoMemory),
        Ok(state) => {
            discard(state);
            Err(ExprFault::BadExpr { at: tokens.len() })
        }
        Err(Stop::Bad) => Err(ExprFault::BadExpr { at: tokens.len() }),
    }
}

/// The expression that the tokens of a text begin, and the number of the token that it ends before.
/// `BadExpr` is the first token that can't go on, and `NoMemory` the only other fault. The tree may
/// be of any depth, and so take as much of the stack when it is dropped.
#[tactic(none)]
pub fn built(alloc: Global, text: &str, tokens: &[Token]) -> Result<(Expr, usize), ExprFault>
    requires { All (IsTokenOf text.now) tokens.now }
    ensures { Built (lexemes text.now tokens.now) result }
{
    match run(alloc, text, tokens) {
        Ok(state) => finished(alloc, text, state, tokens),
        Err(Halt::End(tree, n)) => Ok((tree, n)),
        Err(Halt::Bad(n)) => Err(ExprFault::BadExpr { at: n }),
        Err(Halt::NoMemory) => Err(ExprFault::NoMemory),
    }
}
