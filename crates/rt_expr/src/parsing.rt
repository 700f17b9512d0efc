ghost use Rattle.std.specs.Prelude.{◌≡◌, ℕ, ◌+◌, ◌-◌, ◌≤◌, All, length, drop, take};
ghost use Rattle.rt_sql.specs.Lexeme.{IsTokenOf, lexemes};
ghost use Rattle.rt_policy.specs.Parse.{Parses, Reads, Fails};
ghost use Rattle.rt_policy.specs.declared.expr.Expr.{Expr as Written};
ghost use Rattle.rt_expr.specs.Tells.{Tells, Blames, Answers, Deep, Shallow};

use rt_lexeme::any_long;
use rt_policy::{Expr, ExprFault};
use rt_sketch::{Halted, measured};
use rt_sql::Token;
use rt_tree::built;
use std::alloc::Global;

/// The tokens from one place on.
fn behind(tokens: &[Token], from: usize) -> &[Token]
    ensures { result.now ≡ drop from tokens.now }
{
    let start = from.min(tokens.len());
    &tokens[start..]
}

/// The tokens before one.
fn before(tokens: &[Token], to: usize) -> &[Token]
    requires { to ≤ length tokens.now }
    ensures { result.now ≡ take to tokens.now }
{
    &tokens[..to]
}

/// The fault of an expression that is too deep and ends before the token of this number.
#[tactic(auto, using(crate::proofs::Answered::front_of_text))]
fn too_deep(
    alloc: Global,
    text: &str,
    tokens: &[Token],
    to: usize,
) -> Result<(Expr, usize), ExprFault>
    requires of_text { All (IsTokenOf text.now) tokens.now }
    requires deep { Deep (lexemes text.now tokens.now) to }
    requires within { to ≤ length tokens.now }
    ensures { Answers (lexemes text.now tokens.now) result }
{
    let long_name = any_long(alloc, text, before(tokens, to))?;
    Err(ExprFault::TooDeep { to, long_name })
}

/// An expression that isn't too deep.
#[tactic(auto, using(crate::proofs::Answered::built_shallow))]
fn shallow(alloc: Global, text: &str, tokens: &[Token]) -> Result<(Expr, usize), ExprFault>
    requires of_text { All (IsTokenOf text.now) tokens.now }
    requires shallow { Shallow (lexemes text.now tokens.now) }
    ensures { Answers (lexemes text.now tokens.now) result }
{
    built(alloc, text, tokens)
}

/// The answer to tokens from their first on.
#[tactic(auto, using(crate::proofs::Answered::ends_shallow, crate::proofs::Answered::ends_deep, crate::proofs::Answered::ends_within,))]
fn answer(alloc: Global, text: &str, tokens: &[Token]) -> Result<(Expr, usize), ExprFault>
    requires { All (IsTokenOf text.now) tokens.now }
    ensures { Answers (lexemes text.now tokens.now) result }
{
    match measured(alloc, text, tokens) {
        Halted::NoMemory => Err(ExprFault::NoMemory),
        Halted::Bad(at) => Err(ExprFault::BadExpr { at }),
        Halted::End(to, height) => {
            if height < 32 {
                shallow(alloc, text, tokens)
            } else {
                too_deep(alloc, text, tokens, to)
            }
        }
    }
}

/// The answer to the tokens from one place on, with the places counted from there.
#[tactic(auto, using(crate::proofs::Answered::rest_answer, crate::proofs::Answered::rest_of_text))]
fn answer_behind(
    alloc: Global,
    text: &str,
    tokens: &[Token],
    from: usize,
) -> Result<(Expr, usize), ExprFault>
    requires { All (IsTokenOf text.now) tokens.now }
    ensures { Answers (lexemes text.now (drop from tokens.now)) result }
{
    answer(alloc, text, behind(tokens, from))
}

/// The token of this number behind a place.
fn shifted(tokens: &[Token], from: usize, n: usize) -> usize
    requires { n ≤ length tokens.now - from }
    ensures { result ≡ from + n }
{
    let _ = tokens.len();
    from + n
}

#[tactic(auto, using(crate::proofs::Answered::found_room, crate::proofs::Answered::bad_room, crate::proofs::Answered::deep_room,))]
fn placed(
    alloc: Global,
    text: &str,
    tokens: &[Token],
    from: usize,
) -> Result<(Expr, usize), ExprFault>
    requires { All (IsTokenOf text.now) tokens.now }
    ensures { Parses (lexemes text.now tokens.now) from result }
{
    match answer_behind(alloc, text, tokens, from) {
        Ok((tree, n)) => Ok((tree, shifted(tokens, from, n))),
        Err(ExprFault::BadExpr { at: n }) => {
            let at = shifted(tokens, from, n);
            Err(ExprFault::BadExpr { at })
        }
        Err(ExprFault::TooDeep { to: n, long_name }) => {
            let to = shifted(tokens, from, n);
            Err(ExprFault::TooDeep { to, long_name })
        }
        Err(_) => Err(ExprFault::NoMemory),
    }
}

/// Reads the expression that the tokens of a text begin from one place on, a number of tokens, and
/// answers it with the place behind it. `BadExpr` is the first token that can't go on, and
/// `TooDeep` an expression of a depth over 32, whose end is told, and whether a name in it is
/// longer than 63 bytes. Any depth takes a few bytes a token and no more of the stack.
#[tactic(auto, using(crate::proofs::Parsed::only, crate::proofs::Parsed::fails))]
pub fn parse(
    alloc: Global,
    text: &str,
    tokens: &[Token],
    from: usize,
) -> Result<(Expr, usize), ExprFault>
    requires { All (IsTokenOf text.now) tokens.now }
    ensures answer { Parses (lexemes text.now tokens.now) from result }
    // Want of memory aside, the right answer is the only one.
    ensures only { (e : Written) (to : ℕ) → Reads (lexemes text.now tokens.now) from e to →
        Tells e to result }
    ensures fails { (at : ℕ) → Fails (lexemes text.now tokens.now) from at → Blames at result }
{
    placed(alloc, text, tokens, from)
}
