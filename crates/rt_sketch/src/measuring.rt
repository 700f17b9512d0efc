ghost use Rattle.std.specs.Prelude.{◌≡◌, All, Some};
ghost use Rattle.rt_sql.specs.Lexeme.{IsTokenOf, lexeme_of, lexemes};
ghost use Rattle.rt_sketch.specs.Sketch as spec;
ghost use Rattle.rt_sketch.specs.Recognized.{Draws, Follows, Halts, Ran};

use crate::recognizing::{sketch_start, sketch_step};
use crate::sketch::{Sketch, Stopped};
use rt_lexeme::{at_end, at_token};
use rt_sql::Token;
use std::alloc::Global;

/// Where an expression ends, or why none does.
#[derive(Clone, Copy)]
pub enum Halted {
    NoMemory,
    /// The expression ends before the token of this number. Its operands are in so many that
    /// enclose them at most, counted up to 32.
    End(usize, u8),
    /// The token of this number can't go on.
    Bad(usize),
}

fn drawn(
    alloc: Global,
    text: &str,
    sketch: Sketch,
    token: Token,
    n: usize,
) -> Result<Sketch, Halted>
    requires { IsTokenOf text.now token }
    ensures { Draws n result (spec.step sketch (Some (lexeme_of text.now token))) }
{
    match sketch_step(alloc, text, sketch, at_token(text, token)) {
        Ok(sketch) => Ok(sketch),
        Err(Stopped::End(height)) => Err(Halted::End(n, height)),
        Err(Stopped::Bad) => Err(Halted::Bad(n)),
        Err(Stopped::NoMemory) => Err(Halted::NoMemory),
    }
}

fn recognized(alloc: Global, text: &str, tokens: &[Token]) -> Result<Sketch, Halted>
    requires { All (IsTokenOf text.now) tokens.now }
    ensures { Ran (lexemes text.now tokens.now) result }
{
    let mut sketch = sketch_start(alloc);
    for (n, token) in tokens.iter().enumerate() {
        match drawn(alloc, text, sketch, *token, n) {
            Ok(after) => sketch = after,
            Err(halted) => return Err(halted),
        }
    }
    Ok(sketch)
}

fn discard(_: Sketch) {}

#[tactic(none)]
fn ended(alloc: Global, text: &str, sketch: Sketch, tokens: &[Token]) -> Halted
    requires { Follows (lexemes text.now tokens.now) sketch }
    ensures { Halts (lexemes text.now tokens.now) result }
{
    match sketch_step(alloc, text, sketch, at_end(text)) {
        Err(Stopped::End(height)) => Halted::End(tokens.len(), height),
        Err(Stopped::NoMemory) => Halted::NoMemory,
        Ok(sketch) => {
            discard(sketch);
            Halted::Bad(tokens.len())
        }
        Err(Stopped::Bad) => Halted::Bad(tokens.len()),
    }
}

/// Where the expression ends that the tokens of a text begin, and how deep it is, or the first
/// token that can't go on.
#[tactic(none)]
pub fn measured(alloc: Global, text: &str, tokens: &[Token]) -> Halted
    requires { All (IsTokenOf text.now) tokens.now }
    ensures { Halts (lexemes text.now tokens.now) result }
{
    match recognized(alloc, text, tokens) {
        Ok(sketch) => ended(alloc, text, sketch, tokens),
        Err(halted) => halted,
    }
}
