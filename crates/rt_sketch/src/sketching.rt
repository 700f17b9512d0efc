ghost use Rattle.std.specs.Prelude.{◌≡◌, ◌∷◌, IfOk, MatchOption};
ghost use Rattle.rt_policy.specs.Machine.{tested_of};
ghost use Rattle.rt_sketch.specs.Heights.{higher};
ghost use Rattle.rt_sketch.specs.Sketch as spec;
ghost use Rattle.rt_sketch.specs.Sketched.{Draws, NoNot};

use crate::sketch::{Around, Fence, Place, Sketch, Stage, Stopped};
use rt_lexeme::tested_of;
use rt_policy::stack::Stack;
use rt_policy::words::{Class, Sign, Word};
use std::alloc::{AllocError, Global};

fn higher(height: u8) -> u8
    ensures { result ≡ higher height }
{
    if height < 31 { height + 1 } else { 32 }
}

/// An operand is read.
pub fn given(around: Around, place: Place, height: u8) -> Sketch
    ensures { result ≡ spec.given around place height }
{
    let stage = match place {
        Place::First => Stage::Operand(height),
        Place::Right(a) => Stage::Related(a.max(height)),
        Place::Item(a, n) => Stage::Items(a, n.max(height)),
    };
    Sketch { around, stage }
}

fn close(around: Around, place: Place, height: u8, class: Option<Class>) -> Result<Sketch, Stopped>
    ensures { Draws result (spec.close (spec.given around place height) class) }
{
    match class {
        Some(Class::Sign(Sign::Close)) => Ok(given(around, place, height)),
        _ => Err(Stopped::Bad),
    }
}

/// An expression is read.
fn closed(
    fences: Stack<Fence>,
    inside: bool,
    height: u8,
    class: Option<Class>,
) -> Result<Sketch, Stopped>
    ensures { Draws result (spec.closed fences inside height class) }
{
    let mut fences = fences;
    match fences.pop() {
        None => Err(Stopped::End(height)),
        Some(Fence::Not(_)) => Err(Stopped::Bad),
        Some(Fence::Group(level, place)) => {
            let around = around_of(fences, inside, level);
            close(around, place, higher(height), class)
        }
        Some(Fence::Where(level, place, before)) => {
            let around = around_of(fences, before, level);
            close(around, place, higher(height), class)
        }
    }
}

pub fn around_of(fences: Stack<Fence>, inside: bool, level: u8) -> Around
    ensures { result ≡ spec.around fences inside level }
{
    Around {
        fences,
        inside,
        level,
    }
}

pub fn wanting(around: Around, place: Place) -> Sketch
    ensures { result ≡ spec.sketch around (Stage.Want place) }
{
    Sketch {
        around,
        stage: Stage::Want(place),
    }
}

/// What NOT may stand before is read, the level's height being the greatest.
fn after_negation(around: Around, class: Option<Class>) -> Result<Sketch, Stopped>
    ensures { Draws result (spec.after_negation around class) }
{
    match class {
        Some(Class::Word(Word::And)) => Ok(wanting(around, Place::First)),
        Some(Class::Word(Word::Or)) => Ok(wanting(around, Place::First)),
        _ => closed(around.fences, around.inside, around.level, class),
    }
}

pub struct Below {
    fences: Stack<Fence>,
    level: u8,
    height: u8,
}

/// The level behind a NOT that waits.
fn waiting(fences: Stack<Fence>) -> Result<(Stack<Fence>, Option<u8>), AllocError>
    ensures { IfOk result (λ r. MatchOption r.1 ((r.0 ≡ fences) × NoNot fences)
        (λ l. fences ≡ Fence.Not l ∷ r.0)) }
{
    let mut fences = fences;
    match fences.pop() {
        None => Ok((fences, None)),
        Some(Fence::Not(level)) => Ok((fences, Some(level))),
        Some(fence) => Ok((fences.push(fence)?, None)),
    }
}

/// With the NOTs before it.
fn negated(fences: Stack<Fence>, level: u8, height: u8) -> Result<Below, AllocError>
    ensures { IfOk result (λ n. spec.negated fences level height ≡
        record { fences = n.fences; level = n.level; height = n.height }) }
{
    let mut now = Below {
        fences,
        level,
        height,
    };
    loop {
        let Below {
            fences,
            level,
            height,
        } = now;
        let (fences, outer) = waiting(fences)?;
        match outer {
            None => {
                return Ok(Below {
                    fences,
                    level,
                    height,
                });
            }
            Some(outer) => {
                now = Below {
                    fences,
                    level: outer,
                    height: higher(height),
                };
            }
        }
    }
}

pub fn after_test(around: Around, height: u8, class: Option<Class>) -> Result<Sketch, Stopped>
    ensures { Draws result (spec.after_test around height class) }
{
    let inside = around.inside;
    let Below {
        fences,
        level,
        height,
    } = negated(around.fences, around.level, height)?;
    after_negation(around_of(fences, inside, level.max(height)), class)
}

pub fn after_related(around: Around, height: u8, class: Option<Class>) -> Result<Sketch, Stopped>
    ensures { Draws result (spec.after_related around height class) }
{
    match class {
        Some(Class::Word(Word::Is)) => Ok(Sketch {
            around,
            stage: Stage::Is(height),
        }),
        _ => after_test(around, height, class),
    }
}

pub fn after_operand(around: Around, height: u8, class: Option<Class>) -> Result<Sketch, Stopped>
    ensures { Draws result (spec.after_operand around height class) }
{
    let stage = match class {
        Some(Class::Compared(_)) => Stage::Want(Place::Right(height)),
        Some(Class::Word(Word::In)) => Stage::In(height),
        Some(Class::Word(Word::Not)) => Stage::NotIn(height),
        _ => return after_related(around, height, class),
    };
    Ok(Sketch { around, stage })
}

pub fn after_item(
    around: Around,
    side: u8,
    items: u8,
    class: Option<Class>,
) -> Result<Sketch, Stopped>
    ensures { Draws result (spec.after_item around side items class) }
{
    let stage = match class {
        Some(Class::Sign(Sign::Comma)) => Stage::Want(Place::Item(side, items)),
        Some(Class::Sign(Sign::Close)) => Stage::Related(side.max(higher(items))),
        _ => return Err(Stopped::Bad),
    };
    Ok(Sketch { around, stage })
}

/// An operand is read, which ends before the token.
pub fn over(around: Around, place: Place, class: Option<Class>) -> Result<Sketch, Stopped>
    ensures { Draws result (spec.over around place class) }
{
    match place {
        Place::First => after_operand(around, 0, class),
        Place::Right(a) => after_related(around, a, class),
        Place::Item(a, n) => after_item(around, a, n, class),
    }
}

pub fn tests(around: Around, height: u8, class: Option<Class>) -> Result<Sketch, Stopped>
    ensures { Draws result (spec.tests around height (tested_of class)) }
{
    match tested_of(class) {
        None => Err(Stopped::Bad),
        Some(_) => Ok(Sketch {
            around,
            stage: Stage::Tested(height),
        }),
    }
}
