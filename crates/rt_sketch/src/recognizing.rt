ghost use Rattle.std.specs.Prelude.{◌≡◌, ◌∷◌, [], true, false, IfSome, Some};
ghost use Rattle.rt_sql.specs.Lexeme.{Lexeme};
ghost use Rattle.rt_policy.specs.Parts as parts;
ghost use Rattle.rt_lexeme.specs.Look.{IsLook, lexeme_in, seen_in};
ghost use Rattle.rt_operand.specs.Plain.{is_plain};
ghost use Rattle.rt_sketch.specs.Sketch as spec;
ghost use Rattle.rt_sketch.specs.Sketched.{Draws};

use crate::sketch::{Around, Fence, Place, Sketch, Stage, Stopped};
use crate::sketching::{
    after_item, after_operand, after_related, after_test, around_of, given, over, tests, wanting,
};
use rt_lexeme::Look;
use rt_operand::{begin, existing, is_plain, is_select, part_moved, selecting};
use rt_policy::Expr;
use rt_policy::part::{Moved, Part, Source};
use rt_policy::stack::Stack;
use rt_policy::words::{Class, Sign, Word};
use std::alloc::Global;

fn opened(fences: Stack<Fence>, inside: bool, fence: Fence) -> Result<Sketch, Stopped>
    ensures { Draws result
        (spec.wanting (spec.around (fence ∷ fences) inside 0) Place.First) }
{
    let fences = fences.push(fence)?;
    Ok(wanting(around_of(fences, inside, 0), Place::First))
}

fn within(around: Around, place: Place, part: Part) -> Sketch
    ensures { result ≡ spec.sketch around (Stage.Within place part) }
{
    Sketch {
        around,
        stage: Stage::Within(place, part),
    }
}

fn condition(around: Around, place: Place) -> Result<Sketch, Stopped>
    ensures { Draws result (spec.condition around place) }
{
    let Around {
        fences,
        inside,
        level,
    } = around;
    if inside {
        Err(Stopped::Bad)
    } else {
        opened(fences, true, Fence::Where(level, place, inside))
    }
}

fn discard(_: Expr) {}

fn discard_source(_: Source) {}

fn moved_to(
    around: Around,
    place: Place,
    moved: Moved,
    class: Option<Class>,
) -> Result<Sketch, Stopped>
    ensures { Draws result (spec.moved_to around place moved class) }
{
    match moved {
        Moved::More(part) => Ok(within(around, place, part)),
        Moved::Done(e) => {
            discard(e);
            Ok(given(around, place, 0))
        }
        Moved::Over(e) => {
            discard(e);
            over(around, place, class)
        }
        Moved::Condition(source) => {
            discard_source(source);
            condition(around, place)
        }
        Moved::Bad => Err(Stopped::Bad),
    }
}

fn want_not(around: Around, place: Place) -> Result<Sketch, Stopped>
    ensures { Draws result (spec.want_not around place) }
{
    match place {
        Place::First => opened(around.fences, around.inside, Fence::Not(around.level)),
        _ => Err(Stopped::Bad),
    }
}

fn begun(around: Around, place: Place, part: Option<Part>) -> Result<Sketch, Stopped>
    ensures { Draws result (spec.begun around place part) }
{
    match part {
        Some(part) => Ok(within(around, place, part)),
        None => Err(Stopped::Bad),
    }
}

/// The first token of a part.
fn want_plain(
    alloc: Global,
    text: &str,
    around: Around,
    place: Place,
    class: Class,
    look: Look,
) -> Result<Sketch, Stopped>
    requires look { IsLook text.now look }
    requires class { look.class ≡ Some class }
    ensures { Draws result
        (spec.begun around place (parts.begin class (lexeme_in text.now look))) }
{
    let part = begin(alloc, text, class, look)?;
    begun(around, place, part)
}

/// A token that opens more, or none.
fn want_marked(around: Around, place: Place, class: Option<Class>) -> Result<Sketch, Stopped>
    requires { IfSome class (λ c. is_plain c ≡ false) }
    ensures { (x : Lexeme) → Draws result (spec.want around place class x) }
{
    match class {
        Some(Class::Sign(Sign::Open)) => Ok(Sketch {
            around,
            stage: Stage::Opened(place),
        }),
        Some(Class::Word(Word::Not)) => want_not(around, place),
        Some(Class::Word(Word::Exists)) => {
            if around.inside {
                Err(Stopped::Bad)
            } else {
                Ok(within(around, place, existing()))
            }
        }
        _ => Err(Stopped::Bad),
    }
}

/// An operand's first token.
fn want(
    alloc: Global,
    text: &str,
    around: Around,
    place: Place,
    look: Look,
) -> Result<Sketch, Stopped>
    requires { IsLook text.now look }
    ensures { Draws result (spec.want around place look.class (lexeme_in text.now look)) }
{
    match look.class {
        None => want_marked(around, place, None),
        Some(class) => {
            if is_plain(class) {
                want_plain(alloc, text, around, place, class, look)
            } else {
                want_marked(around, place, Some(class))
            }
        }
    }
}

/// Behind a parenthesis where an operand begins.
fn after_open(
    alloc: Global,
    text: &str,
    around: Around,
    place: Place,
    look: Look,
) -> Result<Sketch, Stopped>
    requires { IsLook text.now look }
    ensures { Draws result
        (spec.after_open around place look.class (lexeme_in text.now look)) }
{
    if is_select(look.class) {
        Ok(within(around, place, selecting()))
    } else {
        let inside = around.inside;
        let fences = around.fences.push(Fence::Group(around.level, place))?;
        want(
            alloc,
            text,
            around_of(fences, inside, 0),
            Place::First,
            look,
        )
    }
}

fn after_is(around: Around, height: u8, class: Option<Class>) -> Result<Sketch, Stopped>
    ensures { Draws result (spec.after_is around height class) }
{
    match class {
        Some(Class::Word(Word::Not)) => Ok(Sketch {
            around,
            stage: Stage::IsNot(height),
        }),
        _ => tests(around, height, class),
    }
}

fn after_not(around: Around, height: u8, class: Option<Class>) -> Result<Sketch, Stopped>
    ensures { Draws result (spec.after_not around height class) }
{
    match class {
        Some(Class::Word(Word::In)) => Ok(Sketch {
            around,
            stage: Stage::In(height),
        }),
        _ => Err(Stopped::Bad),
    }
}

fn after_in(around: Around, height: u8, class: Option<Class>) -> Result<Sketch, Stopped>
    ensures { Draws result (spec.after_in around height class) }
{
    match class {
        Some(Class::Sign(Sign::Open)) => Ok(wanting(around, Place::Item(height, 0))),
        _ => Err(Stopped::Bad),
    }
}

/// Reads one token, or the end.
pub fn sketch_step(alloc: Global, text: &str, sketch: Sketch, look: Look) -> Result<Sketch, Stopped>
    requires { IsLook text.now look }
    ensures { Draws result (spec.step sketch (seen_in text.now look)) }
{
    let Sketch { around, stage } = sketch;
    let class = look.class;
    match stage {
        Stage::Want(place) => want(alloc, text, around, place, look),
        Stage::Opened(place) => after_open(alloc, text, around, place, look),
        Stage::Within(place, part) => {
            let moved = part_moved(alloc, text, part, look)?;
            moved_to(around, place, moved, class)
        }
        Stage::Operand(height) => after_operand(around, height, class),
        Stage::Related(height) => after_related(around, height, class),
        Stage::Tested(height) => after_test(around, height, class),
        Stage::NotIn(height) => after_not(around, height, class),
        Stage::In(height) => after_in(around, height, class),
        Stage::Items(side, items) => after_item(around, side, items, class),
        Stage::Is(height) => after_is(around, height, class),
        Stage::IsNot(height) => tests(around, height, class),
    }
}

/// The first sketch.
pub fn sketch_start(alloc: Global) -> Sketch
    ensures { result ≡ spec.sketch (spec.around [] false 0) (Stage.Want Place.First) }
{
    wanting(around_of(Stack::new(alloc), false, 0), Place::First)
}
