ghost use Rattle.std.specs.Prelude.{◌≡◌, [], ◌∷◌, IfOk, string_bytes};
ghost use Rattle.rt_value.specs.Reading.{value_in_text};
ghost use Rattle.rt_policy.specs.declared.judge.Judge.TheVariants as judge;
ghost use Rattle.rt_policy.specs.Resolution.{within, truth_given, judge_as, all_as, constant};
ghost use Rattle.rt_policy.specs.Resolution.{typed_or, number_text, literal_meaning, cast_meaning};
ghost use Rattle.rt_policy.specs.Resolution.{of_truth, of_truths, common_group, compared_by};
ghost use Rattle.rt_policy.specs.Resolution.{negated_if, among, is_meaning};

use crate::kinds::{
    any_unnamed, either_unnamed, first_given, group_given, group_of, is_unnamed, kind_in,
    same_group, unnamed_with,
};
use crate::meaning::{Group, Meaning, Wanted};
use crate::{Comparison, Judge, Literal, Tested};
use rt_value::{Kind, List, Value, ValueFault, from_text};
use sqlite_items::Boxed;
use std::alloc::{AllocError, Global};

/// The constant that a text is in a kind.
fn constant(alloc: Global, kind: Kind, text: &str) -> Result<Option<Judge>, AllocError>
    ensures { IfOk result (λ j. j ≡ constant (value_in_text kind text.now)) }
{
    match from_text(alloc, kind, text) {
        Ok(value) => Ok(Some(Judge::Literal(value))),
        Err(ValueFault::BadText) => Ok(None),
        Err(ValueFault::NoMemory) => Err(AllocError),
    }
}

pub fn typed_or(group: Group, judge: Option<Judge>) -> Meaning
    ensures { result ≡ typed_or group judge }
{
    match judge {
        None => Meaning::Mistyped,
        Some(judge) => Meaning::Typed(group, judge),
    }
}

/// The digits of a number with its minus.
fn number_text(alloc: Global, minus: bool, digits: &str) -> Result<String, AllocError>
    ensures { IfOk result (λ s. string_bytes s ≡ number_text minus digits.now) }
{
    let mut text = String::new(alloc);
    if minus {
        text.push_str("-")?;
    }
    text.push_str(digits)?;
    Ok(text)
}

/// A literal without a cast; a number is whole, in the range of `int8`.
pub fn literal_meaning(alloc: Global, literal: &Literal) -> Result<Meaning, AllocError>
    ensures { IfOk result (λ m. m ≡ literal_meaning literal.now) }
{
    match literal {
        Literal::Text(text) => Ok(Meaning::OpenText(text.copy(alloc)?)),
        Literal::Number { minus, digits } => {
            let text = number_text(alloc, *minus, digits.get())?;
            Ok(typed_or(Group::Whole, constant(alloc, Kind::Int8, text.as_str())?))
        }
        Literal::Truth(b) => Ok(Meaning::Typed(Group::Truth, Judge::Literal(Value::Bool(*b)))),
        Literal::Null => Ok(Meaning::OpenNull),
    }
}

/// A literal under a cast to a kind.
pub fn cast_meaning(alloc: Global, literal: &Literal, kind: Kind) -> Result<Meaning, AllocError>
    ensures { IfOk result (λ m. m ≡ cast_meaning literal.now kind) }
{
    let Some(group) = group_of(kind) else {
        return Ok(Meaning::Mistyped);
    };
    match literal {
        Literal::Text(text) => Ok(typed_or(group, constant(alloc, kind, text.get())?)),
        Literal::Number { minus, digits } => {
            if !same_group(group, Group::Whole) {
                return Ok(Meaning::Mistyped);
            }
            let text = number_text(alloc, *minus, digits.get())?;
            Ok(typed_or(group, constant(alloc, kind, text.as_str())?))
        }
        Literal::Truth(_) | Literal::Null => Ok(Meaning::Mistyped),
    }
}

/// A part in a group, where it is of the group or can be read in it.
fn within(alloc: Global, group: Group, part: Meaning) -> Result<Option<Judge>, AllocError>
    ensures { IfOk result (λ j. j ≡ within group part) }
{
    match part {
        Meaning::Unnamed | Meaning::Mistyped => Ok(None),
        Meaning::OpenText(text) => constant(alloc, kind_in(group), text.get()),
        Meaning::OpenNull => Ok(Some(Judge::Literal(Value::Null))),
        Meaning::Typed(own, judge) => Ok(if same_group(group, own) {
            Some(judge)
        } else {
            None
        }),
    }
}

/// A part that is a truth value by itself.
pub fn truth_given(part: Meaning) -> Option<Judge>
    ensures { result ≡ truth_given part }
{
    match part {
        Meaning::Typed(Group::Truth, judge) => Some(judge),
        _ => None,
    }
}

fn judge_as(alloc: Global, wanted: Wanted, part: Meaning) -> Result<Option<Judge>, AllocError>
    ensures { IfOk result (λ j. j ≡ judge_as wanted part) }
{
    match wanted {
        Wanted::Truth => Ok(truth_given(part)),
        Wanted::Of(group) => within(alloc, group, part),
    }
}

/// The judges of the parts, where each is what is wanted.
fn all_as(
    alloc: Global,
    wanted: Wanted,
    parts: Vec<Meaning>,
) -> Result<Option<List<Judge>>, AllocError>
    ensures { IfOk result (λ js. js ≡ all_as wanted parts.items) }
{
    let mut judges = Vec::with_capacity(alloc, parts.len())?;
    for part in parts {
        match judge_as(alloc, wanted, part)? {
            None => return Ok(None),
            Some(judge) => judges.push(judge)?,
        }
    }
    Ok(Some(List::new(judges)))
}

fn negated_if(alloc: Global, negated: bool, judge: Judge) -> Result<Judge, AllocError>
    ensures { IfOk result (λ j. j ≡ negated_if negated judge) }
{
    if negated {
        Ok(Judge::Not(Boxed::new(alloc, judge)?))
    } else {
        Ok(judge)
    }
}

/// NOT of a part.
pub fn not(alloc: Global, part: Meaning) -> Result<Meaning, AllocError>
    ensures { IfOk result (λ m. m ≡ of_truth part judge.Not) }
{
    if is_unnamed(&part) {
        return Ok(Meaning::Unnamed);
    }
    match truth_given(part) {
        None => Ok(Meaning::Mistyped),
        Some(judge) => {
            let judge = Judge::Not(Boxed::new(alloc, judge)?);
            Ok(Meaning::Typed(Group::Truth, judge))
        }
    }
}

/// AND of the parts.
pub fn all(alloc: Global, parts: Vec<Meaning>) -> Result<Meaning, AllocError>
    ensures { IfOk result (λ m. m ≡ of_truths parts.items judge.And) }
{
    if any_unnamed(parts.as_slice()) {
        return Ok(Meaning::Unnamed);
    }
    match all_as(alloc, Wanted::Truth, parts)? {
        None => Ok(Meaning::Mistyped),
        Some(judges) => Ok(Meaning::Typed(Group::Truth, Judge::And(judges))),
    }
}

/// OR of the parts.
pub fn any(alloc: Global, parts: Vec<Meaning>) -> Result<Meaning, AllocError>
    ensures { IfOk result (λ m. m ≡ of_truths parts.items judge.Or) }
{
    if any_unnamed(parts.as_slice()) {
        return Ok(Meaning::Unnamed);
    }
    match all_as(alloc, Wanted::Truth, parts)? {
        None => Ok(Meaning::Mistyped),
        Some(judges) => Ok(Meaning::Typed(Group::Truth, Judge::Or(judges))),
    }
}

/// IS of a part. IS NULL takes any, the others a truth value.
pub fn is(
    alloc: Global,
    negated: bool,
    tested: Tested,
    part: Meaning,
) -> Result<Meaning, AllocError>
    ensures { IfOk result (λ m. m ≡ is_meaning negated tested part) }
{
    if is_unnamed(&part) {
        return Ok(Meaning::Unnamed);
    }
    let judge = match tested {
        Tested::Null => {
            let group = group_given(&part).unwrap_or(Group::Text);
            within(alloc, group, part)?
        }
        _ => truth_given(part),
    };
    match judge {
        None => Ok(Meaning::Mistyped),
        Some(judge) => {
            let judge = Judge::Is(tested, Boxed::new(alloc, judge)?);
            Ok(Meaning::Typed(Group::Truth, negated_if(alloc, negated, judge)?))
        }
    }
}

/// The group that two parts share.
fn group_of_two(a: &Meaning, b: &Meaning) -> Group
    ensures { result ≡ common_group (a.now ∷ b.now ∷ []) }
{
    group_given(a).or(group_given(b)).unwrap_or(Group::Text)
}

/// A comparison of two parts, which share a group.
pub fn compared(
    alloc: Global,
    comparison: Comparison,
    a: Meaning,
    b: Meaning,
) -> Result<Meaning, AllocError>
    ensures { IfOk result (λ m. m ≡ compared_by comparison a b) }
{
    if either_unnamed(&a, &b) {
        return Ok(Meaning::Unnamed);
    }
    let group = group_of_two(&a, &b);
    let Some(a) = within(alloc, group, a)? else {
        return Ok(Meaning::Mistyped);
    };
    let Some(b) = within(alloc, group, b)? else {
        return Ok(Meaning::Mistyped);
    };
    let judge = Judge::Compare(comparison, Boxed::new(alloc, a)?, Boxed::new(alloc, b)?);
    Ok(Meaning::Typed(Group::Truth, judge))
}

/// The group that a part shares with a list of parts.
fn group_with(side: &Meaning, items: &[Meaning]) -> Group
    ensures { result ≡ common_group (side.now ∷ items.now) }
{
    match group_given(side) {
        Some(group) => group,
        None => first_given(items).unwrap_or(Group::Text),
    }
}

/// IN, or NOT IN where it is negated. The left side and the items share a group.
pub fn among(
    alloc: Global,
    negated: bool,
    side: Meaning,
    items: Vec<Meaning>,
) -> Result<Meaning, AllocError>
    ensures { IfOk result (λ m. m ≡ among negated side items.items) }
{
    if unnamed_with(&side, items.as_slice()) {
        return Ok(Meaning::Unnamed);
    }
    let group = group_with(&side, items.as_slice());
    let Some(side) = within(alloc, group, side)? else {
        return Ok(Meaning::Mistyped);
    };
    let Some(items) = all_as(alloc, Wanted::Of(group), items)? else {
        return Ok(Meaning::Mistyped);
    };
    let judge = Judge::OneOf(Boxed::new(alloc, side)?, items);
    Ok(Meaning::Typed(Group::Truth, negated_if(alloc, negated, judge)?))
}
