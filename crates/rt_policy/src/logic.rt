ghost use Rattle.std.specs.Prelude.{◌≡◌};
ghost use Rattle.rt_value.specs.Lent.{value_of};
ghost use Rattle.rt_policy.specs.Truth.{truth_in, worth_of_truth, is_true as is_so, not_of};
ghost use Rattle.rt_policy.specs.Truth.{and_of, or_of, agrees, compared, is_tested};

use crate::lent::order;
use crate::{Comparison, Tested, Truth};
use rt_value::LentValue;
use std::cmp::Ordering;

/// A value as a truth; one that isn't a truth value is unknown.
pub fn truth_of(value: LentValue<'_>) -> Truth
    ensures { result ≡ truth_in (value_of value.entry) }
{
    match value {
        LentValue::Bool(true) => Truth::True,
        LentValue::Bool(false) => Truth::False,
        _ => Truth::Unknown,
    }
}

/// A truth as a value: unknown is null.
pub fn as_value(truth: Truth) -> LentValue<'static>
    ensures { value_of result ≡ worth_of_truth truth }
{
    match truth {
        Truth::True => LentValue::Bool(true),
        Truth::False => LentValue::Bool(false),
        Truth::Unknown => LentValue::Null,
    }
}

/// Whether a truth is true; unknown isn't.
pub fn is_true(truth: Truth) -> bool
    ensures { result ≡ is_so truth }
{
    matches!(truth, Truth::True)
}

/// NOT.
pub fn negate(truth: Truth) -> Truth
    ensures { result ≡ not_of truth }
{
    match truth {
        Truth::True => Truth::False,
        Truth::False => Truth::True,
        Truth::Unknown => Truth::Unknown,
    }
}

/// AND.
pub fn both(a: Truth, b: Truth) -> Truth
    ensures { result ≡ and_of a b }
{
    match (a, b) {
        (Truth::False, _) | (_, Truth::False) => Truth::False,
        (Truth::True, Truth::True) => Truth::True,
        _ => Truth::Unknown,
    }
}

/// OR.
pub fn either(a: Truth, b: Truth) -> Truth
    ensures { result ≡ or_of a b }
{
    match (a, b) {
        (Truth::True, _) | (_, Truth::True) => Truth::True,
        (Truth::False, Truth::False) => Truth::False,
        _ => Truth::Unknown,
    }
}

/// Whether an order is one that the comparison asks for.
fn admits(comparison: Comparison, order: Ordering) -> bool
    ensures { result ≡ agrees comparison order }
{
    match comparison {
        Comparison::Equal => matches!(order, Ordering::Equal),
        Comparison::NotEqual => !matches!(order, Ordering::Equal),
        Comparison::Less => matches!(order, Ordering::Less),
        Comparison::LessOrEqual => !matches!(order, Ordering::Greater),
        Comparison::Greater => matches!(order, Ordering::Greater),
        Comparison::GreaterOrEqual => !matches!(order, Ordering::Less),
    }
}

/// What a comparison says of two values; unknown where they have no order, as where one is null.
pub fn compare_by(comparison: Comparison, a: LentValue<'_>, b: LentValue<'_>) -> Truth
    ensures { result ≡ compared comparison (value_of a.entry) (value_of b.entry) }
{
    match order(a, b) {
        None => Truth::Unknown,
        Some(order) => {
            if admits(comparison, order) {
                Truth::True
            } else {
                Truth::False
            }
        }
    }
}

/// What IS says of a value. It is never unknown.
pub fn meets(tested: Tested, value: LentValue<'_>) -> bool
    ensures { result ≡ is_tested tested (value_of value.entry) }
{
    match (tested, value) {
        (Tested::Null | Tested::Unknown, LentValue::Null) => true,
        (Tested::True, LentValue::Bool(b)) => b,
        (Tested::False, LentValue::Bool(b)) => !b,
        _ => false,
    }
}
