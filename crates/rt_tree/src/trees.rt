ghost use Rattle.std.specs.Prelude.{◌≡◌, ◌∷◌, ◌++◌, [], Some, IfOk};
ghost use Rattle.rt_policy.specs.Grammar as grammar;
ghost use Rattle.rt_policy.specs.Parts as parts;

use rt_policy::part::Source;
use rt_policy::{Comparison, Expr, Tested};
use rt_value::List;
use sqlite_items::Boxed;
use std::alloc::{AllocError, Global};

pub fn compared(alloc: Global, op: Comparison, a: Expr, b: Expr) -> Result<Expr, AllocError>
    ensures { IfOk result (λ e. e ≡ Expr.Compare op a b) }
{
    let a = Boxed::new(alloc, a)?;
    let b = Boxed::new(alloc, b)?;
    Ok(Expr::Compare(op, a, b))
}

pub fn one_of(
    alloc: Global,
    negated: bool,
    side: Expr,
    items: List<Expr>,
) -> Result<Expr, AllocError>
    ensures { IfOk result (λ e. e ≡ Expr.OneOf negated side items) }
{
    let side = Boxed::new(alloc, side)?;
    Ok(Expr::OneOf {
        negated,
        side,
        items,
    })
}

pub fn not(alloc: Global, a: Expr) -> Result<Expr, AllocError>
    ensures { IfOk result (λ e. e ≡ Expr.Not a) }
{
    Ok(Expr::Not(Boxed::new(alloc, a)?))
}

pub fn is(alloc: Global, negated: bool, tested: Tested, side: Expr) -> Result<Expr, AllocError>
    ensures { IfOk result (λ e. e ≡ Expr.Is negated tested side) }
{
    let side = Boxed::new(alloc, side)?;
    Ok(Expr::Is {
        negated,
        tested,
        side,
    })
}

pub fn group(alloc: Global, a: Expr) -> Result<Expr, AllocError>
    ensures { IfOk result (λ e. e ≡ Expr.Group a) }
{
    Ok(Expr::Group(Boxed::new(alloc, a)?))
}

/// An EXISTS on a source with its WHERE.
pub fn exists_where(alloc: Global, source: Source, condition: Expr) -> Result<Expr, AllocError>
    ensures { IfOk result (λ e. e ≡ parts.exists_of source (Some condition)) }
{
    let condition = Boxed::new(alloc, condition)?;
    let Source {
        selected,
        schema,
        table,
        alias,
    } = source;
    Ok(Expr::Exists {
        selected,
        schema,
        table,
        alias,
        condition: Some(condition),
    })
}

/// The list with one element more at its end.
pub fn pushed(list: List<Expr>, item: Expr) -> Result<List<Expr>, AllocError>
    ensures { IfOk result (λ l. l ≡ list ++ item ∷ []) }
{
    let mut items = list.into_inner();
    items.push(item)?;
    Ok(List::new(items))
}

pub fn none(alloc: Global) -> List<Expr>
    ensures { result ≡ [] }
{
    List::new(Vec::new(alloc))
}

/// What AND joins; one stands for itself.
pub fn conjunction(all: List<Expr>) -> Expr
    ensures { result ≡ grammar.conjunction all }
{
    let mut all = all.into_inner();
    if all.len() == 1 {
        match all.pop() {
            Some(expr) => expr,
            None => Expr::And(List::new(all)),
        }
    } else {
        Expr::And(List::new(all))
    }
}

/// What OR joins; one stands for itself.
pub fn disjunction(all: List<Expr>) -> Expr
    ensures { result ≡ grammar.disjunction all }
{
    let mut all = all.into_inner();
    if all.len() == 1 {
        match all.pop() {
            Some(expr) => expr,
            None => Expr::Or(List::new(all)),
        }
    } else {
        Expr::Or(List::new(all))
    }
}
