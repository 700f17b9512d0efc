ghost use Rattle.std.specs.Prelude.{◌≡◌, ◌⊎◌, ◌++◌, map, Ok, Err, Some, IfOk, IfErr, option_map};
ghost use Rattle.rt_policy.specs.declared.fault.ExprFault.TheVariants.{NoMemory};
ghost use Rattle.rt_policy.specs.InnerTable.{reading_at};
ghost use Rattle.rt_policy.specs.Resolution.{judge_of, column_meaning, true_meaning};
ghost use Rattle.rt_policy.specs.Resolution.{selected_meaning, condition_meaning, exists_meaning};
ghost use Rattle.rt_policy.specs.Resolution.{qualifier_of, table_read, meaning_in, as_condition, resolved};

use crate::kinds::{either_unnamed, group_of, is_mistyped};
use crate::lookup::{InnerTable, column_found, table_named};
use crate::meaning::{Found, Group, Meaning};
use crate::parts::{
    all, among, any, cast_meaning, compared, is, literal_meaning, not, truth_given,
};
use crate::types::kind_of;
use crate::{Expr, ExprFault, Judge, Scope, Selected, TableView};
use rt_value::{Text, Value};
use sqlite_items::Boxed;
use std::alloc::{AllocError, Global};

fn judge_of(found: Found) -> Judge
    ensures { result ≡ judge_of found }
{
    if found.inner {
        Judge::Inner(found.column)
    } else {
        Judge::Outer(found.column)
    }
}

/// A column of an opaque kind or of a JSON kind is refused wherever it stands.
fn column_meaning(found: Option<Found>) -> Meaning
    ensures { result ≡ column_meaning found }
{
    match found {
        None => Meaning::Unnamed,
        Some(found) => match group_of(found.kind) {
            None => Meaning::Mistyped,
            Some(group) => Meaning::Typed(group, judge_of(found)),
        },
    }
}

fn literal_true() -> Meaning
    ensures { result ≡ true_meaning }
{
    Meaning::Typed(Group::Truth, Judge::Literal(Value::Bool(true)))
}

/// What an EXISTS selects is looked up, and is of a judged kind.
fn selected_meaning(
    scope: &Scope,
    at: InnerTable<'_>,
    selected: &Selected,
) -> Result<Meaning, AllocError>
    ensures { IfOk result (λ m. m ≡ selected_meaning scope.now (reading_at at.entry) selected.now) }
{
    match selected {
        Selected::One | Selected::All => Ok(literal_true()),
        Selected::Column { qualifier, name } => {
            let found = column_found(scope, Some(at), qualifier, name.get())?;
            Ok(column_meaning(found))
        }
    }
}

/// An EXISTS is of a table with a primary key.
fn exists_meaning(
    alloc: Global,
    at: InnerTable<'_>,
    selects: Meaning,
    condition: Meaning,
) -> Result<Meaning, AllocError>
    ensures { IfOk result (λ m. m ≡ exists_meaning (reading_at at.entry) selects condition) }
{
    if either_unnamed(&selects, &condition) {
        return Ok(Meaning::Unnamed);
    }
    if is_mistyped(&selects) || !at.table.keyed {
        return Ok(Meaning::Mistyped);
    }
    match truth_given(condition) {
        None => Ok(Meaning::Mistyped),
        Some(judge) => {
            let judge = Judge::Exists(at.number, Boxed::new(alloc, judge)?);
            Ok(Meaning::Typed(Group::Truth, judge))
        }
    }
}

/// An alias hides the table's name.
fn qualifier_of<'a>(table: &'a str, alias: &'a Option<Text>) -> &'a str
    ensures { result.now ≡ qualifier_of table.now alias.now }
{
    match alias {
        None => table,
        Some(alias) => alias.get(),
    }
}

/// The table that an EXISTS reads. Fails where the table's number is 2^32 or more.
fn table_read<'a>(
    scope: &'a Scope,
    schema: &str,
    table: &str,
    alias: &'a Option<Text>,
) -> Result<Option<InnerTable<'a>>, AllocError>
    ensures { IfOk result (λ t. option_map reading_at t
        ≡ table_read scope.now schema.now table.now alias.now) }
{
    let Some((number, table)) = table_named(scope, schema, table) else {
        return Ok(None);
    };
    let Ok(number) = u32::try_from(number) else {
        return Err(AllocError);
    };
    let qualifier = qualifier_of(table.name.get(), alias);
    Ok(Some(InnerTable {
        number,
        table,
        qualifier,
    }))
}

/// What a part of an expression means, inside an EXISTS or outside of one.
#[cycle(meaning)]
fn meaning_in(
    alloc: Global,
    scope: &Scope,
    expr: &Expr,
    at: Option<InnerTable<'_>>,
) -> Result<Meaning, AllocError>
    ensures { IfOk result (λ m.
        m ≡ meaning_in scope.now expr.now (option_map reading_at at.entry)) }
{
    match expr {
        Expr::Literal(literal) => literal_meaning(alloc, literal),
        Expr::Cast(literal, name) => cast_meaning(alloc, literal, kind_of(name)),
        Expr::Uid => Ok(Meaning::Typed(Group::Uuid, Judge::Uid)),
        Expr::Role => Ok(Meaning::Typed(Group::Text, Judge::Role)),
        Expr::Claim(name) => Ok(Meaning::Typed(Group::Text, Judge::Claim(name.copy(alloc)?))),
        Expr::Column { qualifier, name } => {
            Ok(column_meaning(column_found(scope, at, qualifier, name.get())?))
        }
        Expr::Group(a) => meaning_in(alloc, scope, a.get(), at),
        Expr::Compare(comparison, a, b) => {
            let a = meaning_in(alloc, scope, a.get(), at)?;
            let b = meaning_in(alloc, scope, b.get(), at)?;
            compared(alloc, *comparison, a, b)
        }
        Expr::OneOf {
            negated,
            side,
            items,
        } => {
            let listed = meanings(alloc, scope, items.get(), at)?;
            let first = meaning_in(alloc, scope, side.get(), at)?;
            among(alloc, *negated, first, listed)
        }
        Expr::Not(a) => not(alloc, meaning_in(alloc, scope, a.get(), at)?),
        Expr::And(parts) => all(alloc, meanings(alloc, scope, parts.get(), at)?),
        Expr::Or(parts) => any(alloc, meanings(alloc, scope, parts.get(), at)?),
        Expr::Is {
            negated,
            tested,
            side,
        } => is(
            alloc,
            *negated,
            *tested,
            meaning_in(alloc, scope, side.get(), at)?,
        ),
        Expr::Exists {
            selected,
            schema,
            table,
            alias,
            condition,
        } => match table_read(scope, schema.get(), table.get(), alias)? {
            None => Ok(Meaning::Unnamed),
            Some(inner) => {
                let selects = selected_meaning(scope, inner, selected)?;
                let condition = condition_meaning(alloc, scope, condition, inner)?;
                exists_meaning(alloc, inner, selects, condition)
            }
        },
    }
}

/// Without WHERE the condition is true.
#[cycle(meaning)]
fn condition_meaning(
    alloc: Global,
    scope: &Scope,
    condition: &Option<Boxed<Expr>>,
    at: InnerTable<'_>,
) -> Result<Meaning, AllocError>
    ensures { IfOk result (λ m. m ≡ condition_meaning (reading_at at.entry)
        (option_map (meaning_in scope.now) condition.now)) }
{
    match condition {
        None => Ok(literal_true()),
        Some(condition) => meaning_in(alloc, scope, condition.get(), Some(at)),
    }
}

#[cycle(meaning)]
fn meanings(
    alloc: Global,
    scope: &Scope,
    parts: &[Expr],
    at: Option<InnerTable<'_>>,
) -> Result<Vec<Meaning>, AllocError>
    ensures { IfOk result (λ ms. ms.items
        ≡ map (λ e. meaning_in scope.now e (option_map reading_at at.entry)) parts.now) }
{
    let mut meanings = Vec::with_capacity(alloc, parts.len())?;
    for part in parts {
        meanings.push(meaning_in(alloc, scope, part, at)?)?;
    }
    Ok(meanings)
}

fn as_condition(meaning: Meaning) -> Result<Judge, ExprFault>
    ensures { result ≡ as_condition meaning }
{
    match meaning {
        Meaning::Unnamed => Err(ExprFault::UnknownName),
        Meaning::Typed(Group::Truth, judge) => Ok(judge),
        _ => Err(ExprFault::BadType),
    }
}

/// What an expression means as a condition on the scope's table, where it names its columns and
/// those of the tables that its EXISTS read by their numbers.
///
/// # Errors
///
/// - `UnknownName` where it names a table or a column that isn't there, before
/// - `BadType` where kinds don't go together, a constant can't be read, or it is no truth value.
/// - `NoMemory`, also where a table or a column that it names has a number of 2^32 or more, which a
///   `Judge` doesn't hold.
#[tactic(auto, unfolding(crate::specs::Resolution::resolved))]
pub fn resolve(alloc: Global, scope: &Scope, expr: &Expr) -> Result<Judge, ExprFault>
    ensures ok { IfOk result (λ judge. resolved scope.now expr.now ≡ Ok judge) }
    ensures err { IfErr result (λ fault.
        (fault ≡ NoMemory) ⊎ (resolved scope.now expr.now ≡ Err fault)) }
{
    match meaning_in(alloc, scope, expr, None) {
        Err(_) => Err(ExprFault::NoMemory),
        Ok(meaning) => as_condition(meaning),
    }
}
