ghost use Rattle.std.specs.Prelude.{◌≡◌, ◌⊎◌, ◌↔◌, ◌==◌, map, None, Some, option_map};
ghost use Rattle.std.specs.Prelude.{IfOk, IfErr, IsErrOf};
ghost use Rattle.std.specs.List.{slice_split};
ghost use Rattle.std.specs.Option.{option_copied};
ghost use Rattle.rt_filter.specs.declared.filter.Filter.{Filter};
ghost use Rattle.rt_filter.specs.Written.{IsFilter, filter_of, parts_of, op_named, values_of};
ghost use Rattle.rt_filter.specs.Written.{inside, trimmed};

use crate::{Filter, FilterFault, Op};
use rt_value::{List, Text};
use std::alloc::{AllocError, Global};

/// The filter that a text is: `COLUMN=OP.VALUE`, the column what stands before the first `=` and
/// not empty, the operator what stands from there to the next `.`. The value of `in` is a list in
/// parentheses, not empty, with commas between its texts; spaces at both ends of each text are
/// dropped, and there is no quoting (the Realtime protocol, "Postgres Changes", filters).
///
/// `BadFilter` where the text is no filter, and `NoMemory`.
pub fn read(alloc: Global, text: &str) -> Result<Filter, FilterFault>
    ensures ok { IfOk result (λ filter. IsFilter text.now filter) }
    ensures bad { IsErrOf result FilterFault.BadFilter
        ↔ ((filter : Filter) → ¬ IsFilter text.now filter) }
    ensures err { IfErr result (λ e. (e ≡ FilterFault.BadFilter) ⊎ (e ≡ FilterFault.NoMemory)) }

    // The same, by the function that computes the filter.
    ensures computed { IfOk result (λ filter. filter_of text.now ≡ Some filter) }
    ensures none { IsErrOf result FilterFault.BadFilter ↔ (filter_of text.now ≡ None) }
{
    let (column, op, value) = parts(text).ok_or(FilterFault::BadFilter)?;
    let values = values(alloc, op, value)?;
    let column = Text::new(String::from_str(alloc, column)?);
    Ok(Filter { column, op, values })
}

/// The column, the operator and what stands behind it.
fn parts(text: &str) -> Option<(&str, Op, &str)>
    ensures { option_map (λ p. (p.0.now, p.1, p.2.now)) result ≡ parts_of text.now }
{
    let (column, rest) = text.split_once('=')?;
    if column.is_empty() {
        return None;
    }
    let (name, value) = rest.split_once('.')?;
    Some((column, op_named(name)?, value))
}

fn op_named(name: &str) -> Option<Op>
    ensures { result ≡ op_named name.now }
{
    match name {
        "eq" => Some(Op::Eq),
        "neq" => Some(Op::Neq),
        "lt" => Some(Op::Lt),
        "lte" => Some(Op::Lte),
        "gt" => Some(Op::Gt),
        "gte" => Some(Op::Gte),
        "in" => Some(Op::OneOf),
        _ => None,
    }
}

/// The values that a text writes for an operator. Only a text that writes some takes memory.
fn values(alloc: Global, op: Op, value: &str) -> Result<List<Text>, FilterFault>
    ensures ok { IfOk result (λ values. values_of op value.now ≡ Some values) }
    ensures bad { IsErrOf result FilterFault.BadFilter ↔ (values_of op value.now ≡ None) }
    ensures err { IfErr result (λ e. (e ≡ FilterFault.BadFilter) ⊎ (e ≡ FilterFault.NoMemory)) }
{
    match op {
        Op::OneOf => {
            let texts = inside(value).ok_or(FilterFault::BadFilter)?;
            Ok(listed(alloc, texts)?)
        }
        _ => {
            let text = Text::new(String::from_str(alloc, value)?);
            Ok(List::new(vec![in alloc; text]?))
        }
    }
}

/// What stands between parentheses, where it isn't empty.
fn inside(value: &str) -> Option<&str>
    ensures { option_copied result ≡ inside value.now }
{
    let texts = value.strip_prefix('(')?.strip_suffix(')')?;
    if texts.is_empty() { None } else { Some(texts) }
}

/// The texts between the commas, without the spaces at their ends.
fn listed(alloc: Global, texts: &str) -> Result<List<Text>, AllocError>
    ensures { IfOk result (λ values. values ≡ map trimmed (slice_split (λ b. b == 44) texts.now)) }
{
    let mut values = Vec::new(alloc);
    for text in texts.split(',') {
        let text = trimmed(text);
        values.push(Text::new(String::from_str(alloc, text)?))?;
    }
    Ok(List::new(values))
}

fn trimmed(text: &str) -> &str
    ensures { result.now ≡ trimmed text.now }
{
    text.trim_start_matches(' ').trim_end_matches(' ')
}
