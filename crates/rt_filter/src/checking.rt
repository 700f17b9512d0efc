ghost use Rattle.std.specs.Prelude.{◌≡◌, ◌≢◌, ◌⊎◌, find, None, Some, Ok, Err};
ghost use Rattle.std.specs.Prelude.{option_map, IfOk, IfErr};
ghost use Rattle.std.specs.List.{enumerate_from};
ghost use Rattle.std.specs.Str.{bytes_eq};
ghost use Rattle.rt_filter.specs.declared.fault.FilterFault.{FilterFault};
ghost use Rattle.rt_filter.specs.Tests.{test_of, test_with, all_read};

use crate::{Filter, FilterFault, Shown, Test};
use rt_value::{Kind, List, Text, Value, from_text};
use std::alloc::Global;

/// The most values that a filter may have.
const VALUE_LIMIT: usize = 100;

/// The test of a filter on a table's columns, with the column's place and the values read in its
/// kind. The first reason why there is none: `ColumnHidden` where there is no such column or it
/// isn't selectable, `Opaque` where its kind is opaque or `Json`, `TooMany` where there are more than 100
/// values, `BadValue` where a value can't be read in its kind.
///
/// Memory is taken for the values alone, so `NoMemory` never comes in the place of the first three.
/// It is also the answer where 2^32 columns or more stand before the filter's, which has no place
/// of 32 bits then.
pub fn check(alloc: Global, filter: &Filter, columns: &[Shown]) -> Result<Test, FilterFault>
    ensures ok { IfOk result (λ test. test_of filter.now columns.now ≡ Ok test) }
    ensures err { IfErr result (λ e.
        (e ≡ FilterFault.NoMemory) ⊎ (test_of filter.now columns.now ≡ Err e)) }
    ensures first { (e : FilterFault) → test_of filter.now columns.now ≡ Err e →
        e ≢ FilterFault.BadValue → result ≡ Err e }
{
    let (place, kind) = column_of(filter, columns)?;
    let Ok(column) = u32::try_from(place) else {
        return Err(FilterFault::NoMemory);
    };
    let values = values_in(alloc, kind, filter.values.get())?;
    Ok(Test {
        column,
        op: filter.op,
        values,
    })
}

/// The first column of a name, and its place.
fn named<'a>(name: &Text, columns: &'a [Shown]) -> Option<(usize, &'a Shown)>
    ensures { option_map (λ c. (c.0, c.1.now)) result
        ≡ find (λ c. bytes_eq c.1.name name.now) (enumerate_from 0 columns.now) }
{
    let mut places = columns.iter().enumerate();
    places.find(|(_, shown)| shown.name == *name)
}

/// The place and the kind of the filter's column, where the filter may be asked of it.
#[tactic(auto, unfolding(crate::specs::Tests::test_of))]
fn column_of(filter: &Filter, columns: &[Shown]) -> Result<(usize, Kind), FilterFault>
    ensures ok { IfOk result (λ c. test_of filter.now columns.now
        ≡ test_with c.0 filter.now.op (all_read c.1 filter.now.values)) }
    ensures err { IfErr result (λ e. test_of filter.now columns.now ≡ Err e) }
{
    let (place, shown) = named(&filter.column, columns).ok_or(FilterFault::ColumnHidden)?;
    let n = filter.values.get().len();
    if !shown.selectable {
        Err(FilterFault::ColumnHidden)
    } else if matches!(shown.kind, Kind::Opaque | Kind::Json) {
        Err(FilterFault::Opaque)
    } else if n > VALUE_LIMIT {
        Err(FilterFault::TooMany { n })
    } else {
        Ok((place, shown.kind))
    }
}

/// The values of texts in a kind.
#[tactic(auto, using(crate::proofs::Values::read_none, crate::proofs::Values::read_more, crate::proofs::Values::read_bad, crate::proofs::Values::read_all))]
fn values_in(alloc: Global, kind: Kind, texts: &[Text]) -> Result<List<Value>, FilterFault>
    ensures ok { IfOk result (λ values. all_read kind texts.now ≡ Some values) }
    ensures err { IfErr result (λ e. (e ≡ FilterFault.NoMemory)
        ⊎ ((e ≡ FilterFault.BadValue) × (all_read kind texts.now ≡ None))) }
{
    let mut values = Vec::with_capacity(alloc, texts.len())?;
    for text in texts {
        values.push(from_text(alloc, kind, text.get())?)?;
    }
    Ok(List::new(values))
}
