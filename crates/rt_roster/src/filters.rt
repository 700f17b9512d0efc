//! What the filters of a binding test.
ghost use Rattle.std.specs.Prelude.{◌≡◌, length, Ok, IfOk, IfSome, Some};
ghost use Rattle.std.specs.List.{filter};
ghost use Rattle.rt_registry.specs.Bindings.{each_test, test_for, tests_for};
ghost use Rattle.rt_roster.specs.Meant.{is_asked};
ghost use Rattle.rt_roster.specs.Whys.{why_told};

use crate::lookup::shown_to;
use rt_catalog::Catalog;
use rt_filter::{FilterFault, Shown, Test, check, read};
use rt_registry::BindingWhy;
use rt_value::{List, Text};
use std::alloc::{AllocError, Global};

/// The most filters of a binding.
const FILTER_LIMIT: usize = 8;

/// The reason that a filter's fault is; none for want of memory.
fn why_told(fault: FilterFault) -> Option<BindingWhy>
    ensures { result ≡ why_told fault }
{
    match fault {
        FilterFault::NoMemory => None,
        FilterFault::BadFilter => Some(BindingWhy::Filter),
        FilterFault::ColumnHidden => Some(BindingWhy::Column),
        FilterFault::Opaque => Some(BindingWhy::Opaque),
        FilterFault::TooMany { .. } => Some(BindingWhy::TooMany),
        FilterFault::BadValue => Some(BindingWhy::Value),
    }
}

/// What a filter tests on a table's columns, or the first reason against it.
fn test_for(
    alloc: Global,
    columns: &[Shown],
    text: &Text,
) -> Result<Result<Test, BindingWhy>, AllocError>
    ensures { IfOk result (λ r. r ≡ test_for columns.now text.now) }
{
    let filter = match read(alloc, text.get()) {
        Ok(filter) => filter,
        Err(FilterFault::BadFilter) => return Ok(Err(BindingWhy::Filter)),
        Err(_) => return Err(AllocError),
    };
    match check(alloc, &filter, columns) {
        Ok(test) => Ok(Ok(test)),
        Err(fault) => match why_told(fault) {
            Some(why) => Ok(Err(why)),
            None => Err(AllocError),
        },
    }
}

/// Whether the filter asks for something: each of a list does, and else each text that isn't empty.
fn is_asked(listed: bool, text: &Text) -> bool
    ensures { result ≡ is_asked listed text.now }
{
    listed || text.get() != ""
}

/// How many of the filters ask for something.
fn asked_count(listed: bool, filters: &[Text]) -> usize
    ensures { result ≡ length (filter (is_asked listed) filters.now) }
{
    filters.iter().filter(|text| is_asked(listed, text)).count()
}

/// What those of the filters test that ask for something, or the first reason against them.
#[tactic(auto, using(crate::proofs::Tested::tested_none, crate::proofs::Tested::tested_skip, crate::proofs::Tested::tested_more, crate::proofs::Tested::tested_bad, crate::proofs::Tested::tested_all))]
fn each_test(
    alloc: Global,
    columns: &[Shown],
    listed: bool,
    filters: &[Text],
) -> Result<Result<List<Test>, BindingWhy>, AllocError>
    ensures { IfOk result (λ r. r ≡ each_test columns.now (filter (is_asked listed) filters.now)) }
{
    let mut tests = Vec::new(alloc);
    for text in filters {
        if !is_asked(listed, text) {
            continue;
        }
        match test_for(alloc, columns, text)? {
            Ok(test) => tests.push(test)?,
            Err(why) => return Ok(Err(why)),
        }
    }
    Ok(Ok(List::new(tests)))
}

/// What the filters of a binding test for a role, or the first reason against them.
#[tactic(auto, using(crate::proofs::Tested::no_filter, crate::proofs::Tested::no_table, crate::proofs::Tested::too_many, crate::proofs::Tested::few_enough))]
pub fn tests_for(
    alloc: Global,
    catalog: &Catalog,
    role: u32,
    table: Option<u32>,
    listed: bool,
    filters: &[Text],
) -> Result<Result<List<Test>, BindingWhy>, AllocError>
    ensures { IfOk result (λ r.
        r ≡ tests_for catalog.now role table (filter (is_asked listed) filters.now)) }
{
    let count = asked_count(listed, filters);
    if count == 0 {
        return Ok(Ok(List::new(Vec::new(alloc))));
    }
    let Some(table) = table else {
        return Ok(Err(BindingWhy::FilterNoTable));
    };
    if count > FILTER_LIMIT {
        return Ok(Err(BindingWhy::TooManyFilters));
    }
    let columns = shown_to(alloc, catalog, role, table)?;
    each_test(alloc, columns.as_slice(), listed, filters)
}
