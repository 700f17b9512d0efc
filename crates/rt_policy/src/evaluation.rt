ghost use Rattle.std.specs.Prelude.{◌≡◌, ◌==◌, ◌||◌, not, Some, map, slice_get};
ghost use Rattle.std.specs.List.{list_any};
ghost use Rattle.std.specs.Option.{option_copied};
ghost use Rattle.rt_value.specs.Lent.{value_of};
ghost use Rattle.rt_policy.specs.Joining.{joined};
ghost use Rattle.rt_policy.specs.Worth.{Place, worth, who_of, shows};
ghost use Rattle.rt_policy.specs.Visibility.{visibility, is_yes, view_of, truth_for, judged, lists};

use crate::claims::{claim, uuid};
use crate::joining::Joining;
use crate::lent::{cell, cell_in};
use crate::logic::{as_value, compare_by, is_true, meets, negate, truth_of};
use crate::{Caller, Judge, Policy, Rules, Seen, TableRules, Truth};
use rt_value::{Db, LentValue, Row, lend, rows_in};

fn contains(roles: &[u32], role: u32) -> bool
    ensures { result ≡ list_any (λ r. r == role) roles.now }
{
    roles.iter().any(|r| *r == role)
}

/// Whether a policy lists the role or is for PUBLIC.
fn is_for(policy: &Policy, role: u32) -> bool
    ensures { result ≡ lists role policy.now.roles }
{
    match &policy.roles {
        None => true,
        Some(roles) => contains(roles.get(), role),
    }
}

fn rules_of(rules: &Rules, table: u32) -> Option<&TableRules>
    ensures { option_copied result ≡ slice_get rules.now.tables table }
{
    rules.tables.get().get(table as usize)
}

/// Whether the caller sees every row of the table.
fn is_open(entry: &TableRules, caller: &Caller<'_>) -> bool
    ensures { result ≡ (not entry.now.secured || caller.now.bypass) }
{
    !entry.secured || caller.bypass
}

fn is_yes(seen: Seen) -> bool
    ensures { result ≡ is_yes seen }
{
    matches!(seen, Seen::Yes)
}

/// The value of an expression, asked of a row and inside an EXISTS also of the row that it reads.
#[cycle(access)]
fn worth_in<'a, D: Db>(
    judge: &'a Judge,
    outer: &'a Row,
    inner: Option<&'a Row>,
    caller: &Caller<'a>,
    rules: &'a Rules,
    db: &'a D,
) -> LentValue<'a>
    ensures { let view = view_of rules.now.tables (who_of caller.now) (D.rows db.now) in
        let at : Place = record { outer = outer.now; inner = option_copied inner.entry } in
        value_of result ≡ worth (who_of caller.now) view judge.now at }
{
    match judge {
        Judge::Literal(value) => lend(value),
        Judge::Outer(column) => cell(outer, *column),
        Judge::Inner(column) => cell_in(inner, *column),
        Judge::Uid => uuid(caller.claims.sub),
        Judge::Role => LentValue::Text(caller.claims.role.get()),
        Judge::Claim(name) => claim(caller.claims.members.get(), name.get()),
        Judge::Compare(comparison, a, b) => {
            let x = worth_in(a.get(), outer, inner, caller, rules, db);
            let y = worth_in(b.get(), outer, inner, caller, rules, db);
            as_value(compare_by(*comparison, x, y))
        }
        Judge::OneOf(side, all) => {
            let x = worth_in(side.get(), outer, inner, caller, rules, db);
            as_value(joined(
                Joining::EqualTo(x),
                all.get(),
                outer,
                inner,
                caller,
                rules,
                db,
            ))
        }
        Judge::Not(a) => {
            let x = worth_in(a.get(), outer, inner, caller, rules, db);
            as_value(negate(truth_of(x)))
        }
        Judge::And(all) => {
            as_value(joined(Joining::And, all.get(), outer, inner, caller, rules, db))
        }
        Judge::Or(all) => {
            as_value(joined(Joining::Or, all.get(), outer, inner, caller, rules, db))
        }
        Judge::Is(tested, a) => {
            let x = worth_in(a.get(), outer, inner, caller, rules, db);
            LentValue::Bool(meets(*tested, x))
        }
        Judge::Exists(table, condition) => {
            LentValue::Bool(exists(*table, condition.get(), outer, caller, rules, db))
        }
    }
}

/// The truth that a list of expressions gives.
#[cycle(access)]
fn joined<'a, D: Db>(
    joining: Joining<'a>,
    judges: &'a [Judge],
    outer: &'a Row,
    inner: Option<&'a Row>,
    caller: &Caller<'a>,
    rules: &'a Rules,
    db: &'a D,
) -> Truth
    ensures { let view = view_of rules.now.tables (who_of caller.now) (D.rows db.now) in
        let at : Place = record { outer = outer.now; inner = option_copied inner.entry } in
        result ≡ joined joining.entry (map (λ j. worth (who_of caller.now) view j at) judges.now) }
{
    let mut known = joining.of_none();
    for judge in judges {
        let x = worth_in(judge, outer, inner, caller, rules, db);
        known = joining.with(known, x);
    }
    known
}

/// Whether some row of the table that the caller sees makes the condition true.
#[cycle(access)]
fn exists<'a, D: Db>(
    table: u32,
    condition: &'a Judge,
    outer: &'a Row,
    caller: &Caller<'a>,
    rules: &'a Rules,
    db: &'a D,
) -> bool
    ensures { let view = view_of rules.now.tables (who_of caller.now) (D.rows db.now) in
        let test = shows view table outer.now (worth (who_of caller.now) view condition.now) in
        result ≡ list_any test (D.rows db.now table) }
{
    for row in rows_in(db, table) {
        if is_yes(seen(rules, caller, table, row, db))
            && is_true(truth_of(worth_in(condition, outer, Some(row), caller, rules, db)))
        {
            return true;
        }
    }
    false
}

/// Whether the caller sees a row, or the first reason why not.
#[tactic(auto, using(crate::proofs::Ranks::visibility_is))]
#[cycle(access)]
fn seen<'a, D: Db>(
    rules: &'a Rules,
    caller: &Caller<'a>,
    table: u32,
    row: &'a Row,
    db: &'a D,
) -> Seen
    ensures { let who = who_of caller.now in
        result ≡ visibility rules.now.tables who (D.rows db.now) table row.now }
{
    match rules_of(rules, table) {
        None => Seen::NoPolicy,
        Some(entry) => {
            if is_open(entry, caller) {
                Seen::Yes
            } else {
                judge_all(table, entry, row, caller, rules, db)
            }
        }
    }
}

/// What the policies of a table say of a row.
#[cycle(access)]
fn judge_all<'a, D: Db>(
    table: u32,
    entry: &'a TableRules,
    row: &'a Row,
    caller: &Caller<'a>,
    rules: &'a Rules,
    db: &'a D,
) -> Seen
    requires { slice_get rules.now.tables table ≡ Some entry.now }
    ensures { let view = view_of rules.now.tables (who_of caller.now) (D.rows db.now) in
        result ≡ judged (who_of caller.now) view row.now entry.now.policies }
{
    let mut applied = false;
    let mut permitted = false;
    let mut refused = None;
    for (n, policy) in entry.policies.get().iter().enumerate() {
        if policy.selects && is_for(policy, caller.role) {
            applied = true;
            let passes = match &policy.judge {
                None => false,
                Some(judge) => is_true(truth_of(worth_in(judge, row, None, caller, rules, db))),
            };
            if policy.restrictive {
                if !passes && refused.is_none() {
                    refused = Some(n);
                }
            } else if passes {
                permitted = true;
            }
        }
    }
    if !applied {
        Seen::NoPolicy
    } else if !permitted {
        Seen::NonePermits
    } else {
        match refused {
            None => Seen::Yes,
            Some(n) => Seen::Restrictive(n as u32),
        }
    }
}

fn truth_at<'a, D: Db>(
    judge: &'a Judge,
    row: &'a Row,
    caller: &Caller<'a>,
    rules: &'a Rules,
    db: &'a D,
) -> Truth
    ensures { let who = who_of caller.now in
        result ≡ truth_for rules.now.tables who (D.rows db.now) judge.now row.now }
{
    truth_of(worth_in(judge, row, None, caller, rules, db))
}

/// What an expression is at a row, for a caller. An EXISTS reads the rows of its table that the
/// caller sees.
pub fn holds<D: Db>(judge: &Judge, row: &Row, caller: &Caller<'_>, rules: &Rules, db: &D) -> Truth
    ensures { let who = who_of caller.now in
        result ≡ truth_for rules.now.tables who (D.rows db.now) judge.now row.now }
{
    truth_at(judge, row, caller, rules, db)
}

/// Whether a caller sees a row of a table, or the first reason why not. It may be a row that the
/// table doesn't hold.
pub fn sees<D: Db>(rules: &Rules, caller: &Caller<'_>, table: u32, row: &Row, db: &D) -> Seen
    ensures { let who = who_of caller.now in
        result ≡ visibility rules.now.tables who (D.rows db.now) table row.now }
{
    seen(rules, caller, table, row, db)
}
