ghost use Rattle.std.specs.Prelude.{◌≡◌, ◌+◌, ◌&&◌, not};
ghost use Rattle.rt_catalog.specs.Access.{is_secured as has_security, who_is};
ghost use Rattle.rt_policy.specs.Visibility.{visibility};
ghost use Rattle.rt_change.specs.Verdicts.{judged_row, may_select_key as selects, verdict_of};
ghost use Rattle.rt_change.specs.Verdicts.{verdict_of_seen, writes as is_written};
ghost use Rattle.rt_value.specs.Tables.{rows_of_table};

use crate::access::{bypasses, is_secured, may_select_key};
use crate::asking::{asks_for, lacks_key, passes_filter, writes};
use crate::steps::Steps;
use rt_catalog::Catalog;
use rt_change::{Change, Denial, Verdict};
use rt_filter::Subscription;
use rt_policy::{Caller, Seen, sees};
use rt_replica::Tables;
use rt_value::{Edit, Row};
use std::sync::ledger::Ledger;

fn of_seen(seen: Seen) -> Verdict
    ensures { result ≡ verdict_of_seen seen }
{
    match seen {
        Seen::Yes => Verdict::Deliver,
        Seen::NoPolicy => Verdict::Denied(Denial::NoPolicy),
        Seen::NonePermits => Verdict::Denied(Denial::NonePermits),
        Seen::Restrictive(n) => Verdict::Denied(Denial::Restrictive(n)),
    }
}

// Whether the subscription's caller sees the row, as the tables are.
fn seen(
    catalog: &Catalog,
    tables: &Tables,
    subscription: &Subscription,
    table: u32,
    row: &Row,
) -> Seen
    ensures { let who = who_is catalog.now subscription.now.role subscription.now.claims in
        result ≡ visibility catalog.now.rules.tables who (rows_of_table tables.now) table row.now }
{
    // The count tells that the rows are in order, so that a walk goes over all of them.
    let _count = tables.rows();
    let caller = Caller {
        role: subscription.role,
        bypass: bypasses(catalog, subscription.role),
        claims: subscription.claims.get(),
    };
    sees(&catalog.rules, &caller, table, row, tables)
}

// What policies say of the row that stands at the change's new key.
fn judged(
    catalog: &Catalog,
    tables: &Tables,
    subscription: &Subscription,
    change: &Change,
) -> Verdict
    ensures { let rows = rows_of_table tables.now in
        result ≡ judged_row catalog.now rows subscription.now change.now }
{
    let Edit::Put { new, .. } = &change.edit else {
        return Verdict::Denied(Denial::RowGone);
    };
    let Some(row) = tables.get(change.table, new) else {
        return Verdict::Denied(Denial::RowGone);
    };
    of_seen(seen(catalog, tables, subscription, change.table, row))
}

// Whether an insert or an update is of a row whose key the role may not SELECT.
fn hides_key(change: &Change, selects_key: bool) -> bool
    ensures { result ≡ (is_written change.now.verb && not selects_key) }
{
    writes(change.verb) && !selects_key
}

// Whether policies have to say something of the change.
fn is_judged(catalog: &Catalog, change: &Change) -> bool
    ensures { result ≡ (is_written change.now.verb && has_security catalog.now change.now.table) }
{
    writes(change.verb) && is_secured(catalog, change.table)
}

// The verdict, where it is known whether the role may SELECT the table's key.
pub fn decided(
    catalog: &Catalog,
    tables: &Tables,
    subscription: &Subscription,
    change: &Change,
    selects_key: bool,
) -> Verdict
    requires { selects_key ≡ selects catalog.now subscription.now.role change.now.table }
    ensures { let rows = rows_of_table tables.now in
        result ≡ verdict_of catalog.now rows subscription.now change.now }
{
    if !asks_for(subscription.wanted, change.verb) {
        return Verdict::Denied(Denial::Event);
    }
    if lacks_key(change) {
        return Verdict::Error400;
    }
    if hides_key(change, selects_key) {
        return Verdict::Error401;
    }
    if !passes_filter(subscription, change) {
        return Verdict::Denied(Denial::Filter);
    }
    if is_judged(catalog, change) {
        return judged(catalog, tables, subscription, change);
    }
    Verdict::Deliver
}

/// What a subscription gets of a change, judged on the tables as they are: the first that applies
/// of an event that isn't asked for, a record without its key, a key that the role may not SELECT,
/// a filter that isn't passed, and what the table's policies say of the row that stands at the
/// change's new key. Takes no memory, and walks the grants for the columns of the table's key.
pub fn verdict(
    catalog: &Catalog,
    tables: &Tables,
    subscription: &Subscription,
    change: &Change,
) -> Verdict
    ensures { let rows = rows_of_table tables.now in
        result ≡ verdict_of catalog.now rows subscription.now change.now }
{
    let selects_key = may_select_key(catalog, subscription.role, change.table);
    decided(catalog, tables, subscription, change, selects_key)
}

/// The verdict, and one more in the count of verdicts.
pub fn judge<L: Ledger>(
    catalog: &Catalog,
    tables: &Tables,
    subscription: &Subscription,
    change: &Change,
    steps: &mut Steps<L>,
) -> Verdict
    ensures verdict { let rows = rows_of_table tables.now in
        result ≡ verdict_of catalog.now rows subscription.now change.now }
    ensures count { steps.new ≡ steps.old + 1 }
{
    steps.tick();
    verdict(catalog, tables, subscription, change)
}
