ghost use Rattle.std.specs.Prelude.{◌≡◌, IfOk};
ghost use Rattle.rt_policy.specs.Worth.{who_of};
ghost use Rattle.rt_policy.specs.Visibility.{visibility};
ghost use Rattle.rt_private.specs.Asked.{use_of};
ghost use Rattle.rt_private.specs.Rights.{join, presence, send, track, right};
ghost use Rattle.rt_private.specs.Rights.{right_of_seen, row_asked};

use crate::access::{caller, may_ask};
use crate::asked::Asked;
use crate::row::row_asked;
use crate::{Messages, Right, Rights};
use rt_catalog::Catalog;
use rt_policy::{Caller, Seen, sees};
use rt_value::{Claims, Db, Text};
use std::alloc::{AllocError, Global};

fn right_of(seen: Seen) -> Right
    ensures { result ≡ right_of_seen seen }
{
    match seen {
        Seen::Yes => Right::Yes,
        Seen::NoPolicy => Right::NoPolicy,
        Seen::NonePermits => Right::NonePermits,
        Seen::Restrictive(number) => Right::Restrictive(number),
    }
}

// What the policies say of the row that is asked of.
fn judged<D: Db>(
    alloc: Global,
    catalog: &Catalog,
    tables: &D,
    messages: &Messages,
    caller: &Caller<'_>,
    topic: &Text,
    asked: Asked,
) -> Result<Right, AllocError>
    ensures { let row = row_asked catalog.now messages.now topic.now (use_of asked) in
        let rules = catalog.now.rules.tables in
        IfOk result (λ r. r ≡ right_of_seen
        (visibility rules (who_of caller.now) (D.rows tables.now) messages.now.table row)) }
{
    let row = row_asked(alloc, catalog, messages, topic, asked)?;
    Ok(right_of(sees(&catalog.rules, caller, messages.table, &row, tables)))
}

const NO_PRIVILEGE: Rights = Rights {
    join: Right::NoPrivilege,
    presence: Right::NoPrivilege,
    send: Right::NoPrivilege,
    track: Right::NoPrivilege,
};

/// What a role with claims may do on a topic, which is named without `realtime:`, by the rows that
/// the tables have. Takes memory for the row that is judged, and for nothing else.
///
/// Errors: memory ran out.
#[tactic(auto, unfolding(crate::specs::Rights::right))]
pub fn rights<D: Db>(
    alloc: Global,
    catalog: &Catalog,
    tables: &D,
    messages: &Messages,
    role: u32,
    claims: &Claims,
    topic: &Text,
) -> Result<Rights, AllocError>
    ensures join { IfOk result (λ r. r.join
        ≡ right catalog.now (D.rows tables.now) messages.now role claims.now topic.now join) }
    ensures presence { IfOk result (λ r. r.presence
        ≡ right catalog.now (D.rows tables.now) messages.now role claims.now topic.now presence) }
    ensures send { IfOk result (λ r. r.send
        ≡ right catalog.now (D.rows tables.now) messages.now role claims.now topic.now send) }
    ensures track { IfOk result (λ r. r.track
        ≡ right catalog.now (D.rows tables.now) messages.now role claims.now topic.now track) }
{
    if !may_ask(catalog, messages, role) {
        return Ok(NO_PRIVILEGE);
    }
    let caller = caller(catalog, role, claims);
    let join = judged(
        alloc,
        catalog,
        tables,
        messages,
        &caller,
        topic,
        Asked::Join,
    )?;
    let presence = judged(
        alloc,
        catalog,
        tables,
        messages,
        &caller,
        topic,
        Asked::Presence,
    )?;
    let send = judged(
        alloc,
        catalog,
        tables,
        messages,
        &caller,
        topic,
        Asked::Send,
    )?;
    let track = judged(
        alloc,
        catalog,
        tables,
        messages,
        &caller,
        topic,
        Asked::Track,
    )?;
    Ok(Rights {
        join,
        presence,
        send,
        track,
    })
}
