//! What a catalogue's lists say of a role.
ghost use Rattle.std.specs.Prelude.{◌≡◌};
ghost use Rattle.rt_catalog.specs.Access.{is_or_every, permits, may_select, bypasses, who_is};
ghost use Rattle.rt_policy.specs.Worth.{who_of};
ghost use Rattle.rt_private.specs.Rights.{may_ask};

use crate::Messages;
use rt_catalog::{Catalog, Grant};
use rt_policy::Caller;
use rt_value::Claims;

fn is_or_every(said: Option<u32>, number: u32) -> bool
    ensures { result ≡ is_or_every said number }
{
    match said {
        None => true,
        Some(only) => only == number,
    }
}

fn permits(grant: &Grant, role: u32, table: u32, column: u32) -> bool
    ensures { result ≡ permits role table column grant.now }
{
    grant.table == table && is_or_every(grant.column, column) && is_or_every(grant.role, role)
}

fn may_select(catalog: &Catalog, role: u32, table: u32, column: u32) -> bool
    ensures { result ≡ may_select catalog.now role table column }
{
    let grants = catalog.grants.get();
    grants
        .iter()
        .any(|grant| permits(grant, role, table, column))
}

/// Whether the role may SELECT each of the three columns.
pub fn may_ask(catalog: &Catalog, messages: &Messages, role: u32) -> bool
    ensures { result ≡ may_ask catalog.now messages.now role }
{
    may_select(catalog, role, messages.table, messages.topic)
        && may_select(catalog, role, messages.table, messages.extension)
        && may_select(catalog, role, messages.table, messages.action)
}

fn bypasses(catalog: &Catalog, role: u32) -> bool
    ensures { result ≡ bypasses catalog.now role }
{
    match catalog.roles.get().get(role as usize) {
        None => false,
        Some(role) => role.bypass,
    }
}

/// Who asks, by its role and claims.
pub fn caller<'a>(catalog: &Catalog, role: u32, claims: &'a Claims) -> Caller<'a>
    ensures { who_of result ≡ who_is catalog.now role claims.now }
{
    Caller {
        role,
        bypass: bypasses(catalog, role),
        claims,
    }
}
