//! What the bindings of a channel mean under claims.
ghost use Rattle.std.specs.Prelude.{◌≡◌, ◌⊎◌, Ok, Err, IfOk, IfErr};
ghost use Rattle.rt_registry.specs.Bindings.{all_from, bindings_for};
ghost use Rattle.rt_roster.specs.Meant.{meant, told};

use crate::lookup::role_number;
use crate::meaning::{meaning_of_binding, narrow};
use rt_catalog::Catalog;
use rt_registry::{Binding, RegistryFault, Subscribed};
use rt_value::{Claims, List};
use std::alloc::{AllocError, Global};

/// The most bindings of a join.
const BINDING_LIMIT: usize = 100;

/// What each of the bindings means for a role, or the first reason against them.
#[tactic(auto, using(crate::proofs::Meanings::meant_none, crate::proofs::Meanings::meant_more, crate::proofs::Meanings::meant_bad, crate::proofs::Meanings::meant_all))]
fn all_of(
    alloc: Global,
    catalog: &Catalog,
    role: u32,
    bindings: &[Binding],
) -> Result<Result<List<Subscribed>, RegistryFault>, AllocError>
    ensures { IfOk result (λ r. r ≡ told (all_from catalog.now role 1 bindings.now)) }
{
    let mut subscribed = Vec::with_capacity(alloc, bindings.len())?;
    for (place, binding) in bindings.iter().enumerate() {
        match meaning_of_binding(alloc, catalog, role, binding)? {
            Ok(meaning) => subscribed.push(meaning)?,
            Err(why) => return Ok(Err(RegistryFault::BadBinding { n: place + 1, why })),
        }
    }
    Ok(Ok(List::new(subscribed)))
}

/// The role of the claims, and what the bindings mean for it, or the first reason against them.
#[tactic(auto, unfolding(rt_registry::specs::Bindings::bindings_for))]
pub fn meant(
    alloc: Global,
    catalog: &Catalog,
    claims: &Claims,
    bindings: &[Binding],
) -> Result<Result<(u32, List<Subscribed>), RegistryFault>, AllocError>
    ensures { IfOk result (λ r. r ≡ meant catalog.now claims.now bindings.now) }
{
    let Some(role) = role_number(catalog, &claims.role) else {
        return Ok(Err(RegistryFault::UnknownRole));
    };
    let n = bindings.len();
    if n > BINDING_LIMIT {
        return Ok(Err(RegistryFault::Limit { n }));
    }
    let role = narrow(role)?;
    match all_of(alloc, catalog, role, bindings)? {
        Ok(subscribed) => Ok(Ok((role, subscribed))),
        Err(fault) => Ok(Err(fault)),
    }
}

/// What the bindings of a channel mean under claims.
///
/// Errors, the first that applies: `UnknownRole` where the catalogue has no role of the claims'
/// name, `Limit` where there are more than 100 bindings, `BadBinding` with the first bad one, counted from
/// 1, and the first reason against it. `NoMemory` where memory runs out; a role or a table whose
/// number isn't below 2^32 counts as that.
#[tactic(auto, unfolding(rt_registry::specs::Bindings::bindings_for))]
pub fn bindings_for(
    alloc: Global,
    catalog: &Catalog,
    claims: &Claims,
    bindings: &[Binding],
) -> Result<List<Subscribed>, RegistryFault>
    ensures ok { IfOk result (λ ss.
        bindings_for catalog.now claims.now bindings.now ≡ Ok ss) }
    ensures err { IfErr result (λ e. (e ≡ RegistryFault.NoMemory)
        ⊎ (told (bindings_for catalog.now claims.now bindings.now) ≡ Err e)) }
{
    match meant(alloc, catalog, claims, bindings) {
        Ok(Ok((_, subscribed))) => Ok(subscribed),
        Ok(Err(fault)) => Err(fault),
        Err(AllocError) => Err(RegistryFault::NoMemory),
    }
}
