//! Objects of few members. What can fail here fails for want of memory alone.
ghost use Rattle.std.specs.Prelude.{◌≡◌, ◌∷◌, [], IfOk};
ghost use Rattle.rt_json.specs.Trees.{field};

use rt_json::Json;
use rt_json::building::{object_tree, put};
use std::alloc::{AllocError, Global};

/// An object of one member.
pub fn object_of_one(alloc: Global, name: &str, value: Json) -> Result<Json, AllocError>
    ensures { IfOk result (λ tree. tree ≡ Json.Object (field name.now value ∷ [])) }
{
    let mut members = Vec::new(alloc);
    put(alloc, &mut members, name, value)?;
    Ok(object_tree(members))
}

/// An object of two members.
pub fn object_of_two(
    alloc: Global,
    first: &str,
    first_value: Json,
    second: &str,
    second_value: Json,
) -> Result<Json, AllocError>
    ensures { IfOk result (λ tree. tree ≡ Json.Object (field first.now first_value
        ∷ field second.now second_value ∷ [])) }
{
    let mut members = Vec::new(alloc);
    put(alloc, &mut members, first, first_value)?;
    put(alloc, &mut members, second, second_value)?;
    Ok(object_tree(members))
}
