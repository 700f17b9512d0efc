ghost use Rattle.std.specs.Prelude.{◌≡◌, MatchOption, None, Some};
ghost use Rattle.rt_json.specs.Lookup.{member_of, last_named};

use crate::tree::Json;
use crate::tree::named::Member;

fn last_named<'a>(members: &'a [Member], name: &str) -> Option<&'a Json>
    ensures { MatchOption result (last_named name.now members.now ≡ None) (λ tree. last_named name.now members.now ≡ Some tree.now) }
{
    let mut at = members.len();
    while at > 0 {
        at -= 1;
        if members[at].name.get() == name {
            return Some(&members[at].value);
        }
    }
    None
}

/// The value of the last member of the name; None where there is none, or the tree is no object.
pub fn member<'a>(tree: &'a Json, name: &str) -> Option<&'a Json>
    ensures { MatchOption result (member_of tree.now name.now ≡ None) (λ found. member_of tree.now name.now ≡ Some found.now) }
{
    match tree {
        Json::Object(members) => last_named(members.get(), name),
        _ => None,
    }
}
