ghost use Rattle.std.specs.Prelude.{◌≡◌, ◌==◌, IfOk, slice_index, codes, map, option_and_then};
ghost use Rattle.std.specs.Option.{option_copied};
ghost use Rattle.rt_value.specs.Reading.{uuid_in_text};
ghost use Rattle.rt_json.specs.Lookup.{member_of, members_of};
ghost use Rattle.rt_json.specs.Trees.{text_of, is_object};
ghost use Rattle.rt_json.specs.Written.{written};
ghost use Rattle.rt_token.specs.Answers.{IsAnswer};
ghost use Rattle.rt_token.specs.Claims as spec;
ghost use Rattle.rt_token.specs.Claims.{claims_in_tree, claim_of_member, last_of_each};
ghost use Rattle.rt_token.specs.Trees.{claim_value};

use crate::fault::TokenFault;
use rt_json::{Json, Member, member, write};
use rt_value::{Claim, Claims, List, Text};
use std::alloc::{AllocError, Global};
use std::collections::BTreeSet;
use uuid::Uuid;

/// The greatest `exp`: each second up to it is a double of its own.
const EXP_LIMIT: u64 = 9_007_199_254_740_991;

pub fn is_object(tree: &Json) -> bool
    ensures { result ≡ is_object tree.now }
{
    matches!(tree, Json::Object(_))
}

/// The text under a name.
pub fn text_in<'a>(tree: &'a Json, name: &str) -> Option<&'a Text>
    ensures { option_copied result ≡ option_and_then text_of (member_of tree.now name.now) }
{
    match member(tree, name) {
        Some(Json::Text(text)) => Some(text),
        _ => None,
    }
}

fn has_plus(digits: &str) -> bool
    ensures { result ≡ (slice_index digits.now 0 == 43) }
{
    match digits.as_bytes().first() {
        Some(byte) => *byte == b'+',
        None => false,
    }
}

/// The number of seconds that digits alone write.
fn seconds_in(digits: &str) -> Option<u64>
    ensures { result ≡ spec.seconds_in digits.now }
{
    // `parse` takes a sign too.
    if has_plus(digits) {
        return None;
    }
    match digits.parse::<u64>() {
        Ok(seconds) => {
            if seconds <= EXP_LIMIT {
                Some(seconds)
            } else {
                None
            }
        }
        Err(_) => None,
    }
}

/// The second from which on the claims are no longer valid, where they name one.
pub fn exp_of(tree: &Json) -> Result<Option<u64>, TokenFault>
    ensures { result ≡ spec.exp_of tree.now }
{
    match member(tree, "exp") {
        None => Ok(None),
        Some(Json::Null) => Ok(None),
        Some(Json::Num(digits)) => match seconds_in(digits.get()) {
            Some(seconds) => Ok(Some(seconds)),
            None => Err(TokenFault::Shape),
        },
        Some(_) => Err(TokenFault::Shape),
    }
}

/// The uuid that a text reads as.
fn uuid_in(text: &str) -> Option<u128>
    ensures { result ≡ uuid_in_text text.now }
{
    match Uuid::parse_str(text) {
        Ok(uuid) => Some(uuid.as_u128()),
        Err(_) => None,
    }
}

fn sub_of(tree: &Json) -> Option<u128>
    ensures { result
        ≡ option_and_then uuid_in_text (option_and_then text_of (member_of tree.now (codes "sub"))) }
{
    match text_in(tree, "sub") {
        Some(text) => uuid_in(text.get()),
        None => None,
    }
}

/// The one spelling of a list or an object, as a text.
fn spelling(alloc: Global, tree: &Json) -> Result<Text, AllocError>
    ensures { IfOk result (λ text. text ≡ written tree.now) }
{
    let bytes = write(alloc, tree)?;
    match String::from_utf8(bytes.into_inner()) {
        Ok(text) => Ok(Text::new(text)),
        Err(_) => unreachable!(),
    }
}

/// A claim as a text.
fn value_of(alloc: Global, tree: &Json) -> Result<Option<Text>, AllocError>
    ensures { IfOk result (λ value. value ≡ claim_value tree.now) }
{
    match tree {
        Json::Null => Ok(None),
        Json::Text(text) => Ok(Some(text.copy(alloc)?)),
        Json::Num(digits) => Ok(Some(digits.copy(alloc)?)),
        Json::Bool(true) => Ok(Some(Text::new(String::from_str(alloc, "true")?))),
        Json::Bool(false) => Ok(Some(Text::new(String::from_str(alloc, "false")?))),
        Json::List(_) | Json::Object(_) => Ok(Some(spelling(alloc, tree)?)),
    }
}

fn claim_of(alloc: Global, member: &Member) -> Result<Claim, AllocError>
    ensures { IfOk result (λ claim. claim ≡ claim_of_member member.now) }
{
    Ok(Claim {
        name: member.name.copy(alloc)?,
        value: value_of(alloc, &member.value)?,
    })
}

/// The claims of an object's members, of a name that comes again the last.
fn claims_in(alloc: Global, members: &[Member]) -> Result<List<Claim>, AllocError>
    ensures { IfOk result (λ claims. claims ≡ map claim_of_member (last_of_each members.now)) }
{
    let mut names = BTreeSet::new(alloc);
    let mut claims = Vec::new(alloc);
    let mut at = members.len();
    while at > 0 {
        at -= 1;
        let member = &members[at];
        if names.insert(member.name.get())? {
            claims.push(claim_of(alloc, member)?)?;
        }
    }
    claims.reverse();
    Ok(List::new(claims))
}

/// The claims of a tree's members, none where it is no object.
fn members_in(alloc: Global, tree: &Json) -> Result<List<Claim>, AllocError>
    ensures { IfOk result (λ claims. claims ≡ map claim_of_member (last_of_each (members_of tree.now))) }
{
    match tree {
        Json::Object(members) => claims_in(alloc, members.get()),
        _ => claims_in(alloc, &[]),
    }
}

/// The claims of an object, `exp` being read.
pub fn with_role(alloc: Global, tree: &Json, exp: Option<u64>) -> Result<Claims, TokenFault>
    ensures { IsAnswer (spec.with_role tree.now exp) result }
{
    let Some(role) = text_in(tree, "role") else {
        return Err(TokenFault::NoRole);
    };
    Ok(Claims {
        role: role.copy(alloc)?,
        sub: sub_of(tree),
        exp,
        members: members_in(alloc, tree)?,
    })
}

/// The claims of a tree (RFC 7519, "JWT Claims"): its `role`, its `sub` where that is a text that reads as a uuid, its `exp`, and
/// every member with its value as a text, of a name that comes again the last.
///
/// Fails with `Shape` where the tree is no object, or `exp` is there, isn't null and isn't digits alone of at most
/// 9007199254740991, else with `NoRole` where `role` isn't a text, or for want of memory.
#[tactic(auto, unfolding(crate::specs::Claims::claims_in_tree))]
pub fn claims_of(alloc: Global, tree: &Json) -> Result<Claims, TokenFault>
    ensures { IsAnswer (claims_in_tree tree.now) result }
{
    if !is_object(tree) {
        return Err(TokenFault::Shape);
    }
    let exp = exp_of(tree)?;
    with_role(alloc, tree, exp)
}
