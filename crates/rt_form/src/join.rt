ghost use Rattle.std.specs.Prelude.{◌≡◌, ◌↔◌, ◌++◌, ◌<◌, ℕ, List, codes, length, false, IfOk};
ghost use Rattle.std.specs.Prelude.{IsTrue, MatchOption, MatchResult};
ghost use Rattle.rt_json.specs.Grammar.{IsJson};
ghost use Rattle.rt_json.specs.declared.tree.Json as j;
ghost use Rattle.rt_json.specs.declared.tree.named.Member as m;
ghost use Rattle.rt_form.specs.Faults.{of_json};
ghost use Rattle.rt_form.specs.Messages.{wanted_binding};
ghost use Rattle.rt_form.specs.Script.{AreNamed, IsChannel, IsJoin, IsJoinTree, bindings_tree};
ghost use Rattle.rt_form.specs.Script.{config_tree, frame_tree, join_tree, payload_tree};
ghost use Rattle.rt_form.specs.Script.{presence_tree};
ghost use Rattle.rt_form.specs.declared.script.Join as join;

use crate::Join;
use crate::fault::FormFault;
use crate::shapes::{
    first_named, first_text, members_of, only_element, only_value, text_of, two_values,
};
use rt_json::{Json, JsonFault, Member, read};
use rt_value::Text;
use std::alloc::Global;

/// The most bytes of a frame.
const MOST_FRAME_BYTES: usize = 1048576;

/// What the topic of a channel begins with.
const TOPIC_PREFIX: &str = "realtime:";

/// The members behind those of a binding to every event of the table.
fn behind_binding<'a>(tree: &'a Json, table: &str) -> Option<&'a [Member]>
    ensures { MatchOption result ((rest : List m.Member)
        → tree.now ≡ Json.Object (wanted_binding table.now ++ rest) → ⊥)
        (λ rest. tree.now ≡ Json.Object (wanted_binding table.now ++ rest.now)) }
{
    let rest = first_text(members_of(tree)?, "event", "*")?;
    let rest = first_text(rest, "schema", "public")?;
    let rest = first_text(rest, "table", table)?;
    Some(rest)
}

/// A binding to every event of the table.
fn is_binding(tree: &Json, table: &str) -> bool
    ensures { IsTrue result ↔ (tree.now ≡ Json.Object (wanted_binding table.now)) }
{
    match behind_binding(tree, table) {
        Some(rest) => rest.is_empty(),
        None => false,
    }
}

fn is_false(tree: &Json) -> bool
    ensures { IsTrue result ↔ (tree.now ≡ Json.Bool false) }
{
    match tree {
        Json::Bool(false) => true,
        _ => false,
    }
}

fn is_off(presence: &Json) -> bool
    ensures { IsTrue result ↔ (presence.now ≡ presence_tree) }
{
    match only_value(presence, "enabled") {
        Some(enabled) => is_false(enabled),
        None => false,
    }
}

fn is_one_binding(tree: &Json, table: &str) -> bool
    ensures { IsTrue result ↔ (tree.now ≡ bindings_tree table.now) }
{
    match only_element(tree) {
        Some(binding) => is_binding(binding, table),
        None => false,
    }
}

fn is_config(tree: &Json, table: &str) -> bool
    ensures { IsTrue result ↔ (tree.now ≡ config_tree table.now) }
{
    match two_values(tree, "presence", "postgres_changes") {
        Some((presence, changes)) => is_off(presence) && is_one_binding(changes, table),
        None => false,
    }
}

fn is_payload(tree: &Json, table: &str) -> bool
    ensures { IsTrue result ↔ (tree.now ≡ payload_tree table.now) }
{
    match only_value(tree, "config") {
        Some(config) => is_config(config, table),
        None => false,
    }
}

/// The topic, the payload and the ref of a frame that joins.
fn frame_parts(tree: &Json) -> Option<(&Json, &Json, &Json)>
    ensures { MatchOption result ((topic payload reference : j.Json)
        → tree.now ≡ frame_tree topic payload reference → ⊥)
        (λ parts. tree.now ≡ frame_tree parts.0.now parts.1.now parts.2.now) }
{
    let (topic, rest) = first_named(members_of(tree)?, "topic")?;
    let rest = first_text(rest, "event", "phx_join")?;
    let (payload, rest) = first_named(rest, "payload")?;
    let (reference, rest) = first_named(rest, "ref")?;
    if rest.is_empty() {
        Some((topic, payload, reference))
    } else {
        None
    }
}

/// The texts of a join: its topic, and what the client calls the frame.
fn texts_of<'a>(tree: &'a Json, table: &str) -> Option<(&'a Text, &'a Text)>
    ensures { MatchOption result ((topic reference : List ℕ)
        → tree.now ≡ join_tree topic reference table.now → ⊥)
        (λ texts. tree.now ≡ join_tree texts.0.now texts.1.now table.now) }
{
    let (topic, payload, reference) = frame_parts(tree)?;
    let topic = text_of(topic)?;
    let reference = text_of(reference)?;
    if is_payload(payload, table) {
        Some((topic, reference))
    } else {
        None
    }
}

/// The channel of a topic, which isn't empty.
fn channel_of(topic: &str) -> Option<&str>
    ensures { MatchOption result ((channel : List ℕ) → IsChannel topic.now channel → ⊥)
        (λ channel. IsChannel topic.now channel.now) }
{
    let channel = topic.strip_prefix(TOPIC_PREFIX)?;
    if channel.is_empty() {
        None
    } else {
        Some(channel)
    }
}

/// The topic, the channel and the ref of a join.
fn names_of<'a>(tree: &'a Json, table: &str) -> Option<(&'a Text, &'a str, &'a Text)>
    ensures { MatchOption result ((topic channel reference : List ℕ)
        → AreNamed table.now tree.now topic channel reference → ⊥)
        (λ names. AreNamed table.now tree.now names.0.now names.1.now names.2.now) }
{
    let (topic, reference) = texts_of(tree, table)?;
    let channel = channel_of(topic.get())?;
    Some((topic, channel, reference))
}

/// The join that a tree is.
fn join_from(alloc: Global, tree: &Json, table: &str) -> Result<Join, FormFault>
    ensures found { IfOk result (λ join. IsJoinTree table.now tree.now join) }
    ensures only { (join : join.Join) → IsJoinTree table.now tree.now join
        → MatchResult result (λ found. found ≡ join) (λ fault. fault ≡ FormFault.NoMemory) }
{
    match names_of(tree, table) {
        Some((topic, channel, reference)) => {
            let topic = topic.copy(alloc)?;
            let channel = Text::new(String::from_str(alloc, channel)?);
            let reference = reference.copy(alloc)?;
            Ok(Join {
                topic,
                channel,
                reference,
            })
        }
        None => Err(FormFault::NotBuilt),
    }
}

/// The join that a frame is. `NotBuilt` where it is none of the built form, presence disabled and
/// one binding.
pub fn join_of(alloc: Global, frame: &str, table: &str) -> Result<Join, FormFault>
    ensures found { IfOk result (λ join. IsJoin table.now frame.now join) }
    ensures only { (join : join.Join) → IsJoin table.now frame.now join
        → MatchResult result (λ found. found ≡ join) (λ fault. fault ≡ FormFault.NoMemory) }
{
    if frame.len() > MOST_FRAME_BYTES {
        return Err(FormFault::NotBuilt);
    }
    let tree = tree_of(alloc, frame)?;
    join_from(alloc, &tree, table)
}

fn of_json(fault: JsonFault) -> FormFault
    ensures { result ≡ of_json fault }
{
    match fault {
        JsonFault::NoMemory => FormFault::NoMemory,
        JsonFault::Bad { at: _ } => FormFault::NotBuilt,
        JsonFault::TooDeep { at: _ } => FormFault::NotBuilt,
    }
}

/// The tree of a JSON text. `NotBuilt` where it is none.
pub fn tree_of(alloc: Global, text: &str) -> Result<Json, FormFault>
    ensures found { IfOk result (λ tree. IsJson text.now tree) }
    ensures only { (tree : j.Json) → IsJson text.now tree
        → MatchResult result (λ found. found ≡ tree) (λ fault. fault ≡ FormFault.NoMemory) }
{
    match read(alloc, text.as_bytes()) {
        Ok(tree) => Ok(tree),
        Err(fault) => Err(of_json(fault)),
    }
}
