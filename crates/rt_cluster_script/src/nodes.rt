ghost use Rattle.std.specs.Prelude.{◌≡◌, IfOk, ◌++◌, ◌∷◌, [], replicate};
ghost use Rattle.std.specs.Fmt.{decimal};
ghost use Rattle.rt_json.specs.Written.{written};
ghost use Rattle.rt_cluster.specs.Operations.{tracked, untracked, dropped};
ghost use Rattle.rt_cluster_script.specs.Script.{State, step, step_by, begins, tracks, untracks, drops};
ghost use Rattle.rt_cluster_script.specs.Script.{gives, syncs, shows, does, begun, given, synced, shown, dropped_by};
ghost use Rattle.rt_cluster_script.specs.Agreeing.{Agrees, AllFit, Leads};

use crate::words::{node_and_rest, topic_and_rest, two_numbers};
use rt_cluster::{Delta, Replica};
use rt_json::{Json, JsonFault, read, write_behind};
use rt_lines::{number_of, parted};
use rt_value::Text;
use std::alloc::{AllocError, Global};

/// What each node knows, what each operation told, and what was shown.
#[derive(Drop)]
pub struct Nodes {
    pub replicas: Vec<Replica>,
    pub told: Vec<Delta>,
    pub shown: Vec<u8>,
}

fn text_of(alloc: Global, text: &str) -> Result<Text, AllocError>
    ensures { IfOk result (λ t. t ≡ text.now) }
{
    Ok(Text::new(String::from_str(alloc, text)?))
}

// So many nodes that know nothing.
fn new_nodes(alloc: Global, count: u32) -> Result<Vec<Replica>, AllocError>
    ensures { IfOk result (λ replicas. AllFit [] 0 replicas.items (replicate count [])) }
{
    let mut replicas = Vec::new(alloc);
    for node in 0..count {
        replicas.push(Replica::new(alloc, node))?;
    }
    Ok(replicas)
}

// The line that shows a tree of a topic.
fn line_shown(alloc: Global, node: u64, topic: &str, tree: &Json) -> Result<Vec<u8>, AllocError>
    ensures { IfOk result (λ line. line.items
        ≡ decimal node ++ 32 ∷ topic.now ++ 32 ∷ written tree.now ++ 10 ∷ []) }
{
    let mut line = Vec::new(alloc);
    line.extend_from_slice(format!(in alloc; "{node} {topic} ")?.as_bytes())?;
    let mut line = write_behind(line, tree)?;
    line.push(b'\n')?;
    Ok(line)
}

impl Nodes {
    // So many nodes, where there is none yet. Nothing is told then.
    fn begin(&mut self, alloc: Global, text: &str) -> Result<bool, AllocError>
        ensures { IfOk result (Leads self.old self.new (λ st. begins st text.now)) }
    {
        let Some(count) = number_of(text) else {
            return Ok(false);
        };
        if !self.replicas.is_empty() || count == 0 || count > 16 {
            return Ok(false);
        }
        self.replicas = new_nodes(alloc, count as u32)?;
        self.told = Vec::new(alloc);
        Ok(true)
    }

    fn track_at(
        &mut self,
        alloc: Global,
        node: u64,
        topic: &str,
        key: &str,
        tree: Json,
    ) -> Result<bool, AllocError>
        ensures { IfOk result (Leads self.old self.new
            (λ st. does st node (tracked node topic.now key.now tree))) }
    {
        let topic = text_of(alloc, topic)?;
        let key = text_of(alloc, key)?;
        match self.replicas.get_mut(node as usize) {
            None => Ok(false),
            Some(replica) => {
                // So many tracks, whose deltas no memory holds, are all that a node can make.
                if replica.made() == u32::MAX {
                    return Err(AllocError);
                }
                let delta = replica.track(alloc, &topic, &key, tree)?;
                self.told.push(delta)?;
                Ok(true)
            }
        }
    }

    fn track(&mut self, alloc: Global, text: &str) -> Result<bool, AllocError>
        ensures { IfOk result (Leads self.old self.new (λ st. tracks st text.now)) }
    {
        let Some(place) = topic_and_rest(text) else {
            return Ok(false);
        };
        let Some((key, json)) = parted(place.rest) else {
            return Ok(false);
        };
        match read(alloc, json.as_bytes()) {
            Ok(tree) => self.track_at(alloc, place.node, place.topic, key, tree),
            Err(JsonFault::NoMemory) => Err(AllocError),
            Err(_) => Ok(false),
        }
    }

    fn untrack(&mut self, alloc: Global, text: &str) -> Result<bool, AllocError>
        ensures { IfOk result (Leads self.old self.new (λ st. untracks st text.now)) }
    {
        let Some(place) = topic_and_rest(text) else {
            return Ok(false);
        };
        let topic = text_of(alloc, place.topic)?;
        let key = text_of(alloc, place.rest)?;
        match self.replicas.get_mut(place.node as usize) {
            None => Ok(false),
            Some(replica) => {
                let delta = replica.untrack(alloc, &topic, &key)?;
                self.told.push(delta)?;
                Ok(true)
            }
        }
    }

    fn drop_at(&mut self, alloc: Global, node: u64, other: u64) -> Result<bool, AllocError>
        ensures { IfOk result (Leads self.old self.new (λ st. dropped_by st node other)) }
    {
        if other >= self.replicas.len() as u64 {
            return Ok(false);
        }
        // No memory holds so many nodes.
        if other > 4294967295 {
            return Err(AllocError);
        }
        match self.replicas.get_mut(node as usize) {
            None => Ok(false),
            Some(replica) => {
                let delta = replica.drop_node(alloc, other as u32)?;
                self.told.push(delta)?;
                Ok(true)
            }
        }
    }

    fn drop_node(&mut self, alloc: Global, text: &str) -> Result<bool, AllocError>
        ensures { IfOk result (Leads self.old self.new (λ st. drops st text.now)) }
    {
        match two_numbers(text) {
            None => Ok(false),
            Some((node, other)) => self.drop_at(alloc, node, other),
        }
    }

    fn give_to(&mut self, alloc: Global, operation: u64, node: u64) -> Result<bool, AllocError>
        ensures { IfOk result (Leads self.old self.new (λ st. given st operation node)) }
    {
        let Some(delta) = self.told.get(operation as usize) else {
            return Ok(false);
        };
        match self.replicas.get_mut(node as usize) {
            None => Ok(false),
            Some(replica) => {
                replica.merge(alloc, delta)?;
                Ok(true)
            }
        }
    }

    fn give(&mut self, alloc: Global, text: &str) -> Result<bool, AllocError>
        ensures { IfOk result (Leads self.old self.new (λ st. gives st text.now)) }
    {
        match two_numbers(text) {
            None => Ok(false),
            Some((operation, node)) => self.give_to(alloc, operation, node),
        }
    }

    fn sync_to(&mut self, alloc: Global, from: u64, to: u64) -> Result<bool, AllocError>
        ensures { IfOk result (Leads self.old self.new (λ st. synced st from to)) }
    {
        let Some(source) = self.replicas.get(from as usize) else {
            return Ok(false);
        };
        let delta = source.whole(alloc)?;
        match self.replicas.get_mut(to as usize) {
            None => Ok(false),
            Some(replica) => {
                replica.merge(alloc, &delta)?;
                Ok(true)
            }
        }
    }

    fn sync(&mut self, alloc: Global, text: &str) -> Result<bool, AllocError>
        ensures { IfOk result (Leads self.old self.new (λ st. syncs st text.now)) }
    {
        match two_numbers(text) {
            None => Ok(false),
            Some((from, to)) => self.sync_to(alloc, from, to),
        }
    }

    fn show_at(&mut self, alloc: Global, node: u64, topic: &str) -> Result<bool, AllocError>
        ensures { IfOk result (Leads self.old self.new (λ st. shown st node topic.now)) }
    {
        let name = text_of(alloc, topic)?;
        let Some(replica) = self.replicas.get(node as usize) else {
            return Ok(false);
        };
        let tree = replica.state(alloc, &name)?;
        let line = line_shown(alloc, node, topic, &tree)?;
        self.shown.extend_from_slice(line.as_slice())?;
        Ok(true)
    }

    fn show(&mut self, alloc: Global, text: &str) -> Result<bool, AllocError>
        ensures { IfOk result (Leads self.old self.new (λ st. shows st text.now)) }
    {
        match node_and_rest(text) {
            None => Ok(false),
            Some((node, topic)) => self.show_at(alloc, node, topic),
        }
    }

    fn take_by(&mut self, alloc: Global, verb: &str, rest: &str) -> Result<bool, AllocError>
        ensures { IfOk result (Leads self.old self.new (λ st. step_by st verb.now rest.now)) }
    {
        if verb == "nodes" {
            self.begin(alloc, rest)
        } else if verb == "track" {
            self.track(alloc, rest)
        } else if verb == "untrack" {
            self.untrack(alloc, rest)
        } else if verb == "drop" {
            self.drop_node(alloc, rest)
        } else if verb == "give" {
            self.give(alloc, rest)
        } else if verb == "sync" {
            self.sync(alloc, rest)
        } else if verb == "show" {
            self.show(alloc, rest)
        } else {
            Ok(false)
        }
    }

    /// Does what a line says; whether it is one.
    pub fn take(&mut self, alloc: Global, line: &str) -> Result<bool, AllocError>
        ensures { IfOk result (Leads self.old self.new (λ st. step st line.now)) }
    {
        match parted(line) {
            None => Ok(false),
            Some((verb, rest)) => self.take_by(alloc, verb, rest),
        }
    }
}
