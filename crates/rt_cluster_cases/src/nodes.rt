use case_lines::text_of;
use rt_cluster::{Delta, Replica};
use rt_json::{Json, read, write};
use rt_value::Text;
use std::alloc::{AllocError, Global};
use std::io;

/// Nodes, and what their operations told.
#[derive(Drop)]
pub struct Nodes {
    replicas: Vec<Replica>,
    told: Vec<Delta>,
}

/// A text of these characters.
fn text(alloc: Global, text: &str) -> Result<Text, AllocError> {
    Ok(Text::new(String::from_str(alloc, text)?))
}

impl Nodes {
    pub fn new(alloc: Global) -> Self {
        Nodes {
            replicas: Vec::new(alloc),
            told: Vec::new(alloc),
        }
    }

    /// So many nodes, where there is none yet; whether that was so.
    pub fn begin(&mut self, alloc: Global, count: u32) -> Result<bool, AllocError> {
        if !self.replicas.is_empty() || count == 0 || count > 16 {
            return Ok(false);
        }
        for node in 0..count {
            self.replicas.push(Replica::new(alloc, node))?;
        }
        Ok(true)
    }

    pub fn has(&self, node: u32) -> bool {
        (node as usize) < self.replicas.len()
    }

    fn tell(&mut self, delta: Delta) -> Result<bool, AllocError> {
        self.told.push(delta)?;
        Ok(true)
    }

    /// Each of these answers whether the node is there, and the tree is one.
    pub fn track(
        &mut self,
        alloc: Global,
        node: u32,
        place: (&str, &str),
        json: &str,
    ) -> Result<bool, AllocError> {
        let Ok(tree) = read(alloc, json.as_bytes()) else {
            return Ok(false);
        };
        let Some(replica) = self.replicas.get_mut(node as usize) else {
            return Ok(false);
        };
        if replica.made() == u32::MAX {
            return Ok(false);
        }
        let topic = text(alloc, place.0)?;
        let key = text(alloc, place.1)?;
        let delta = replica.track(alloc, &topic, &key, tree)?;
        self.tell(delta)
    }

    pub fn untrack(
        &mut self,
        alloc: Global,
        node: u32,
        place: (&str, &str),
    ) -> Result<bool, AllocError> {
        let Some(replica) = self.replicas.get_mut(node as usize) else {
            return Ok(false);
        };
        let topic = text(alloc, place.0)?;
        let key = text(alloc, place.1)?;
        let delta = replica.untrack(alloc, &topic, &key)?;
        self.tell(delta)
    }

    pub fn drop_node(&mut self, alloc: Global, node: u32, other: u32) -> Result<bool, AllocError> {
        if !self.has(other) {
            return Ok(false);
        }
        let Some(replica) = self.replicas.get_mut(node as usize) else {
            return Ok(false);
        };
        let delta = replica.drop_node(alloc, other)?;
        self.tell(delta)
    }

    pub fn give(&mut self, alloc: Global, operation: u32, node: u32) -> Result<bool, AllocError> {
        let Some(delta) = self.told.get(operation as usize) else {
            return Ok(false);
        };
        let Some(replica) = self.replicas.get_mut(node as usize) else {
            return Ok(false);
        };
        replica.merge(alloc, delta)?;
        Ok(true)
    }

    pub fn sync(&mut self, alloc: Global, from: u32, to: u32) -> Result<bool, AllocError> {
        let Some(source) = self.replicas.get(from as usize) else {
            return Ok(false);
        };
        let delta = source.whole(alloc)?;
        let Some(replica) = self.replicas.get_mut(to as usize) else {
            return Ok(false);
        };
        replica.merge(alloc, &delta)?;
        Ok(true)
    }

    /// The state of a topic, as it is written; None where the node isn't there.
    pub fn show(&self, alloc: Global, node: u32, topic: &str) -> io::Result<Option<String>> {
        let Some(replica) = self.replicas.get(node as usize) else {
            return Ok(None);
        };
        let topic = text(alloc, topic)?;
        let tree = replica.state(alloc, &topic)?;
        Ok(Some(spelled(alloc, &tree)?))
    }
}

fn spelled(alloc: Global, tree: &Json) -> io::Result<String> {
    let bytes = write(alloc, tree)?;
    Ok(String::from_str(alloc, text_of(bytes.get())?)?)
}
