use crate::model::{Deed, KEYS, Model, Shown, TOPICS};
use rt_cluster::{Delta, Dot, Replica};
use rt_json::{read, write};
use rt_value::Text;
use std::alloc::{AllocError, Global};
use std::io;

/// How many nodes there are.
pub(crate) const COUNT: u32 = 5;

/// A replica, and the plain model of what its node knows.
#[derive(Drop)]
struct Node {
    replica: Replica,
    model: Model,
}

/// What an operation told, and what it did.
#[derive(Drop)]
struct Told {
    delta: Delta,
    deed: Deed,
}

/// The nodes, all that was told, and counts of what was done.
#[derive(Drop)]
pub(crate) struct Nodes {
    nodes: Vec<Node>,
    told: Vec<Told>,
    given: u32,
    compared: u32,
    differing: u32,
}

fn failed<T>() -> io::Result<T> {
    Err(io::ErrorKind::InvalidInput.into())
}

fn topic_text(alloc: Global, topic: u32) -> Result<Text, AllocError> {
    Ok(Text::new(format!(in alloc; "t{topic}")?))
}

fn key_text(alloc: Global, key: u32) -> Result<Text, AllocError> {
    Ok(Text::new(format!(in alloc; "k{key}")?))
}

fn place_of(word: u32) -> (u32, u32) {
    (word % TOPICS, (word >> 4) % KEYS)
}

fn shown_state(alloc: Global, replica: &Replica, topic: u32) -> io::Result<String> {
    let topic = topic_text(alloc, topic)?;
    let tree = replica.state(alloc, &topic)?;
    let bytes = write(alloc, &tree)?;
    match str::from_utf8(bytes.get()) {
        Ok(text) => Ok(String::from_str(alloc, text)?),
        Err(_) => failed(),
    }
}

impl Nodes {
    /// Nodes that know nothing.
    pub(crate) fn new(alloc: Global) -> io::Result<Self> {
        let mut nodes = Vec::new(alloc);
        for number in 0..COUNT {
            nodes.push(Node {
                replica: Replica::new(alloc, number),
                model: Model::new(alloc),
            })?;
        }
        Ok(Nodes {
            nodes,
            told: Vec::new(alloc),
            given: 0,
            compared: 0,
            differing: 0,
        })
    }

    /// How many operations there were.
    pub(crate) fn told(&self) -> usize {
        self.told.len()
    }

    /// How many deltas were given.
    pub(crate) fn given(&self) -> u32 {
        self.given
    }

    /// How many states were compared.
    pub(crate) fn compared(&self) -> u32 {
        self.compared
    }

    /// How many of those differed.
    pub(crate) fn differing(&self) -> u32 {
        self.differing
    }

    /// The node tracks a value. The word says under which key of which topic.
    pub(crate) fn track(
        &mut self,
        alloc: Global,
        node: u32,
        word: u32,
        value: u32,
    ) -> io::Result<()> {
        let (topic, key) = place_of(word);
        let Some(own) = self.nodes.get_mut(node as usize) else {
            return failed();
        };
        let made = own.replica.made();
        if made == u32::MAX {
            return failed();
        }
        let json = format!(in alloc; "{{\"v\":{value}}}")?;
        let Ok(tree) = read(alloc, json.as_bytes()) else {
            return failed();
        };
        let topic_name = topic_text(alloc, topic)?;
        let key_name = key_text(alloc, key)?;
        let delta = own.replica.track(alloc, &topic_name, &key_name, tree)?;
        let gone = own.model.dots(alloc, node, Some((topic, key)))?;
        let dot = Dot {
            node,
            number: made + 1,
        };
        let shown = Shown { topic, key, value };
        let deed = Deed {
            made: Some((dot, shown)),
            gone,
        };
        own.model.hear(&deed)?;
        Ok(self.told.push(Told { delta, deed })?)
    }

    /// The node ends what it tracks under the key of the topic that the word says.
    pub(crate) fn untrack(&mut self, alloc: Global, node: u32, word: u32) -> io::Result<()> {
        let (topic, key) = place_of(word);
        let Some(own) = self.nodes.get_mut(node as usize) else {
            return failed();
        };
        let topic_name = topic_text(alloc, topic)?;
        let key_name = key_text(alloc, key)?;
        let delta = own.replica.untrack(alloc, &topic_name, &key_name)?;
        let gone = own.model.dots(alloc, node, Some((topic, key)))?;
        let deed = Deed { made: None, gone };
        own.model.hear(&deed)?;
        Ok(self.told.push(Told { delta, deed })?)
    }

    /// The node removes what the other shows.
    pub(crate) fn drop_node(&mut self, alloc: Global, node: u32, other: u32) -> io::Result<()> {
        let Some(own) = self.nodes.get_mut(node as usize) else {
            return failed();
        };
        let delta = own.replica.drop_node(alloc, other)?;
        let gone = own.model.dots(alloc, other, None)?;
        let deed = Deed { made: None, gone };
        own.model.hear(&deed)?;
        Ok(self.told.push(Told { delta, deed })?)
    }

    /// Gives the node the delta of an operation before.
    pub(crate) fn give(&mut self, alloc: Global, node: u32, word: u32) -> io::Result<()> {
        let count = self.told.len();
        if count == 0 {
            return Ok(());
        }
        let Some(told) = self.told.get(word as usize % count) else {
            return failed();
        };
        let Some(own) = self.nodes.get_mut(node as usize) else {
            return failed();
        };
        own.replica.merge(alloc, &told.delta)?;
        own.model.hear(&told.deed)?;
        self.given = self.given.wrapping_add(1);
        Ok(())
    }

    /// Gives `to` all that `from` knows.
    pub(crate) fn sync(&mut self, alloc: Global, from: u32, to: u32) -> io::Result<()> {
        let Some(source) = self.nodes.get(from as usize) else {
            return failed();
        };
        let delta = source.replica.whole(alloc)?;
        let mut model = Model::new(alloc);
        model.hear_all(&source.model)?;
        let Some(own) = self.nodes.get_mut(to as usize) else {
            return failed();
        };
        own.replica.merge(alloc, &delta)?;
        own.model.hear_all(&model)?;
        self.given = self.given.wrapping_add(1);
        Ok(())
    }

    /// Gives all that each node knows to all.
    pub(crate) fn sync_all(&mut self, alloc: Global) -> io::Result<()> {
        for from in 0..COUNT {
            for to in 0..COUNT {
                self.sync(alloc, from, to)?;
            }
        }
        self.sync(alloc, COUNT - 1, 0)?;
        for to in 0..COUNT {
            self.sync(alloc, 0, to)?;
        }
        Ok(())
    }

    /// Compares each node's states with its model's.
    pub(crate) fn compare(&mut self, alloc: Global) -> io::Result<()> {
        for node in &self.nodes {
            for topic in 0..TOPICS {
                let state = shown_state(alloc, &node.replica, topic)?;
                let expected = node.model.state(alloc, topic)?;
                self.compared = self.compared.wrapping_add(1);
                if state != expected {
                    self.differing = self.differing.wrapping_add(1);
                }
            }
        }
        Ok(())
    }

    /// How many nodes show another state of a topic than the first.
    pub(crate) fn unlike(&self, alloc: Global) -> io::Result<u32> {
        let Some(first) = self.nodes.first() else {
            return failed();
        };
        let mut unlike = 0u32;
        for node in &self.nodes {
            for topic in 0..TOPICS {
                let state = shown_state(alloc, &node.replica, topic)?;
                if state != shown_state(alloc, &first.replica, topic)? {
                    unlike = unlike.wrapping_add(1);
                }
            }
        }
        Ok(unlike)
    }
}
