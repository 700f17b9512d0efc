//! What a node knows, as the marks and the names of those that are gone, each in a set.
use rt_cluster::Dot;
use std::alloc::{AllocError, Global};
use std::collections::{BTreeMap, BTreeSet};

/// How many topics there are.
pub(crate) const TOPICS: u32 = 4;

/// How many keys a topic has.
pub(crate) const KEYS: u32 = 8;

/// What a track shows.
#[derive(Clone, Copy, PartialEq, Eq, Debug, Drop)]
pub(crate) struct Shown {
    pub(crate) topic: u32,
    pub(crate) key: u32,
    pub(crate) value: u32,
}

/// What one operation does.
#[derive(Drop)]
pub(crate) struct Deed {
    pub(crate) made: Option<(Dot, Shown)>,
    pub(crate) gone: Vec<Dot>,
}

/// The marks that a node knows, and the dots of those that are gone.
#[derive(Drop)]
pub(crate) struct Model {
    marks: BTreeMap<Dot, Shown>,
    gone: BTreeSet<Dot>,
}

impl Model {
    /// Nothing is known.
    pub(crate) fn new(alloc: Global) -> Self {
        Model {
            marks: BTreeMap::new(alloc),
            gone: BTreeSet::new(alloc),
        }
    }

    /// The node's own dots under the key of the topic, or all of the node's.
    pub(crate) fn dots(
        &self,
        alloc: Global,
        node: u32,
        place: Option<(u32, u32)>,
    ) -> Result<Vec<Dot>, AllocError> {
        let mut dots = Vec::new(alloc);
        for (dot, shown) in &self.marks {
            let there = match place {
                None => true,
                Some((topic, key)) => shown.topic == topic && shown.key == key,
            };
            if dot.node == node && there {
                dots.push(*dot)?;
            }
        }
        Ok(dots)
    }

    /// Puts the mark in, where it isn't gone.
    pub(crate) fn hear_of_mark(&mut self, dot: Dot, shown: Shown) -> Result<(), AllocError> {
        if self.gone.contains(&dot) {
            return Ok(());
        }
        match self.marks.insert(dot, shown) {
            Ok(_) => Ok(()),
            Err(_) => Err(AllocError),
        }
    }

    /// The mark of the dot is gone, whether it is known or comes later.
    pub(crate) fn hear_of_gone(&mut self, dot: Dot) -> Result<(), AllocError> {
        self.marks.remove(&dot);
        match self.gone.insert(dot) {
            Ok(_) => Ok(()),
            Err(_) => Err(AllocError),
        }
    }

    /// Takes in one operation.
    pub(crate) fn hear(&mut self, deed: &Deed) -> Result<(), AllocError> {
        if let Some((dot, shown)) = deed.made {
            self.hear_of_mark(dot, shown)?;
        }
        for dot in &deed.gone {
            self.hear_of_gone(*dot)?;
        }
        Ok(())
    }

    /// Takes in all that the other knows.
    pub(crate) fn hear_all(&mut self, other: &Model) -> Result<(), AllocError> {
        for dot in &other.gone {
            self.hear_of_gone(*dot)?;
        }
        for (dot, shown) in &other.marks {
            self.hear_of_mark(*dot, *shown)?;
        }
        Ok(())
    }

    /// The state of a topic, as it is written.
    pub(crate) fn state(&self, alloc: Global, topic: u32) -> Result<String, AllocError> {
        let mut state = String::from_str(alloc, "{")?;
        for key in 0..KEYS {
            let metas = self.metas(alloc, topic, key)?;
            if !metas.is_empty() {
                if state.len() > 1 {
                    state.push_str(",")?;
                }
                let member = format!(in alloc; "\"k{key}\":{{\"metas\":[{metas}]}}")?;
                state.push_str(member.as_str())?;
            }
        }
        state.push_str("}")?;
        Ok(state)
    }

    fn metas(&self, alloc: Global, topic: u32, key: u32) -> Result<String, AllocError> {
        let mut metas = String::new(alloc);
        for (dot, shown) in &self.marks {
            if shown.topic == topic && shown.key == key {
                if !metas.is_empty() {
                    metas.push_str(",")?;
                }
                let node = dot.node;
                let number = dot.number;
                let value = shown.value;
                let meta = format!(in alloc; "{{\"phx_ref\":\"{node}.{number}\",\"v\":{value}}}")?;
                metas.push_str(meta.as_str())?;
            }
        }
        Ok(metas)
    }
}
