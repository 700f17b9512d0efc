ghost use Rattle.std.specs.Prelude.{◌≡◌, [], None, Some, map, option_map, IfOk, OnOk, OnErr};
ghost use Rattle.rt_presence.specs.Tracks.{track_of, without_channel, with_track, track_at};
ghost use Rattle.rt_presence.specs.Tracks.{meta_of, joining, leaving};
ghost use Rattle.rt_presence.specs.Index.{least_on};
ghost use Rattle.rt_presence.specs.Trees.{held_of, on_topic, state_tree, groups_of};

use crate::differences::{Diff, Meta};
use crate::maps::{Places, Tracks, put, take};
use crate::tracks::{Place, TrackKey};
use crate::trees::{Group, groups_tree, meta_object, put_last};
use rt_json::Json;
use rt_ptree::Tree;
use rt_value::{Shared, Text};
use std::alloc::{AllocError, Global};
use std::marker::Model;
use std::sync::Arc;

/// Who is present on each topic. A channel has at most one track on a topic.
///
/// Contracts see the list of the tracks that stand, each with its tree, in their order.
#[derive(Drop)]
pub struct Presence {
    tracks: Tracks,
    places: Places,
    alloc: Global,
}

impl Model for Presence {
    ghost use Rattle.std.specs.Prelude.{List};
    ghost use Rattle.rt_presence.specs.Tracks.{Tracked};
    ghost use Rattle.rt_presence.specs.Index.{IsIndexed};
    ghost use Rattle.rt_json.specs.contracts.tree.Json as tree;
    ghost use Rattle.std.specs.Coded.{codes};

    ghost Value = { List Tracked };

    ghost coded = { Prim.hlevel (codes, tree.the_row.coded) };

    ghost view = { λ p. p.tracks };

    ghost invariant = { λ p. IsIndexed p.tracks p.places };
}

impl Presence {
    /// Nobody. Takes no memory.
    pub fn new(alloc: Global) -> Self
        ensures { result ≡ [] }
    {
        Presence {
            tracks: Tree::new(alloc),
            places: Tree::new(alloc),
            alloc,
        }
    }

    /// An equal value, of which a change leaves this one as it is. The two share their tracks, so
    /// its time doesn't depend on how many there are. Fails for want of memory alone.
    pub fn copy(&self) -> Result<Self, AllocError>
        ensures { IfOk result (λ p. p ≡ self.now) }
    {
        Ok(Presence {
            tracks: self.tracks.snapshot()?,
            places: self.places.snapshot()?,
            alloc: self.alloc,
        })
    }

    // The channel's track on the topic.
    fn find(&self, place: &Place) -> Option<(&TrackKey, &Shared<Json>)>
        ensures { option_map (λ t. (t.0.now, t.1.now)) result
            ≡ track_of self.now place.now.topic place.now.channel }
    {
        match self.places.get(place) {
            None => None,
            Some(track) => match self.tracks.get(track) {
                None => None,
                Some(tree) => Some((track, tree)),
            },
        }
    }

    fn place(&self, topic: &Text, channel: u32) -> Result<Place, AllocError>
        ensures topic { IfOk result (λ p. p.topic ≡ topic.now) }
        ensures channel { IfOk result (λ p. p.channel ≡ channel) }
    {
        Ok(Place {
            topic: topic.copy(self.alloc)?,
            channel,
        })
    }

    fn meta(&self, track: &TrackKey, tree: &Shared<Json>) -> Result<Meta, AllocError>
        ensures { IfOk result (λ m. m ≡ meta_of (track.now, tree.now)) }
    {
        Ok(Meta {
            reference: track.reference,
            channel: track.channel,
            tree: tree.copy()?,
        })
    }

    fn meta_at(&self, place: &Place) -> Result<Option<Meta>, AllocError>
        ensures { IfOk result (λ m. m ≡ option_map meta_of
            (track_of self.now place.now.topic place.now.channel)) }
    {
        match self.find(place) {
            None => Ok(None),
            Some((track, tree)) => Ok(Some(self.meta(track, tree)?)),
        }
    }

    fn joining(
        &self,
        place: &Place,
        track: &TrackKey,
        tree: &Shared<Json>,
    ) -> Result<Diff, AllocError>
        ensures { IfOk result (λ d.
            d ≡ joining (track.now, tree.now)
            (track_of self.now place.now.topic place.now.channel)) }
    {
        let left = self.meta_at(place)?;
        let joined = self.meta(track, tree)?;
        Ok(Diff {
            key: track.key.copy(self.alloc)?,
            joined: Some(joined),
            left,
        })
    }

    fn leaving(&self, track: &TrackKey, tree: &Shared<Json>) -> Result<Diff, AllocError>
        ensures { IfOk result (λ d. d ≡ leaving (track.now, tree.now)) }
    {
        let left = self.meta(track, tree)?;
        Ok(Diff {
            key: track.key.copy(self.alloc)?,
            joined: None,
            left: Some(left),
        })
    }

    /// The channel tracks the tree on the topic, under the key and with this number, in place of
    /// what it tracked there. Answers the difference: the meta that joins, and the former one
    /// (which a channel tracks under one key).
    ///
    /// Errors: memory ran out. Nothing has changed then.
    pub fn track(
        &mut self,
        topic: &Text,
        channel: u32,
        key: &Text,
        reference: u32,
        tree: Json,
    ) -> Result<Diff, AllocError>
        ensures ok { OnOk result (self.new
            ≡ with_track self.old (track_at topic.now key.now reference channel, tree)) }
        ensures difference { IfOk result (λ d.
            d ≡ joining (track_at topic.now key.now reference channel, tree)
            (track_of self.old topic.now channel)) }
        ensures err { OnErr result (self.new ≡ self.old) }
    {
        let place = self.place(topic, channel)?;
        let track = TrackKey {
            topic: topic.copy(self.alloc)?,
            key: key.copy(self.alloc)?,
            reference,
            channel,
        };
        let tree = Shared::new(Arc::new(self.alloc, tree)?);
        let difference = self.joining(&place, &track, &tree)?;
        let place = Arc::new(self.alloc, place)?;
        let track = Arc::new(self.alloc, track)?;
        let tree = Arc::new(self.alloc, tree)?;
        put(&mut self.tracks, &mut self.places, place, track, tree)?;
        Ok(difference)
    }

    /// The channel tracks nothing on the topic from here on. Answers what leaves; None exactly
    /// where the channel tracked nothing there.
    ///
    /// Errors: memory ran out. Nothing has changed then.
    pub fn untrack(&mut self, topic: &Text, channel: u32) -> Result<Option<Diff>, AllocError>
        ensures ok { OnOk result (self.new ≡ without_channel self.old topic.now channel) }
        ensures difference { IfOk result (λ d.
            d ≡ option_map leaving (track_of self.old topic.now channel)) }
        ensures err { OnErr result (self.new ≡ self.old) }
    {
        let place = self.place(topic, channel)?;
        let difference = match self.find(&place) {
            None => return Ok(None),
            Some((track, tree)) => self.leaving(track, tree)?,
        };
        take(&mut self.tracks, &mut self.places, &place)?;
        Ok(Some(difference))
    }

    /// The channel departs from the topic. Answers what leaves; None exactly where the channel
    /// tracked nothing there.
    ///
    /// Errors: memory ran out. Nothing has changed then.
    pub fn drop_channel(&mut self, topic: &Text, channel: u32) -> Result<Option<Diff>, AllocError>
        ensures ok { OnOk result (self.new ≡ without_channel self.old topic.now channel) }
        ensures difference { IfOk result (λ d.
            d ≡ option_map leaving (track_of self.old topic.now channel)) }
        ensures err { OnErr result (self.new ≡ self.old) }
    {
        self.untrack(topic, channel)
    }

    fn least_on(&self, topic: &Text) -> Result<TrackKey, AllocError>
        ensures { IfOk result (λ t. t ≡ least_on topic.now) }
    {
        Ok(TrackKey {
            topic: topic.copy(self.alloc)?,
            key: Text::new(String::new(self.alloc)),
            reference: 0,
            channel: 0,
        })
    }

    // The metas of the topic's tracks by their keys.
    fn groups_on(&self, topic: &Text) -> Result<Vec<Group>, AllocError>
        ensures { IfOk result (λ groups.
            groups.items ≡ groups_of (map held_of (on_topic topic.now self.now))) }
    {
        // A map's length tells a proof that its keys rise.
        let _len = self.tracks.len();
        let least = self.least_on(topic)?;
        let mut groups = Vec::new(self.alloc);
        for (track, tree) in self.tracks.entries_from(&least) {
            if track.topic.get() != topic.get() {
                break;
            }
            let meta = meta_object(self.alloc, track.reference, tree.get())?;
            put_last(self.alloc, &mut groups, &track.key, meta)?;
        }
        Ok(groups)
    }

    /// The tree of a `presence_state` of the topic: the metas under each key, the keys in byte
    /// order and the metas of a key in order of their numbers. Fails for want of memory alone.
    pub fn state(&self, topic: &Text) -> Result<Json, AllocError>
        ensures { IfOk result (λ tree. tree ≡ state_tree self.now topic.now) }
    {
        groups_tree(self.alloc, self.groups_on(topic)?)
    }
}
