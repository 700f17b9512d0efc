//! The maps that keep who is present. A change of both leaves them as they were where memory runs
//! out: one of them is changed as a snapshot, which is put in its place when the other is changed.
ghost use Rattle.std.specs.Prelude.{◌≡◌, IfOk, OnOk, OnErr};
ghost use Rattle.std.specs.Arc.{arc_value};
ghost use Rattle.std.specs.BTreeMap.{insert_entry};
ghost use Rattle.rt_ptree.specs.Entries.{Updates};
ghost use Rattle.rt_presence.specs.Tracks.{without_channel, with_track};
ghost use Rattle.rt_presence.specs.Index.{IsIndexed, place_of};

use crate::tracks::{Place, TrackKey};
use rt_json::Json;
use rt_ptree::Tree;
use rt_value::Shared;
use std::alloc::AllocError;
use std::sync::Arc;

/// The tree of each track, which all share who are told it.
pub type Tracks = Tree<TrackKey, Shared<Json>>;

/// The track of each channel on each topic.
pub type Places = Tree<Place, TrackKey>;

fn insert<K: Ord + Drop, V: Drop>(
    map: &mut Tree<K, V>,
    key: Arc<K>,
    value: Arc<V>,
) -> Result<(), AllocError>
    ensures ok { OnOk result
        (map.new ≡ insert_entry K.cmp map.old (arc_value key) (arc_value value)) }
    ensures updates { OnOk result
        (Updates K.cmp map.old map.new (arc_value key) (Some (arc_value value))) }
    ensures err { OnErr result (map.new ≡ map.old) }
{
    match map.insert(key, value) {
        Ok(()) => Ok(()),
        Err(_) => Err(AllocError),
    }
}

// The tracks but for the channel's on the topic.
fn others(tracks: &Tracks, places: &Places, place: &Place) -> Result<Tracks, AllocError>
    requires { IsIndexed tracks.now places.now }
    ensures { IfOk result (λ others.
        others ≡ without_channel tracks.now place.now.topic place.now.channel) }
{
    // A map's length tells a proof that its keys rise.
    let _len = tracks.len();
    let mut others = tracks.snapshot()?;
    if let Some(track) = places.get(place) {
        others.remove(track)?;
    }
    Ok(others)
}

/// Takes the channel's track on the topic out.
pub fn take(tracks: &mut Tracks, places: &mut Places, place: &Place) -> Result<(), AllocError>
    requires { IsIndexed tracks.old places.old }
    ensures ok { OnOk result
        (tracks.new ≡ without_channel tracks.old place.now.topic place.now.channel) }
    ensures err { OnErr result (tracks.new ≡ tracks.old) }
    ensures index { IsIndexed tracks.new places.new }
{
    let left = others(tracks, places, place)?;
    places.remove(place)?;
    *tracks = left;
    Ok(())
}

/// Puts the track in, in place of the channel's on the topic.
pub fn put(
    tracks: &mut Tracks,
    places: &mut Places,
    place: Arc<Place>,
    track: Arc<TrackKey>,
    tree: Arc<Shared<Json>>,
) -> Result<(), AllocError>
    requires index { IsIndexed tracks.old places.old }
    requires place { arc_value place ≡ place_of (arc_value track) }
    ensures ok { OnOk result
        (tracks.new ≡ with_track tracks.old (arc_value track, arc_value tree)) }
    ensures err { OnErr result (tracks.new ≡ tracks.old) }
    ensures index { IsIndexed tracks.new places.new }
{
    let mut changed = others(tracks, places, &place)?;
    let held = Arc::try_clone(&track)?;
    insert(&mut changed, track, tree)?;
    insert(places, place, held)?;
    *tracks = changed;
    Ok(())
}
