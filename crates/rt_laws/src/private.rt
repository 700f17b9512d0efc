ghost use Rattle.rt_catalog.specs.declared.catalog.Catalog.{Catalog as CatalogData};
ghost use Rattle.rt_entry.specs.declared.input.Settings.{Settings as SettingsData};
ghost use Rattle.rt_laws.specs.Private.{
  BroadcastsArePermitted,
  DenialsAreReasons,
  EachIsPosted,
  JoinsAreJudged,
  MembersAreJudged,
  NothingIsDenied,
  PostsRunOut,
  ReasonsAreDenials,
  RenewalsAreJudged,
  TracksArePermitted,
};

/// A post says nothing where its claims have run out.
pub fn posts_run_out()
    ensures { (c : CatalogData) (s : SettingsData) → PostsRunOut c s }
{}

/// A channel that joins was judged on the tables at its join: its claims name its role, which had
/// the right to join the topic; a broadcast and a track are denied to it exactly where their rights
/// weren't given, for the same reason; and where presence is enabled, that right was given.
pub fn joins_are_judged()
    ensures { (c : CatalogData) (s : SettingsData) → JoinsAreJudged c s }
{}

/// A renewal is of a member, and was judged like a join on that member's topic, on the tables at
/// the renewal.
pub fn renewals_are_judged()
    ensures { (c : CatalogData) (s : SettingsData) → RenewalsAreJudged c s }
{}

/// Every member's standing was judged by an input of the journal, on its topic and the tables at
/// that input: by that its channel joined with this standing, or was renewed to it.
pub fn members_are_judged()
    ensures { (c : CatalogData) (s : SettingsData) → MembersAreJudged c s }
{}

/// A broadcast is told on a topic only by a frame of a member of that topic to which sending isn't
/// denied by its last judging, or by a post of which a message to that topic may be posted by the
/// post's claims.
pub fn broadcasts_are_permitted()
    ensures { (c : CatalogData) (s : SettingsData) → BroadcastsArePermitted c s }
{}

/// A track is made only by a member, on its topic, to which tracking isn't denied by its last
/// judging.
pub fn tracks_are_permitted()
    ensures { (c : CatalogData) (s : SettingsData) → TracksArePermitted c s }
{}

/// A use of a topic is denied exactly where the catalogue has a messages table by whose policies
/// the right isn't given, and the reason says why.
pub fn denials_are_answers()
    ensures reasons { (c : CatalogData) → DenialsAreReasons c }
    ensures denials { (c : CatalogData) → ReasonsAreDenials c }
{}

/// Without a messages table nothing is denied, and every message may be posted.
pub fn without_messages()
    ensures rights { (c : CatalogData) → NothingIsDenied c }
    ensures posts { (c : CatalogData) (s : SettingsData) → EachIsPosted c s }
{}
