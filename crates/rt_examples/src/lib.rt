//! Worked examples: what the definitions say of small runs, each computed by the prover.
#![tactic(auto)]

ghost use Rattle.rt_examples.specs.Statements.{StatementsMeanLists, OpaqueKeyIsRefused};
ghost use Rattle.rt_examples.specs.Statements.{SecondRoleIsRefused, PublicIsNoRole};
ghost use Rattle.rt_examples.specs.Statements.{UnknownColumnIsRefused};
ghost use Rattle.rt_examples.specs.Upshots.{MisspelledIsTold, SecondLineIsTold, TextsEndIsTold, LimitIsTold};
ghost use Rattle.rt_examples.specs.Upshots.{ScriptsLineIsTold, StreamsLineIsTold, RowsAreTold, InputsAreTold};
ghost use Rattle.rt_examples.specs.Upshots.{UsageIsTold, DigestIsShown};
ghost use Rattle.rt_examples.specs.UsualSet.{UsualSetIsRead, RingIsRefused};
ghost use Rattle.rt_examples.specs.UsualSet.{HiddenColumnIsRefused, OneHidesNothing};
ghost use Rattle.rt_examples.specs.Memberships.{MembersSelect, BypassStays, QuotedIsAGroup};
ghost use Rattle.rt_examples.specs.Memberships.{MemberRingIsRefused, OwnMemberIsRefused};
ghost use Rattle.rt_examples.specs.Memberships.{PublicIsNoMember};
ghost use Rattle.rt_examples.specs.Vectors.{TagIsKnown, TokenHasNoRole, TokenExpires};
ghost use Rattle.rt_examples.specs.Vectors.{UnsignedIsRefused, TwoPartsAreNoToken};
ghost use Rattle.rt_examples.specs.Frames.{ChannelsAreLimited, FramesAreAnswered, JoinsAreRefused};
ghost use Rattle.rt_examples.specs.Effects.{BadFrameEnds, BroadcastIsSent, HeartbeatIsAnswered};
ghost use Rattle.rt_examples.specs.Effects.{JoinIsWished, LeaveCloses, PrivateJoinIsRefused};
ghost use Rattle.rt_examples.specs.Effects.{TicksAreAsked, TokenIsRefused};
ghost use Rattle.rt_examples.specs.Errors.{ErrorsAreSent, HiddenKeyIsAnError};
ghost use Rattle.rt_examples.specs.Deletes.{DeletesShowTheKey};
ghost use Rattle.rt_examples.specs.Restrictive.{RestrictiveRefuses, StrangersSeeNone};
ghost use Rattle.rt_examples.specs.Rooms.{MembersSeeRooms, RoomIsShown};
ghost use Rattle.rt_examples.specs.Audits.{FirstRunIsAudited, RenewalIsAudited};
ghost use Rattle.rt_examples.specs.Audits.{FiltersAreAudited, DeletesAreAudited};
ghost use Rattle.rt_examples.specs.Audits.{ErrorsAreAudited, HiddenKeyIsAudited};
ghost use Rattle.rt_examples.specs.Audits.{IdentityIsAudited, KeptRowIsAudited};
ghost use Rattle.rt_examples.specs.Conditions.{MembersReadIsWritten, MembersReadIsResolved};
ghost use Rattle.rt_examples.specs.Conditions.{SharedIsResolved, AliasHidesTheName};
ghost use Rattle.rt_examples.specs.Conditions.{InnerColumnComesFirst, NotInIsNegated, CastIsRead};
ghost use Rattle.rt_examples.specs.Conditions.{CastOutOfRange, IsNotUnknown, DepthIsCounted};
ghost use Rattle.rt_examples.specs.Crowd.{FormerIsNotCounted, OneMoreIsRefused};
ghost use Rattle.rt_examples.specs.Gone.{RowIsGone, BothAreDelivered};
ghost use Rattle.rt_examples.specs.Cuts.{CutIsGiven, CutIsShown};
ghost use Rattle.rt_examples.specs.Expiry.{ChannelExpires};
ghost use Rattle.rt_examples.specs.Faces.{LobbyIsBound, MomentIsShown, TreesAreShown};
ghost use Rattle.rt_examples.specs.Filters.{BothFiltersPass, EmptyIsBad, NineAreTooMany};
ghost use Rattle.rt_examples.specs.Identities.{IdentityIsBound, NoIdentityIsBound};
ghost use Rattle.rt_examples.specs.Identities.{IdentityIsShown, RowIsKept};
ghost use Rattle.rt_examples.specs.Notes.{FirstRun};
ghost use Rattle.rt_examples.specs.Owners.{OwnersAreJudged};
ghost use Rattle.rt_examples.specs.Posts.{PostsAreHeard};
ghost use Rattle.rt_examples.specs.Private.{MembersJoin, OpenJoinsAreRefused};
ghost use Rattle.rt_examples.specs.Private.{ReadersDontSend, StrangersAreRefused};
ghost use Rattle.rt_examples.specs.Private.{MembersPost, ReadersDontPost};
ghost use Rattle.rt_examples.specs.Renewal.{TokenIsSigned, RenewalIsFollowed};
ghost use Rattle.rt_examples.specs.Tracks.{KeylessGets, LeaverGets, WatcherGets};

/// One insert, from a join to the printed change: whole output of the slot that joined.
pub fn first_run()
    ensures { FirstRun }
{}

/// Tracks of a slot, a second track, and its departure, as both slots of the topic get them; and a
/// track of a channel that asks for no key.
pub fn tracks()
    ensures leaver { LeaverGets }
    ensures watcher { WatcherGets }
    ensures keyless { KeylessGets }
{}

/// A full outbox cuts its slot, and a later opening is given as usual.
pub fn cut()
    ensures given { CutIsGiven }
    ensures shown { CutIsShown }
{}

/// Claims run out at a tick, and an opening that isn't heard for a minute ends.
pub fn expiry()
    ensures { ChannelExpires }
{}

/// A signed token renews the claims of a channel between two polls.
pub fn renewal()
    ensures signed { TokenIsSigned }
    ensures followed { RenewalIsFollowed }
{}

/// Two changes of one row in a poll are judged on the row as the poll leaves it.
pub fn owners()
    ensures { OwnersAreJudged }
{}

/// A delete under row security shows the key columns alone.
pub fn deletes()
    ensures { DeletesShowTheKey }
{}

/// A restrictive policy that isn't true refuses a row that a permissive one shows; a permissive one
/// that isn't true permits nothing.
pub fn restrictive()
    ensures refused { RestrictiveRefuses }
    ensures strangers { StrangersSeeNone }
{}

/// A policy reads another table as the same caller sees it; its first change is shown with a JSON
/// tree and a moment.
pub fn rooms()
    ensures seen { MembersSeeRooms }
    ensures shown { RoomIsShown }
{}

/// An update shows a column that only its identity gives, and is judged on the row as the table
/// keeps it.
pub fn identities()
    ensures bound { IdentityIsBound }
    ensures bound_alone { NoIdentityIsBound }
    ensures shown { IdentityIsShown }
    ensures kept { RowIsKept }
{}

/// Errors of a record, by what it lacks, what the role may not SELECT, and its size.
pub fn errors()
    ensures sent { ErrorsAreSent }
    ensures hidden_key { HiddenKeyIsAnError }
{}

/// Frames of version 2, joins that are refused, and the limit of a slot's channels.
pub fn frames()
    ensures answered { FramesAreAnswered }
    ensures refused { JoinsAreRefused }
    ensures limited { ChannelsAreLimited }
{}

/// What frames and ticks ask for, by what a socket with one channel holds.
pub fn effects()
    ensures join { JoinIsWished }
    ensures refused { PrivateJoinIsRefused }
    ensures heartbeat { HeartbeatIsAnswered }
    ensures broadcast { BroadcastIsSent }
    ensures leave { LeaveCloses }
    ensures token { TokenIsRefused }
    ensures bad_frame { BadFrameEnds }
    ensures ticks { TicksAreAsked }
{}

/// A slot with a hundred channels: a join over one of them is accepted, and one of another topic
/// is refused.
pub fn crowd()
    ensures former { FormerIsNotCounted }
    ensures more { OneMoreIsRefused }
{}

/// A row that a poll inserts and deletes, with row security and without.
pub fn gone()
    ensures secured { RowIsGone }
    ensures open_table { BothAreDelivered }
{}

/// The verdicts on the changes of other examples, as the audit prints them.
pub fn audits()
    ensures first_run { FirstRunIsAudited }
    ensures renewal { RenewalIsAudited }
    ensures filters { FiltersAreAudited }
    ensures deletes { DeletesAreAudited }
    ensures errors { ErrorsAreAudited }
    ensures hidden_key { HiddenKeyIsAudited }
    ensures identity { IdentityIsAudited }
    ensures kept { KeptRowIsAudited }
{}

/// A binding with two filters, and lists of filters that are refused.
pub fn filters()
    ensures pass { BothFiltersPass }
    ensures many { NineAreTooMany }
    ensures empty { EmptyIsBad }
{}

/// A post is heard by the channels of its topics, and says nothing once its claims have run out.
pub fn posts()
    ensures { PostsAreHeard }
{}

/// Vectors of HMAC and of tokens from outside.
pub fn vectors()
    ensures tag { TagIsKnown }
    ensures role { TokenHasNoRole }
    ensures expires { TokenExpires }
    ensures unsigned { UnsignedIsRefused }
    ensures parts { TwoPartsAreNoToken }
{}

/// What statements mean, and statements that are refused.
pub fn statements()
    ensures lists { StatementsMeanLists }
    ensures opaque_key { OpaqueKeyIsRefused }
    ensures second_role { SecondRoleIsRefused }
    ensures public_role { PublicIsNoRole }
    ensures unknown_column { UnknownColumnIsRefused }
{}

/// A moment is shown in UTC, and a text of a JSON column as its tree, in the data of an insert into
/// a usual set's table.
pub fn faces()
    ensures moment { MomentIsShown }
    ensures bound { LobbyIsBound }
    ensures shown { TreesAreShown }
{}

/// What a usual set's statements mean, a ring of policies, and a hidden column: `select *` names
/// every column of its table.
pub fn usual_set()
    ensures read { UsualSetIsRead }
    ensures ring { RingIsRefused }
    ensures hidden { HiddenColumnIsRefused }
    ensures one { OneHidesNothing }
{}

/// Members may SELECT what their group may, but for a role that was made with NOINHERIT; rings of
/// members are refused.
pub fn memberships()
    ensures select { MembersSelect }
    ensures ring { MemberRingIsRefused }
    ensures own { OwnMemberIsRefused }
    ensures public_role { PublicIsNoMember }
    ensures bypass { BypassStays }
    ensures quoted { QuotedIsAGroup }
{}

/// A join is permitted by a policy of `realtime.messages` once the caller is a member of the
/// topic's room, and not before; a join that isn't private is refused; and a policy that permits to
/// read alone lets its caller join, and neither send nor post.
pub fn private_channels()
    ensures strangers { StrangersAreRefused }
    ensures members { MembersJoin }
    ensures open_joins { OpenJoinsAreRefused }
    ensures readers { ReadersDontSend }
    ensures posts { MembersPost }
    ensures no_posts { ReadersDontPost }
{}

/// Conditions of policies: the tokens that write the usual set's EXISTS, what it means, and the rules
/// of aliases, of columns of two tables, of NOT IN, casts, IS NOT UNKNOWN and of depth.
pub fn conditions()
    ensures written { MembersReadIsWritten }
    ensures resolved { MembersReadIsResolved }
    ensures shared { SharedIsResolved }
    ensures alias { AliasHidesTheName }
    ensures inner { InnerColumnComesFirst }
    ensures not_in { NotInIsNegated }
    ensures cast { CastIsRead }
    ensures range { CastOutOfRange }
    ensures not_unknown { IsNotUnknown }
    ensures depth { DepthIsCounted }
{}

/// The lines in which refusals are told: places in a catalogue, lines of a script and of a stream,
/// runs that find no room. And what `gen` prints of three bytes, by a digest of FIPS 180-4.
pub fn upshots()
    ensures misspelled { MisspelledIsTold }
    ensures second_line { SecondLineIsTold }
    ensures end { TextsEndIsTold }
    ensures limit { LimitIsTold }
    ensures script { ScriptsLineIsTold }
    ensures stream { StreamsLineIsTold }
    ensures rows { RowsAreTold }
    ensures inputs { InputsAreTold }
    ensures usage { UsageIsTold }
    ensures digest { DigestIsShown }
{}
