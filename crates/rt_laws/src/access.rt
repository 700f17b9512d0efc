ghost use Rattle.rt_catalog.specs.declared.catalog.Catalog.{Catalog as CatalogData};
ghost use Rattle.rt_entry.specs.declared.input.Settings.{Settings as SettingsData};
ghost use Rattle.rt_entry.specs.Access.{ChangesAreAllowed};
ghost use Rattle.rt_laws.specs.Audited.{AuditDecides, PollsAreChanges};
ghost use Rattle.rt_laws.specs.Changes.{GivenIsAllowed, VerdictsAreOne};

/// Every message of a poll was due by one of its changes and by subscriptions of the slot that it
/// was sent to, and shows values only where each of them is delivered, and only of columns that
/// their role may SELECT.
pub fn changes_are_allowed()
    ensures { (c : CatalogData) (s : SettingsData) → ChangesAreAllowed c s }
{}

/// The ids of one message have all the same verdict: deliver, or one of the two errors.
pub fn verdicts_are_one()
    ensures { (c : CatalogData) (s : SettingsData) → VerdictsAreOne c s }
{}

/// After any list of steps, every message that a slot was given is the answer of an input of the
/// journal, as it is spelled. Of a poll it was due by it and one of its changes; of any other input
/// it hasn't the event of changes.
pub fn given_is_allowed()
    ensures { (c : CatalogData) (s : SettingsData) → GivenIsAllowed c s }
{}

/// A poll gives what its changes give, one after another; and each verdict of the audit decides:
/// its subscription is told of the change exactly where the verdict is to deliver, or one of the
/// two errors.
pub fn audit_decides()
    ensures decides { (c : CatalogData) (s : SettingsData) → AuditDecides c s }
    ensures whole { (c : CatalogData) (s : SettingsData) → PollsAreChanges c s }
{}
