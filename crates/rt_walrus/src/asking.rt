//! What a subscription asks for, and what a change is.
ghost use Rattle.std.specs.Prelude.{◌≡◌};
ghost use Rattle.rt_change.specs.Verdicts.{asks_for as wants, lacks_key as has_no_key};
ghost use Rattle.rt_change.specs.Verdicts.{passes_filter as passes, writes as is_written};

use rt_change::{Change, Verb};
use rt_filter::{Subscription, Wanted, all_pass};

/// Whether the event is one that is asked for.
pub fn asks_for(wanted: Wanted, verb: Verb) -> bool
    ensures { result ≡ wants wanted verb }
{
    match (wanted, verb) {
        (Wanted::All, _) => true,
        (Wanted::Insert, Verb::Insert) => true,
        (Wanted::Update, Verb::Update) => true,
        (Wanted::Delete, Verb::Delete) => true,
        _ => false,
    }
}

/// Whether the change is an insert or an update.
pub fn writes(verb: Verb) -> bool
    ensures { result ≡ is_written verb }
{
    matches!(verb, Verb::Insert | Verb::Update)
}

/// Whether the record of an insert or an update names no key.
pub fn lacks_key(change: &Change) -> bool
    ensures { result ≡ has_no_key change.now }
{
    writes(change.verb) && !change.has_key
}

/// Whether the change passes the subscription's filters: by its new cells, a delete by its
/// identity.
pub fn passes_filter(subscription: &Subscription, change: &Change) -> bool
    ensures { result ≡ passes subscription.now change.now }
{
    let cells = if writes(change.verb) {
        &change.new
    } else {
        &change.old
    };
    all_pass(subscription.tests.get(), cells)
}
