//! Laws of verdicts and idle items, each the contract of a function that does nothing.

ghost use Rattle.mta_idle_laws.specs.Laws.{IdleUntilNext, ItemsGoOn, VerdictsAreLast, VerdictsStay};
ghost use Rattle.mta_idle_laws.specs.Spans.{RelaysAreRouted, RelaysWithin};

/// Before the next change every verdict on an item's recipients stays as it is; where there is none, for good.
pub fn verdicts_stay()
    ensures until { VerdictsStay }
    ensures last { VerdictsAreLast }
{}

/// An item of which nothing is called for is idle until the next change.
pub fn idle_until_next()
    ensures { IdleUntilNext }
{}

/// Whatever steps are made, an item stays under its number, and no recipient of it becomes pending.
pub fn items_go_on()
    ensures { ItemsGoOn }
{}

/// Nobody is relayed before the deferral of the APDU has ended, nor once it has expired.
pub fn relays_within()
    ensures { RelaysWithin }
{}

/// Who is relayed goes to the peer to which the best route of his name leads.
pub fn relays_are_routed()
    ensures { RelaysAreRouted }
{}
