//! Laws of walks, each the contract of a function that does nothing.

ghost use Rattle.mta_rehearse_run.specs.Laws.{WalksAreOne};
ghost use Rattle.mta_rehearse_run.specs.Traces.{LoopsAreMetInTheTrace};

/// A name has one walk from each agent, and that has no more agents than there are.
pub fn walks_are_one()
    ensures { WalksAreOne }
{}

/// Where all agents can be told apart, the item that each agent of a walk relays is one that the next agent finds to
/// have looped exactly where the walk ends in a loop there.
pub fn loops_are_met_in_the_trace()
    ensures { LoopsAreMetInTheTrace }
{}
