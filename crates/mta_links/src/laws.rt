//! Laws of links.

ghost use Rattle.mta_links.specs.Laws.{InOrder, OneInput};

/// What a peer gives is one list of octets.
pub fn one_input()
    ensures { OneInput }
{}

/// Two calls get what one call of both lengths would.
pub fn in_order()
    ensures { InOrder }
{}
