//! A link.

ghost use Rattle.std.specs.Prelude.{◌<◌, ◌≤◌, ◌≡◌, length, IfOk, OnErr};
ghost use Rattle.mta_edge.specs.Causes.{HasCause};
ghost use Rattle.mta_links.specs.Links.{Gets, Leads, LinkView, Puts};

use mta_edge::Failed;

/// A link to a peer, which carries octets both ways.
pub trait Link {
    /// What was got and put, where the link tells it, and how often the link has failed.
    ghost model: { LinkView Self };

    /// Moves the first octets of what the peer has still to give. Zero comes exactly where `into` is empty or nothing
    /// is left.
    fn get(&mut self, into: &mut [u8]) -> Result<usize, Failed>
        ensures bound { IfOk result (λ n. n ≤ length into.new) }
        ensures got { IfOk result (λ n. Leads (Gets n into.new) (model.talk self.old) (model.talk self.new)) }
        ensures kept { OnErr result (model.talk self.new ≡ model.talk self.old) }
        ensures cause { HasCause (model.faults self.old) (model.faults self.new) result };

    /// Takes a prefix of the piece, of at least one octet where the piece is not empty.
    fn put(&mut self, bytes: &[u8]) -> Result<usize, Failed>
        ensures bound { IfOk result (λ n. n ≤ length bytes.now) }
        ensures some { IfOk result (λ n. 0 < length bytes.now → 0 < n) }
        ensures put { IfOk result (λ n. Leads (Puts n bytes.now) (model.talk self.old) (model.talk self.new)) }
        ensures kept { OnErr result (model.talk self.new ≡ model.talk self.old) }
        ensures cause { HasCause (model.faults self.old) (model.faults self.new) result };
}
