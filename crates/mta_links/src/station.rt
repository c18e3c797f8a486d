//! A station.

ghost use Rattle.std.specs.Prelude.{◌+◌, ◌<◌, ◌≡◌, IfOk, OnErr};
ghost use Rattle.mta_edge.specs.Causes.{HasCause};
ghost use Rattle.mta_links.specs.Links.{LeadsBack, LeadsNext, one_more_out, StationView};

use crate::close_why::CloseWhy;
use crate::link::Link;
use crate::role::Role;
use mta_edge::Failed;

/// A station, which gives one link for each session and takes it back.
pub trait Station {
    type Link: Link;

    /// Its role, the sessions to come and those that are over, where the station tells them, how many links are out,
    /// and how often the station has failed.
    ghost model: { StationView Self };

    fn role(&self) -> &Role
        ensures { result.now ≡ model.role self.now };

    /// The next session's link. None comes exactly where no link is left.
    fn next(&mut self) -> Result<Option<Self::Link>, Failed>
        ensures given { IfOk result
            (λ r. LeadsNext Self.Link.model r (model.served self.old) (model.served self.new)) }
        ensures out { IfOk result (λ r. model.out self.new ≡ one_more_out r (model.out self.old)) }
        ensures kept { OnErr result (model.served self.new ≡ model.served self.old) }
        ensures none_out { OnErr result (model.out self.new ≡ model.out self.old) }
        ensures role { model.role self.new ≡ model.role self.old }
        ensures cause { HasCause (model.faults self.old) (model.faults self.new) result };

    /// Takes a link back that `next` gave and that has not come back. It takes no memory.
    fn back(&mut self, link: Self::Link)
        requires { 0 < model.out self.old }
        ensures over { LeadsBack Self.Link.model link (model.served self.old) (model.served self.new) }
        ensures out { model.out self.new + 1 ≡ model.out self.old }
        ensures role { model.role self.new ≡ model.role self.old }
        ensures faults { model.faults self.new ≡ model.faults self.old };

    /// No session is asked for any more, for this reason. What the station holds for sessions to come, as a port, is
    /// let go; a station that holds nothing of the kind does nothing.
    fn close(&mut self, _why: CloseWhy)
        ensures { self.new ≡ self.old }
    {}
}
