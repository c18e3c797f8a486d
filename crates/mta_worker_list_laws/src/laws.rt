//! Laws over the definitions.

ghost use Rattle.mta_worker_list_laws.specs.Agreeing.{EndsAgree};
ghost use Rattle.mta_worker_list_laws.specs.All.{AllAreGood, AllHaveParts, StepsHaveSessions};
ghost use Rattle.mta_worker_list_laws.specs.Examples.{TakesOne};
ghost use Rattle.mta_worker_list_laws.specs.Good.{SessionsAreGood, SessionsHaveLists};
ghost use Rattle.mta_worker_list_laws.specs.Histories.{is_apdu, TellsApdus};
ghost use Rattle.mta_worker_list_laws.specs.Linked.{LinksAreRun};
ghost use Rattle.mta_worker_list_laws.specs.OfLinks.{WorkersHaveParts};
ghost use Rattle.mta_worker_list_laws.specs.Parts.{LinksHaveParts};
ghost use Rattle.mta_worker_list_laws.specs.Segments.{ListsOwnSteps, SegmentsAreGood, SessionsAreSegments};
ghost use Rattle.mta_worker_list_laws.specs.Sides.{SidesAgree};
ghost use Rattle.mta_worker_list_laws.specs.Stations.{StationsAgree};
ghost use Rattle.mta_worker_list_laws.specs.Untold.{UntoldAreTheirs};

use mta_edge::{Clock, Disk};
use mta_links::{Link, Station};
use mta_session_list_laws::lists_are_good;
use mta_transfer_laws::sessions_agree;

/// Reading tells which octets spell an APDU that may be received: a test for these laws.
pub fn reading_tells()
    ensures { TellsApdus is_apdu }
{}

/// What a worker does with a link is all that one session did, call by call, and each possible history that goes on
/// from what its pass has seen has what the calls tell; or no session began.
pub fn links_are_run<D: Disk + Drop, C: Clock + Drop, L: Link>()
    ensures { LinksAreRun D.model C.model L.model }
{}

/// Such a session has a list, where it has a lane.
pub fn sessions_have_lists()
    ensures { SessionsHaveLists }
{}

/// The list, with what came of the last action and with the Abandons of other passes, is a good one, where each step of
/// the session's generation that concerns pieces stands in it.
pub fn sessions_are_good()
    ensures { SessionsAreGood }
{
    lists_are_good();
}

/// Where each step that sessions make on a lane was made for one session, and stands in its list, the list of a session
/// has each such step of its generation: a generation of a lane begins once.
pub fn lists_own_steps()
    ensures { ListsOwnSteps }
{}

/// All that a session did is such a part of the history: each step that it made on its lane stands in its list, whose
/// lane and generation are those of the step.
pub fn sessions_are_segments()
    ensures { SessionsAreSegments }
{}

/// So the list of a session is a good one, where no entry was made twice and each such step was made for a session.
pub fn segments_are_good()
    ensures { SegmentsAreGood }
{
    lists_are_good();
}

/// What was done with a link is in parts of the history, one for the session and one for lanes that were closed before
/// it. They are all entries that the pass made then.
pub fn links_have_parts<L: Link>()
    ensures { LinksHaveParts L.model }
{}

/// A worked row: a responder takes a message.
pub fn worked_row()
    ensures { TakesOne }
{}

/// All entries that a worker made are in such parts of the history, link by link: each is of the session that ran over
/// that link of its station, or was made for none.
pub fn workers_have_parts<D: Disk + Drop, C: Clock + Drop, L: Link, S: Station>()
    ensures { WorkersHaveParts D.model C.model L.model S.model }
{}

/// So are all entries that workers made together over one history: no one is in two of these parts, and each is in one.
pub fn all_have_parts<D: Disk + Drop, C: Clock + Drop, L: Link, S: Station>()
    ensures { AllHaveParts D.model C.model L.model S.model }
{}

/// So each step of a lane that they made was made for one of their sessions, but those that close a lane or give an
/// activity up.
pub fn steps_have_sessions<L: Link>()
    ensures { StepsHaveSessions L.model }
{}

/// Two sessions of one lane have it in one role: it is open in the role that its LaneOpen gave, as long as it is open.
pub fn sides_agree<L: Link>()
    ensures { SidesAgree L.model }
{}

/// Two sessions of a lane that this agent opened were at stations that call its peer: an open lane keeps its peer.
pub fn stations_agree<L: Link>()
    ensures { StationsAgree L.model }
{}

/// A session that has no list opened or bound no lane but one of its peer's, of which it was not told for want of
/// memory.
pub fn untold_are_theirs<L: Link>()
    ensures { UntoldAreTheirs L.model }
{}

/// So each session that they served and that had a lane has a good session list: with what came of its last action, and
/// with the Abandons of other passes.
pub fn all_are_good<D: Disk + Drop, C: Clock + Drop, L: Link, S: Station>()
    ensures { AllAreGood D.model C.model L.model S.model }
{
    lists_are_good();
}

/// Two ends of a lane agree, whatever the other end and the links did, where workers served the sessions of this
/// agent's end: in each world whose events of that end are their lists, in the order of the history's steps.
pub fn ends_agree<D: Disk + Drop, C: Clock + Drop, L: Link, S: Station>()
    ensures { EndsAgree D.model C.model L.model S.model }
{
    lists_are_good();
    sessions_agree();
}
