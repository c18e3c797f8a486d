//! Laws over the definitions.

ghost use Rattle.mta_lane_list_laws.specs.Between.{ListsStandBetween};
ghost use Rattle.mta_lane_list_laws.specs.Called.{CalledLanesOfStationsAgree};
ghost use Rattle.mta_lane_list_laws.specs.Lanes.{LanesOfStationsAgree};
ghost use Rattle.mta_lane_list_laws.specs.Turns.{ListsInTurnAgree, ListsInTurnRise};

use mta_links::Link;
use mta_session_list_laws::lists_are_good;
use mta_transfer_laws::{one_station_agrees, sessions_agree};

/// The steps of a session's list stand behind the one that begins it, and before the length of the history at which the
/// session was over.
pub fn lists_stand_between()
    ensures { ListsStandBetween }
{}

/// The positions of lists that stand one behind the other rise.
pub fn lists_in_turn_rise()
    ensures { ListsInTurnRise }
{}

/// So where each step of both halves stands in one of these lists, or gives an activity up, the ends agree, and the
/// lists have the history's steps in its order.
pub fn lists_in_turn_agree()
    ensures { ListsInTurnAgree }
{
    one_station_agrees();
}

/// Where one station had all sessions of a lane, their lists, in the order in which they were served, have the steps of
/// both halves in the history's order, and the two ends of the lane agree.
pub fn lanes_agree<L: Link>()
    ensures { LanesOfStationsAgree L.model }
{
    lists_are_good();
    sessions_agree();
    one_station_agrees();
}

/// So it is of each lane that this agent opened, where no two stations call one peer: the station that calls its peer
/// had all its sessions, and each of its generations began with one that has a list.
pub fn called_lanes_agree<L: Link>()
    ensures { CalledLanesOfStationsAgree L.model }
{
    lists_are_good();
    sessions_agree();
    one_station_agrees();
}
