//! Which stations call a peer that the tables do not name.

ghost use Rattle.std.specs.Prelude.{◌≡◌, All, IfNone, IfSome, option_map};
ghost use Rattle.mta_stations.specs.Peers.{IsNamed, IsUnnamed, called, is_unnamed, unnamed_peer};
ghost use Rattle.mta_stations.specs.Stations.{roles_in};

use mta_ber::Word;
use mta_links::{Role, Station};
use mta_tables::Tables;

// The peer that a station of this role calls.
fn called(role: &Role) -> Option<&Word>
    ensures { option_map (λ w. w.now) result ≡ called role.now }
{
    match role {
        Role::In => None,
        Role::Out(peer) => Some(peer),
    }
}

// Whether a station of this role calls a peer that the tables do not name.
fn is_unnamed(tables: &Tables, role: &Role) -> bool
    ensures { result ≡ is_unnamed tables.now role.now }
{
    match role {
        Role::In => false,
        Role::Out(peer) => tables.peer(peer.as_slice()).is_none(),
    }
}

fn first_unnamed<'a, S: Station>(tables: &Tables, stations: &'a [S]) -> Option<&'a Word>
    ensures { option_map (λ w. w.now) result ≡ unnamed_peer tables.now (roles_in S.model stations.entry.now) }
{
    for station in stations {
        let role = station.role();
        if is_unnamed(tables, role) {
            return called(role);
        }
    }
    None
}

/// The peer of the first station that calls one whom the tables do not name; nothing where they name every peer that is
/// called.
pub fn unnamed_peer<'a, S: Station>(tables: &Tables, stations: &'a [S]) -> Option<&'a Word>
    ensures found { IfSome result (λ w. IsUnnamed tables.now (roles_in S.model stations.entry.now) w.now) }
    ensures none { IfNone result (All (IsNamed tables.now) (roles_in S.model stations.entry.now)) }

    // The same as a function.
    ensures exact { option_map (λ w. w.now) result ≡ unnamed_peer tables.now (roles_in S.model stations.entry.now) }
{
    first_unnamed(tables, stations)
}
