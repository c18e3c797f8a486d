//! Which stations are those of the words of a command line.

ghost use Rattle.std.specs.Prelude.{◌≡◌, ◌↔◌, IsTrue};
ghost use Rattle.mta_stations.specs.Roles.{are_roles_of, is_role_of, roles_of};
ghost use Rattle.mta_stations.specs.Stations.{roles_in};

use mta_links::{Role, Station};
use mta_words::StationWord;

// Whether a word says this role.
fn is_role_of(word: &StationWord, role: &Role) -> bool
    ensures { result ≡ is_role_of word.now role.now }
{
    match word {
        StationWord::In { .. } => matches!(role, Role::In),
        StationWord::Out { peer, .. } => match role {
            Role::In => false,
            Role::Out(other) => other.as_slice() == peer.as_slice(),
        },
    }
}

fn are_roles_of<S: Station>(words: &[StationWord], stations: &[S]) -> bool
    ensures { result ≡ are_roles_of words.now (roles_in S.model stations.now) }
{
    match words {
        [] => stations.is_empty(),
        [word, words @ ..] => match stations {
            [] => false,
            [station, stations @ ..] => {
                is_role_of(word, station.role()) && are_roles_of(words, stations)
            }
        },
    }
}

/// Whether there is a station for each word, in their order, with the role that the word says: peers call in, or this
/// agent calls the peer that the word names.
pub fn have_roles<S: Station>(words: &[StationWord], stations: &[S]) -> bool
    ensures meaning { IsTrue result ↔ (roles_in S.model stations.now ≡ roles_of words.now) }

    // The same as a function.
    ensures exact { result ≡ are_roles_of words.now (roles_in S.model stations.now) }
{
    are_roles_of(words, stations)
}
