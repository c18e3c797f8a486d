//! The stations that `serve` names.

ghost use Rattle.std.specs.Prelude.{◌≡◌, IfOk, map, Some};
ghost use Rattle.mta_words.specs.Stations.{stations_from, with_station};

use crate::station::{StationWord, station_of};
use mta_ber::Memory;
use std::alloc::Global;
use std::marker::Model;

/// Stations in their order, seen by contracts as their list.
#[derive(Drop)]
pub struct Stations {
    inner: Vec<StationWord>,
}

impl Model for Stations {
    ghost use Rattle.std.specs.Prelude.{List};
    ghost use Rattle.mta_words.specs.declared.station.StationWord.{StationWord};

    ghost Value = { List StationWord };

    ghost view = { λ s. s.inner.items };
}

impl Stations {
    ghost use Rattle.std.specs.Prelude.{◌≡◌, ◌++◌, [], ◌∷◌, OnOk};
    ghost use Rattle.std.specs.List.{list_any};
    ghost use Rattle.mta_words.specs.Stations.{calls, calls_again, may_follow};

    /// No stations.
    pub fn new(alloc: Global) -> Stations
        ensures { result ≡ [] }
    {
        Stations {
            inner: Vec::new(alloc),
        }
    }

    /// The stations, lent.
    pub fn as_slice(&self) -> &[StationWord]
        ensures { result.now ≡ self.now }
    {
        self.inner.as_slice()
    }

    /// The vector of these stations, which takes no memory.
    pub fn into_vec(self) -> Vec<StationWord>
        ensures { result.items ≡ self }
    {
        let Stations { inner } = self;
        inner
    }

    fn push(&mut self, station: StationWord) -> Result<(), Memory>
        ensures { OnOk result (self.new ≡ self.old ++ station ∷ []) }
    {
        self.inner.push(station)?;
        Ok(())
    }

    // Whether one of them calls this peer.
    fn call(&self, peer: &[u8]) -> bool
        ensures { result ≡ list_any (calls peer.now) self.now }
    {
        self.inner.iter().any(|station| match station {
            StationWord::In { .. } => false,
            StationWord::Out { peer: other, .. } => other.as_slice() == peer,
        })
    }

    // Whether the station calls a peer that one of them calls.
    fn call_again(&self, station: &StationWord) -> bool
        ensures { result ≡ calls_again self.now station.now }
    {
        match station {
            StationWord::In { .. } => false,
            StationWord::Out { peer, .. } => self.call(peer.as_slice()),
        }
    }

    // Whether the station may stand behind them.
    fn may_precede(&self, station: &StationWord) -> bool
        ensures { result ≡ may_follow self.now station.now }
    {
        self.inner.len() < 16 && !self.call_again(station)
    }
}

// The stations with this one, which the word said, behind them.
fn with_station(
    mut stations: Stations,
    said: Option<StationWord>,
) -> Result<Option<Stations>, Memory>
    ensures { IfOk result (λ o. o ≡ with_station stations said) }
{
    match said {
        Some(station) => {
            if !stations.may_precede(&station) {
                return Ok(None);
            }
            stations.push(station)?;
            Ok(Some(stations))
        }
        None => Ok(None),
    }
}

/// The stations with those of these words behind them; nothing where a word is no station's, or names a
/// seventeenth, or a peer that an earlier one names.
pub fn stations_from(
    alloc: Global,
    stations: Stations,
    words: &[&str],
) -> Result<Option<Stations>, Memory>
    ensures { IfOk result (λ o. o ≡ stations_from (Some stations) (map (λ w. w.now) words.now)) }
{
    match words {
        [] => Ok(Some(stations)),
        [word, rest @ ..] => {
            let said = station_of(alloc, word.as_bytes())?;
            match with_station(stations, said)? {
                Some(stations) => stations_from(alloc, stations, rest),
                None => Ok(None),
            }
        }
    }
}
