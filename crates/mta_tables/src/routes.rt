//! Routes, in the order of their lines.

use crate::entry::{Route, Target};
use crate::found::{has_pattern_at, is_route_of, is_route_of_at};
use crate::fronts::part_at;
use crate::hop::Hop;
use crate::same::is_same_pattern;
use mta_ber::Memory;
use mta_name_digest::{Places, digest_step, text_digest, texts_digest};
use mta_name_text::Pattern;
use mta_names::OrName;
use std::alloc::Global;
use std::marker::Model;

/// Routes, in the order of their lines, with an index of their patterns.
#[derive(Drop)]
pub struct Routes {
    inner: Vec<Route>,
    patterns: Places,
}

impl Model for Routes {
    ghost use Rattle.std.specs.Prelude.{List, ◌≤◌, length};
    ghost use Rattle.mta_tables.specs.declared.entry.Route.{Route};
    ghost use Rattle.mta_tables.specs.Indexes.{HaveParts, IsIndex, route_pattern};

    ghost Value = { List Route };

    ghost view = { λ r. r.inner.items };

    ghost invariant = { λ r. (length r.inner.items ≤ 4096) × HaveParts r.inner.items
        × IsIndex route_pattern r.inner.items r.patterns };
}

impl Routes {
    ghost use Rattle.std.specs.Prelude.{◌≡◌, ◌<◌, ◌≤◌, ◌++◌, [], ◌∷◌, length, OnOk, IfSome};
    ghost use Rattle.std.specs.List.{list_any, position};
    ghost use Rattle.mta_tables.specs.Fronts.{HaveFront, is_route_of, route_at};
    ghost use Rattle.mta_tables.specs.Hops.{best_entry, to_route};
    ghost use Rattle.mta_tables.specs.Indexes.{HaveParts, checked};
    ghost use Rattle.mta_tables.specs.Reading.{has_pattern, route_to};

    /// No routes.
    pub fn new(alloc: Global) -> Routes
        ensures { result ≡ [] }
    {
        Routes {
            inner: Vec::new(alloc),
            patterns: Places::new(alloc),
        }
    }

    /// How many there are.
    pub fn len(&self) -> usize
        ensures { result ≡ length self.now }
    {
        self.inner.len()
    }

    /// The routes, lent.
    pub fn as_slice(&self) -> &[Route]
        ensures { result.now ≡ self.now }
    {
        self.inner.as_slice()
    }

    /// Appends a route.
    pub fn push(&mut self, pattern: Pattern, target: Target) -> Result<(), Memory>
        requires { length self.old < 4096 }
        ensures { OnOk result (self.new ≡ self.old ++ route_to pattern target ∷ []) }
    {
        let place = self.inner.len() as u32;
        let digest = texts_digest(0, pattern.parts());
        self.patterns.add(digest, place)?;
        self.inner.push(Route { pattern, target })?;
        Ok(())
    }

    // The place that the index says, where the route there has an equal pattern.
    fn checked_pattern(&self, said: Option<u32>, pattern: &Pattern) -> Option<u32>
        ensures { result ≡ checked (has_pattern pattern.now) self.now said }
    {
        match said {
            None => None,
            Some(place) => {
                if has_pattern_at(self.inner.as_slice(), place, pattern) {
                    Some(place)
                } else {
                    None
                }
            }
        }
    }

    // The place that the index says, where the route there matches the name and has so many parts.
    fn checked_route(&self, said: Option<u32>, count: usize, name: &OrName) -> Option<u32>
        ensures { result ≡ checked (is_route_of count name.now) self.now said }
    {
        match said {
            None => None,
            Some(place) => {
                if is_route_of_at(self.inner.as_slice(), place, count, name) {
                    Some(place)
                } else {
                    None
                }
            }
        }
    }

    fn scan_patterns(&self, pattern: &Pattern) -> bool
        ensures { result ≡ list_any (has_pattern pattern.now) self.now }
    {
        self.inner
            .iter()
            .any(|r| is_same_pattern(&r.pattern, pattern))
    }

    fn scan_routes(&self, count: usize, name: &OrName) -> Option<usize>
        ensures exact { result ≡ position (is_route_of count name.now) self.now }
        ensures bound { IfSome result (λ place. place < 4096) }
    {
        self.inner.iter().position(|r| is_route_of(count, name, r))
    }

    /// Whether one of them has an equal pattern.
    pub fn has_pattern(&self, pattern: &Pattern) -> bool
        ensures { result ≡ list_any (has_pattern pattern.now) self.now }
    {
        if self.patterns.is_whole() {
            let said = self.patterns.of(texts_digest(0, pattern.parts()));
            return self.checked_pattern(said, pattern).is_some();
        }
        self.scan_patterns(pattern)
    }

    // The place of the first that matches the name and has so many parts, where those have this digest.
    fn of_front(&self, count: usize, digest: u64, name: &OrName) -> Option<u32>
        requires { HaveFront count name.now digest }
        ensures { result ≡ position (is_route_of count name.now) self.now }
    {
        if self.patterns.is_whole() {
            return self.checked_route(self.patterns.of(digest), count, name);
        }
        match self.scan_routes(count, name) {
            Some(place) => Some(place as u32),
            None => None,
        }
    }

    fn have_parts(&self)
        ensures { HaveParts self.now }
    {
        let _count = self.inner.len();
    }

    // The place of the route that matches and than which no route that matches has more parts: at most eight look-ups.
    fn best(&self, name: &OrName) -> Option<u32>
        ensures { route_at self.now result ≡ best_entry self.now name.now }
    {
        self.have_parts();
        let _attributes = name.attributes();
        let mut best = None;
        let mut digest = 0;
        let mut place = 0;
        while place < 8 {
            let Some(part) = part_at(name, place) else {
                return best;
            };
            digest = text_digest(digest, part);
            place += 1;
            if let Some(longer) = self.of_front(place, digest_step(digest, 2), name) {
                best = Some(longer);
            }
        }
        best
    }

    /// Where the route goes that matches the name and than which no route that matches has more parts.
    pub fn hop_of(&self, name: &OrName) -> Hop
        ensures { result ≡ to_route (best_entry self.now name.now) }
    {
        let Some(place) = self.best(name) else {
            return Hop::None;
        };
        match self.inner.get(place as usize) {
            None => Hop::None,
            Some(route) => match route.target {
                Target::Here => Hop::None,
                Target::Peer(peer) => Hop::Peer(peer),
            },
        }
    }
}
