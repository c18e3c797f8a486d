//! The pieces that came of an activity.

ghost use Rattle.std.specs.Prelude.{◌≡◌, ◌≤◌, ◌<◌, ◌+◌, ◌-◌, ◌^◌, ◌++◌, ◌∷◌, [], length};
ghost use Rattle.std.specs.Prelude.{take, drop, IfOk, OnOk, vec_len, vec_capacity};
ghost use Rattle.std.specs.List.{concat};
ghost use Rattle.mta_lanes.specs.Pieces.{octets_in, last_end, pieces_of, AreEnds};

use mta_ber::{Memory, Octets};
use std::alloc::Global;
use std::marker::Model;
use std::mem;
use std::sync::Arc;

/// Room for octets of pieces and for their ends, found before a piece is recorded.
#[derive(Drop)]
pub struct Places {
    octets: Vec<u8>,
    ends: Vec<u32>,
}

impl Model for Places {
    ghost use Rattle.std.specs.Prelude.{◌≡◌, [], vec_capacity, vec_len};
    ghost use Rattle.mta_lanes.specs.Pieces.{Room};

    ghost Value = { Room };

    ghost view = { λ p. record { octets = vec_capacity p.octets; ends = vec_capacity p.ends } };

    ghost invariant = { λ p. (p.octets.items ≡ []) × (vec_len p.octets ≡ 0) × (p.ends.items ≡ [])
        × (vec_len p.ends ≡ 0) };
}

impl Places {
    /// Room for so many octets, and so many ends.
    pub fn new(alloc: Global, octets: usize, ends: usize) -> Result<Places, Memory>
        ensures { IfOk result (λ p. p ≡ record { octets = octets; ends = ends }) }
    {
        let octets = Vec::with_capacity(alloc, octets)?;
        let ends = Vec::with_capacity(alloc, ends)?;
        Ok(Places { octets, ends })
    }
}

/// Octets of one holder, which grow, or octets that others may hold too.
#[derive(Drop)]
pub enum Held {
    Own(Vec<u8>),
    Shared(Arc<Octets, Global>),
}

/// The pieces that came of an activity, one behind the other in one buffer, and where each ends. Contracts see them as
/// a list.
#[derive(Drop)]
pub struct Pieces {
    alloc: Global,
    held: Held,
    ends: Vec<u32>,
}

impl Model for Pieces {
    ghost use Rattle.std.specs.Prelude.{◌≤◌, ℕ, List, length};
    ghost use Rattle.mta_lanes.specs.Pieces.{octets_in, pieces_of, last_end, AreEnds};

    ghost Value = { List (List ℕ) };

    ghost view = { λ p. pieces_of (octets_in p.held) 0 p.ends.items };

    ghost invariant = { λ p. AreEnds 0 p.ends.items × (last_end 0 p.ends.items ≤ length (octets_in p.held)) };
}

// The octets, lent.
fn octets_in(held: &Held) -> &[u8]
    ensures { result.now ≡ octets_in held.now }
{
    match held {
        Held::Own(octets) => octets.as_slice(),
        Held::Shared(octets) => octets.as_slice(),
    }
}

// Where the last of the first pieces ends, as many as are told.
#[tactic(auto, using(crate::proofs::Cuts::end_first, crate::proofs::Cuts::end_at))]
fn end_at(ends: &[u32], count: usize) -> u32
    requires { count ≤ length ends.now }
    ensures { result ≡ last_end 0 (take count ends.now) }
{
    if count == 0 { 0 } else { ends[count - 1] }
}

// Where the last of the first pieces ends, as many as are asked for.
#[tactic(auto, using(crate::proofs::Cuts::end_clamped))]
fn end_of(ends: &[u32], count: usize) -> u32
    ensures { result ≡ last_end 0 (take count ends.now) }
{
    if count < ends.len() {
        end_at(ends, count)
    } else {
        end_at(ends, ends.len())
    }
}

// Where the last piece ends.
#[tactic(auto, using(crate::proofs::Cuts::end_last))]
fn end_of_all(ends: &[u32]) -> u32
    ensures { result ≡ last_end 0 ends.now }
{
    end_at(ends, ends.len())
}

// The first octets, as many as are asked for.
fn front(octets: &[u8], count: usize) -> &[u8]
    ensures { result.now ≡ take count octets.now }
{
    if count < octets.len() {
        &octets[..count]
    } else {
        octets
    }
}

// Room for so many and so many more, and for as many again, so that few are moved as they grow.
fn room_for(count: usize, more: usize) -> Result<usize, Memory>
    ensures { IfOk result (λ room. count + more ≤ room) }
{
    let Some(least) = count.checked_add(more) else {
        return Err(Memory);
    };
    match least.checked_mul(2) {
        Some(room) => Ok(room),
        None => Err(Memory),
    }
}

// The piece stands behind the octets, which are moved only where they have no room for it.
fn grow(octets: &mut Vec<u8>, piece: &[u8], room: Vec<u8>)
    requires empty { room.items ≡ [] }
    requires none { vec_len room ≡ 0 }
    requires room { vec_len octets.old + length piece.now ≤ vec_capacity room }
    ensures { octets.new.items ≡ octets.old.items ++ piece.now }
{
    if octets.capacity() - octets.len() < piece.len() {
        *octets = moved(octets, room);
    }
    match octets.extend_from_slice(piece) {
        Ok(()) => (),
        Err(_) => unreachable!(),
    }
}

// The octets in other room.
fn moved(octets: &mut Vec<u8>, room: Vec<u8>) -> Vec<u8>
    requires empty { room.items ≡ [] }
    requires none { vec_len room ≡ 0 }
    requires room { vec_len octets.old ≤ vec_capacity room }
    ensures items { result.items ≡ octets.old.items }
    ensures len { vec_len result ≡ vec_len octets.old }
    ensures room { vec_capacity room ≤ vec_capacity result }
{
    let mut inner = room;
    match inner.append(octets) {
        Ok(()) => inner,
        Err(_) => unreachable!(),
    }
}

// The octets in other room, and the piece behind them.
fn copied(octets: &[u8], piece: &[u8], room: Vec<u8>) -> Vec<u8>
    requires empty { room.items ≡ [] }
    requires none { vec_len room ≡ 0 }
    requires room { length octets.now + length piece.now ≤ vec_capacity room }
    ensures { result.items ≡ octets.now ++ piece.now }
{
    let mut inner = room;
    match inner.extend_from_slice(octets) {
        Ok(()) => (),
        Err(_) => unreachable!(),
    }
    match inner.extend_from_slice(piece) {
        Ok(()) => inner,
        Err(_) => unreachable!(),
    }
}

// The piece stands behind the first octets, as many as are told, in place of all behind them.
fn put_behind(held: &mut Held, count: usize, piece: &[u8], room: Vec<u8>)
    requires within { count ≤ length (octets_in held.old) }
    requires empty { room.items ≡ [] }
    requires none { vec_len room ≡ 0 }
    requires room { count + length piece.now ≤ vec_capacity room }
    ensures { octets_in held.new ≡ take count (octets_in held.old) ++ piece.now }
{
    match held {
        Held::Own(octets) => {
            octets.truncate(count);
            grow(octets, piece, room);
        }
        Held::Shared(shared) => {
            let octets = copied(&shared.as_slice()[..count], piece, room);
            *held = Held::Own(octets);
        }
    }
}

// The ends with one more, in room that was found for it where they have none.
fn push_end(ends: &mut Vec<u32>, end: u32, room: Vec<u32>)
    requires empty { room.items ≡ [] }
    requires none { vec_len room ≡ 0 }
    requires room { vec_len ends.old < vec_capacity room }
    ensures { ends.new.items ≡ ends.old.items ++ end ∷ [] }
{
    if ends.len() == ends.capacity() {
        *ends = ends_moved(ends, room);
    }
    ends.push_reserved(end);
}

fn ends_moved(ends: &mut Vec<u32>, room: Vec<u32>) -> Vec<u32>
    requires empty { room.items ≡ [] }
    requires none { vec_len room ≡ 0 }
    requires room { vec_len ends.old < vec_capacity room }
    ensures items { result.items ≡ ends.old.items }
    ensures room { vec_len result < vec_capacity result }
{
    let mut inner = room;
    match inner.append(ends) {
        Ok(()) => inner,
        Err(_) => unreachable!(),
    }
}

// These octets, held with others.
fn shared_twice(shared: Arc<Octets, Global>) -> (Held, Result<Arc<Octets, Global>, Memory>)
    ensures same { octets_in result.0 ≡ shared.value }
    ensures ok { IfOk result.1 (λ other. other.value ≡ shared.value) }
{
    let other = Arc::try_clone(&shared);
    let held = Held::Shared(shared);
    match other {
        Ok(other) => (held, Ok(other)),
        Err(_) => (held, Err(Memory)),
    }
}

// The same octets, held with others from now on. None is copied, memory that they do not need is given back, and they
// stay where memory is wanted.
fn shared(alloc: Global, held: Held) -> (Held, Result<Arc<Octets, Global>, Memory>)
    ensures same { octets_in result.0 ≡ octets_in held }
    ensures ok { IfOk result.1 (λ other. other.value ≡ octets_in held) }
{
    match held {
        Held::Shared(shared) => shared_twice(shared),
        Held::Own(mut octets) => {
            octets.shrink_to_fit();
            match Arc::new(alloc, Octets::from_vec(octets)) {
                Ok(shared) => shared_twice(shared),
                Err(failed) => (Held::Own(failed.value.into_vec()), Err(Memory)),
            }
        }
    }
}

// The piece stands behind the first octets, as many as are told, in place of all behind them. The first ones stay
// where memory is wanted.
#[tactic(auto, using(crate::proofs::Cuts::kept))]
fn try_put_behind(alloc: Global, held: &mut Held, count: usize, piece: &[u8]) -> Result<(), Memory>
    requires within { count ≤ length (octets_in held.old) }
    ensures kept { take count (octets_in held.new) ≡ take count (octets_in held.old) }
    ensures within { count ≤ length (octets_in held.new) }
    ensures ok { OnOk result (octets_in held.new ≡ take count (octets_in held.old) ++ piece.now) }
{
    match held {
        Held::Own(octets) => {
            octets.truncate(count);
            match octets.extend_from_slice(piece) {
                Ok(()) => Ok(()),
                Err(_) => Err(Memory),
            }
        }
        Held::Shared(shared) => {
            let octets = joined(alloc, &shared.as_slice()[..count], piece)?;
            *held = Held::Own(octets.into_vec());
            Ok(())
        }
    }
}

// The octets, and the piece behind them.
fn joined(alloc: Global, octets: &[u8], piece: &[u8]) -> Result<Octets, Memory>
    ensures { IfOk result (λ o. o ≡ octets.now ++ piece.now) }
{
    let mut joined = Octets::from_slice(alloc, octets)?;
    joined.extend(piece)?;
    Ok(joined)
}

// The octets from one place up to another.
fn between(octets: &[u8], from: usize, to: usize) -> &[u8]
    requires order { from ≤ to }
    requires within { to ≤ length octets.now }
    ensures { result.now ≡ take (to - from) (drop from octets.now) }
{
    &octets[from..to]
}

// The pieces of these octets that have these ends.
fn copies_of(alloc: Global, octets: &[u8], ends: &[u32]) -> Result<Vec<Octets>, Memory>
    requires order { AreEnds 0 ends.now }
    requires within { last_end 0 ends.now ≤ length octets.now }
    ensures { IfOk result (λ v. v.items ≡ pieces_of octets.now 0 ends.now) }
{
    let mut pieces = Vec::with_capacity(alloc, ends.len())?;
    let mut from: usize = 0;
    for end in ends {
        let to = *end as usize;
        let piece = Octets::from_slice(alloc, between(octets, from, to))?;
        pieces.push(piece)?;
        from = to;
    }
    Ok(pieces)
}

impl Pieces {
    /// No pieces, which takes no memory.
    pub fn new(alloc: Global) -> Pieces
        ensures { result ≡ [] }
    {
        Pieces {
            alloc,
            held: Held::Own(Vec::new(alloc)),
            ends: Vec::new(alloc),
        }
    }

    /// These pieces.
    pub fn of(alloc: Global, pieces: &[Octets]) -> Result<Pieces, Memory>
        requires { length (concat pieces.now) < 2 ^ 32 }
        ensures { IfOk result (λ p. p ≡ pieces.now) }
    {
        let mut octets = Vec::new(alloc);
        let mut ends = Vec::with_capacity(alloc, pieces.len())?;
        for piece in pieces {
            octets.extend_from_slice(piece.as_slice())?;
            ends.push(octets.len() as u32)?;
        }
        Ok(Pieces {
            alloc,
            held: Held::Own(octets),
            ends,
        })
    }

    /// Copies of the pieces.
    pub fn copies(&self, alloc: Global) -> Result<Vec<Octets>, Memory>
        ensures { IfOk result (λ v. v.items ≡ self.now) }
    {
        copies_of(alloc, octets_in(&self.held), self.ends.as_slice())
    }

    /// How many there are.
    #[tactic(auto, using(crate::proofs::Cuts::counted))]
    pub fn len(&self) -> usize
        ensures { result ≡ length self.now }
    {
        self.ends.len()
    }

    /// The octets of the first pieces, as many pieces as are asked for, lent.
    #[tactic(auto, using(crate::proofs::Cuts::front))]
    pub fn first(&self, count: usize) -> &[u8]
        ensures { result.now ≡ concat (take count self.now) }
    {
        let end = end_of(self.ends.as_slice(), count) as usize;
        front(octets_in(&self.held), end)
    }

    /// How many octets the first pieces have, as many pieces as are asked for.
    #[tactic(auto, using(crate::proofs::Cuts::front_size))]
    pub fn octets_before(&self, count: usize) -> u64
        ensures { result ≡ length (concat (take count self.now)) }
    {
        u64::from(end_of(self.ends.as_slice(), count))
    }

    /// Room for a piece behind the first ones, as many as are told, and for as many octets more.
    #[tactic(auto, using(crate::proofs::Cuts::more_size, crate::proofs::Cuts::counted))]
    pub fn places(&self, alloc: Global, count: usize, piece: &[u8]) -> Result<Places, Memory>
        ensures { IfOk result (λ room. (length (concat (take count self.now ++ piece.now ∷ [])) ≤ room.octets)
            × (length self.now + 1 ≤ room.ends)) }
    {
        let end = end_of(self.ends.as_slice(), count) as usize;
        let octets = room_for(end, piece.len())?;
        let ends = room_for(self.ends.len(), 1)?;
        let places = Places::new(alloc, octets, ends)?;
        Ok(places)
    }

    /// The piece stands behind the first ones, as many as are asked for, and all other pieces are given up.
    #[tactic(auto, using(crate::proofs::Cuts::put_laws))]
    pub fn put(&mut self, count: usize, piece: Octets, places: Places)
        requires octets { length (concat (take count self.old ++ piece ∷ [])) ≤ places.octets }
        requires ends { length self.old + 1 ≤ places.ends }
        requires fits { length (concat (take count self.old ++ piece ∷ [])) < 2 ^ 32 }
        ensures { self.new ≡ take count self.old ++ piece ∷ [] }
    {
        let end = end_of(self.ends.as_slice(), count);
        let next = end + piece.len() as u32;
        let Places { octets, ends } = places;
        put_behind(&mut self.held, end as usize, piece.as_slice(), octets);
        self.ends.truncate(count);
        push_end(&mut self.ends, next, ends);
    }

    // The octets of all pieces, and of one more behind them, held with others. None that stands is copied while they
    // are of one holder, and the pieces stay as they are.
    #[tactic(auto, using(crate::proofs::Cuts::all, crate::proofs::Cuts::same_all))]
    fn share_all(&mut self, piece: &[u8]) -> Result<Arc<Octets, Global>, Memory>
        ensures same { self.new ≡ self.old }
        ensures ok { IfOk result (λ octets. octets.value ≡ concat self.old ++ piece.now) }
    {
        let end = end_of_all(self.ends.as_slice()) as usize;
        try_put_behind(self.alloc, &mut self.held, end, piece)?;
        let held = mem::replace(&mut self.held, Held::Own(Vec::new(self.alloc)));
        let (held, octets) = shared(self.alloc, held);
        self.held = held;
        octets
    }

    /// The octets of the first pieces, as many as are asked for, and of one more behind them, held with others. Where
    /// the first ones are all, no octet that stands is copied. The pieces stay as they are.
    #[tactic(auto, using(crate::proofs::Cuts::all_fewer))]
    pub fn share(&mut self, count: usize, piece: &[u8]) -> Result<Arc<Octets, Global>, Memory>
        ensures same { self.new ≡ self.old }
        ensures ok { IfOk result (λ octets. octets.value ≡ concat (take count self.old) ++ piece.now) }
    {
        if self.len() <= count {
            return self.share_all(piece);
        }
        let octets = joined(self.alloc, self.first(count), piece)?;
        match Arc::new(self.alloc, octets) {
            Ok(octets) => Ok(octets),
            Err(_) => Err(Memory),
        }
    }

    /// All pieces are given up.
    pub fn clear(&mut self)
        ensures { self.new ≡ [] }
    {
        self.held = Held::Own(Vec::new(self.alloc));
        self.ends.clear();
    }
}
