//! Reading the records of an area.
//!
//! In come a disk, its size and the area's first gate; out go the bodies up to the first closed gate, or
//! the place of the first open gate whose record passes the end or is too long. Short records are read
//! ahead, many in one call; of a long one the first octets are read, and then the body behind its length,
//! so no announced length is believed. The disk is only read.

ghost use Rattle.std.specs.Prelude.{◌≡◌, ◌++◌, [], ◌∷◌, ◌+◌, ◌^◌, ◌≤◌, ◌<◌, length, take};
ghost use Rattle.std.specs.Prelude.{drop, min, IfOk, OnOk, IfSome, IfNone};
ghost use Rattle.mta_edge.specs.Crashes.{Crash, Stays};
ghost use Rattle.mta_edge.specs.Views.{WhereTold};
ghost use Rattle.mta_journal.specs.Bodies.{magic, records, longest_first, AreWithin, HasRecords};
ghost use Rattle.mta_journal.specs.Faults.{DiffersAt, FaultyAt};
ghost use Rattle.mta_journal.specs.Heads.{SaysHead};
ghost use Rattle.mta_journal.specs.Opening.{HasNotOne, HasOpenCause, OnNotSpool, IsAhead, StandsAt, ClosedAt, BrokenAt};

use crate::ahead::Ahead;
use crate::why::OpenWhy;
use mta_disk::{ReadAtFault, read_at};
use mta_edge::{Disk, Memory, Octets};
use std::alloc::Global;

// The octets `MTASPL01`.
const MAGIC: [u8; 8] = *b"MTASPL01";

/// The most octets of a body that is not the first of its area.
pub const LONGEST_BODY: u32 = 4_194_304;

/// The most octets of the first body of an area.
pub const LONGEST_FIRST: u32 = 268_435_456;

/// What stands in an area: the octets used, and the bodies.
#[derive(Drop)]
pub struct Found {
    pub size: u64,
    pub bodies: Vec<Octets>,
}

/// What the first octets of a record say.
pub enum Head {
    /// Its gate is closed.
    Closed,
    /// Its gate is open, and the record passes the disk's end or is too long.
    Broken,
    /// Its gate is open, and its body has so many octets.
    Open { length: u32 },
}

/// The octets from `at` on. A disk that ends before is no journal at `place`.
pub fn read<D: Disk>(
    alloc: Global,
    disk: &mut D,
    at: u64,
    count: u32,
    place: u64,
) -> Result<Octets, OpenWhy>
    ensures octets { IfOk result (λ o. WhereTold D.model disk.old (λ f. o ≡ take count (drop at f))) }
    ensures whole { IfOk result (λ o. length o ≡ count) }
    ensures short { OnNotSpool result (λ p. WhereTold D.model disk.old (λ f. length (drop at f) < count)) }
    ensures content { D.model.content disk.new ≡ D.model.content disk.old }
    ensures cause { HasOpenCause (D.model.faults disk.old) (D.model.faults disk.new) result }
    ensures crash { Crash D.model Stays disk.old disk.new }
{
    match read_at(alloc, disk, at, count) {
        Ok(octets) => Ok(octets),
        Err(ReadAtFault::Short { size: _ }) => Err(OpenWhy::NotSpool { at: place }),
        Err(ReadAtFault::Disk) => Err(OpenWhy::Disk),
        Err(ReadAtFault::Memory) => Err(OpenWhy::Memory),
    }
}

// The first of eight octets that is not that of a journal.
#[tactic(auto, unfolding(crate::specs::Bodies::magic))]
fn first_other(head: &[u8]) -> Option<usize>
    requires { length head.now ≡ 8 }
    ensures none { IfNone result (head.now ≡ magic) }
    ensures some { IfSome result (λ at. DiffersAt head.now at) }
{
    for at in 0..8 {
        if head[at] != MAGIC[at] {
            return Some(at);
        }
    }
    None
}

/// Finds the eight octets with which each journal begins.
pub fn check_magic<D: Disk>(alloc: Global, disk: &mut D) -> Result<(), OpenWhy>
    requires long { WhereTold D.model disk.old (λ f. 9 < length f) }
    ensures magic { OnOk result (WhereTold D.model disk.old (λ f. take 8 f ≡ magic)) }
    ensures differs { OnNotSpool result (λ p. WhereTold D.model disk.old (λ f. DiffersAt f p)) }
    ensures content { D.model.content disk.new ≡ D.model.content disk.old }
    ensures cause { HasOpenCause (D.model.faults disk.old) (D.model.faults disk.new) result }
    ensures crash { Crash D.model Stays disk.old disk.new }
{
    let head = read(alloc, disk, 0, 8, 0)?;
    match first_other(head.as_slice()) {
        None => Ok(()),
        Some(at) => Err(OpenWhy::NotSpool { at: at as u64 }),
    }
}

// The first five octets of a piece, or all where it has fewer.
fn first_five(piece: &[u8]) -> &[u8]
    ensures { result.now ≡ take 5 piece.now }
{
    if piece.len() < 5 {
        return piece;
    }
    &piece[..5]
}

// What the first five octets of a record say, or all that are left.
fn head_of(head: &[u8], left: u64, most: u32) -> Head
    requires some { 0 < left }
    requires length { length head.now ≡ min left 5 }
    ensures { SaysHead most head.now left result }
{
    if head[0] != 1 {
        return Head::Closed;
    }
    if head.len() < 5 {
        return Head::Broken;
    }
    let length = u32::from_be_bytes([head[1], head[2], head[3], head[4]]);
    if length > most || left < length as u64 + 6 {
        return Head::Broken;
    }
    Head::Open { length }
}

// The body of so many octets in the record behind the gate at `gate`, of which a piece was read: from the piece
// where it has the body, and else from the disk.
fn body_of<D: Disk>(
    alloc: Global,
    disk: &mut D,
    gate: u64,
    piece: &[u8],
    count: u32,
) -> Result<Octets, OpenWhy>
    requires room { gate + count + 5 < 2 ^ 64 }
    requires piece { WhereTold D.model disk.old (IsAhead gate piece.now) }
    ensures octets { IfOk result (λ o. WhereTold D.model disk.old (λ f. o ≡ take count (drop (gate + 5) f))) }
    ensures whole { IfOk result (λ o. length o ≡ count) }
    ensures short { OnNotSpool result (λ p. WhereTold D.model disk.old (λ f. length (drop (gate + 5) f) < count)) }
    ensures content { D.model.content disk.new ≡ D.model.content disk.old }
    ensures cause { HasOpenCause (D.model.faults disk.old) (D.model.faults disk.new) result }
    ensures crash { Crash D.model Stays disk.old disk.new }
{
    let end = count as usize + 5;
    if end <= piece.len() {
        let body = Octets::from_slice(alloc, &piece[5..end])?;
        return Ok(body);
    }
    read(alloc, disk, gate + 5, count, gate)
}

// Reads on from the gate at `gate`, from which on so many octets are left, where its first five are not read yet, or
// all where fewer are left.
fn read_ahead<D: Disk>(
    alloc: Global,
    disk: &mut D,
    ahead: &mut Ahead,
    gate: u64,
    left: u64,
) -> Result<(), OpenWhy>
    requires size { WhereTold D.model disk.old (λ f. length f ≡ gate + left) }
    requires ahead { WhereTold D.model disk.old (IsAhead gate ahead.old) }
    requires few { length ahead.old ≤ left }
    ensures ahead { OnOk result (WhereTold D.model disk.old (IsAhead gate ahead.new)) }
    ensures few { OnOk result (length ahead.new ≤ left) }
    ensures head { OnOk result (min left 5 ≤ length ahead.new) }
    ensures short { OnNotSpool result (λ p. WhereTold D.model disk.old (λ f. ⊥)) }
    ensures content { D.model.content disk.new ≡ D.model.content disk.old }
    ensures cause { HasOpenCause (D.model.faults disk.old) (D.model.faults disk.new) result }
    ensures crash { Crash D.model Stays disk.old disk.new }
{
    if left.min(5) <= ahead.as_slice().len() as u64 {
        return Ok(());
    }
    let octets = read(
        alloc,
        disk,
        gate,
        left.min(ahead.count() as u64) as u32,
        gate,
    )?;
    ahead.put(octets);
    Ok(())
}

// The body in the record behind the gate at `gate`, or none where that gate is closed.
fn read_body<D: Disk>(
    alloc: Global,
    disk: &mut D,
    ahead: &mut Ahead,
    gate: u64,
    size: u64,
    most: u32,
) -> Result<Option<Octets>, OpenWhy>
    requires inside { gate < size }
    requires size { WhereTold D.model disk.old (λ f. size ≡ length f) }
    requires ahead { WhereTold D.model disk.old (IsAhead gate ahead.old) }
    requires few { gate + length ahead.old ≤ size }
    ensures ahead { IfOk result (λ o. IfSome o (λ b. WhereTold D.model disk.old
        (IsAhead (gate + length b + 5) ahead.new))) }
    ensures few { IfOk result (λ o. IfSome o (λ b. gate + length b + 5 + length ahead.new ≤ size)) }
    ensures body { IfOk result (λ o. IfSome o (λ b. WhereTold D.model disk.old (StandsAt most gate b))) }
    ensures fits { IfOk result (λ o. IfSome o (λ b. (length b ≤ most) × (gate + length b + 5 < size))) }
    ensures closed { IfOk result (λ o. IfNone o (WhereTold D.model disk.old (ClosedAt gate))) }
    ensures broken { OnNotSpool result (λ p. WhereTold D.model disk.old (λ f. (p ≡ gate) × BrokenAt most gate f)) }
    ensures content { D.model.content disk.new ≡ D.model.content disk.old }
    ensures cause { HasOpenCause (D.model.faults disk.old) (D.model.faults disk.new) result }
    ensures crash { Crash D.model Stays disk.old disk.new }
{
    let left = size - gate;
    read_ahead(alloc, disk, ahead, gate, left)?;
    match head_of(first_five(ahead.as_slice()), left, most) {
        Head::Closed => Ok(None),
        Head::Broken => Err(OpenWhy::NotSpool { at: gate }),
        Head::Open { length } => {
            let body = body_of(alloc, disk, gate, ahead.as_slice(), length)?;
            ahead.pass(length as usize + 5);
            Ok(Some(body))
        }
    }
}

/// Reads the records of a disk of this size from a gate on, up to the first closed one.
pub fn read_bodies<D: Disk>(
    alloc: Global,
    disk: &mut D,
    first: u64,
    size: u64,
) -> Result<Found, OpenWhy>
    requires long { first < size }
    requires size { WhereTold D.model disk.old (λ f. size ≡ length f) }
    ensures found { IfOk result (λ r. WhereTold D.model disk.old (λ f. HasRecords first r.bodies.items f)) }
    ensures size { IfOk result (λ r. r.size ≡ first + length (records r.bodies.items) + 1) }
    ensures within { IfOk result (λ r. r.size ≤ size) }
    ensures short { IfOk result (λ r. AreWithin longest_first r.bodies.items) }
    ensures broken { OnNotSpool result (λ p. WhereTold D.model disk.old (λ f. FaultyAt first f p)) }
    ensures content { D.model.content disk.new ≡ D.model.content disk.old }
    ensures cause { HasOpenCause (D.model.faults disk.old) (D.model.faults disk.new) result }
    ensures crash { Crash D.model Stays disk.old disk.new }
{
    let mut bodies = Vec::new(alloc);
    let mut ahead = Ahead::new(alloc);
    let mut gate: u64 = first;
    let mut most = LONGEST_FIRST;
    'records: loop {
        match read_body(alloc, disk, &mut ahead, gate, size, most)? {
            None => {
                return Ok(Found {
                    size: gate + 1,
                    bodies,
                });
            }
            Some(body) => {
                gate += body.len() as u64 + 5;
                most = LONGEST_BODY;
                keep(&mut bodies, body)?;
            }
        }
    }
}

// Puts a body behind the others.
fn keep(bodies: &mut Vec<Octets>, body: Octets) -> Result<(), Memory>
    ensures { OnOk result (bodies.new.items ≡ bodies.old.items ++ body ∷ []) }
{
    bodies.push(body)?;
    Ok(())
}

/// Reads the one record of a disk of this size from a gate on. Where it is not one open record, the disk is no journal
/// at that gate.
pub fn read_one<D: Disk>(
    alloc: Global,
    disk: &mut D,
    gate: u64,
    size: u64,
) -> Result<Octets, OpenWhy>
    requires inside { gate < size }
    requires size { WhereTold D.model disk.old (λ f. size ≡ length f) }
    ensures one { IfOk result (λ b. WhereTold D.model disk.old (λ f. HasRecords gate (b ∷ []) f)) }
    ensures fits { IfOk result (λ b. (length b ≤ longest_first) × (gate + length b + 5 < size)) }
    ensures not_one { OnNotSpool result (λ p. WhereTold D.model disk.old (λ f. (p ≡ gate) × HasNotOne gate f)) }
    ensures content { D.model.content disk.new ≡ D.model.content disk.old }
    ensures cause { HasOpenCause (D.model.faults disk.old) (D.model.faults disk.new) result }
    ensures crash { Crash D.model Stays disk.old disk.new }
{
    let mut ahead = Ahead::new(alloc);
    match read_body(alloc, disk, &mut ahead, gate, size, LONGEST_FIRST)? {
        None => Err(OpenWhy::NotSpool { at: gate }),
        Some(body) => {
            let next = read(alloc, disk, gate + 5 + body.len() as u64, 1, gate)?;
            if next.as_slice()[0] == 1 {
                return Err(OpenWhy::NotSpool { at: gate });
            }
            Ok(body)
        }
    }
}
