//! Which area of a disk is current, and what stands in it.
//!
//! In come a disk of more than nine octets and its size. A disk has two areas where its first record has
//! a body of ten octets that begins with FF: the selector, and the offset of the second area's first gate
//! follow. That offset is looked at only where the selector is 1; the second area has one record then,
//! and the first would have room for it. Out go the bodies of the current area, or the place where the
//! disk is no journal. The disk is only read.

ghost use Rattle.std.specs.Prelude.{◌≡◌, ◌↔◌, [], ◌∷◌, ◌≤◌, ◌<◌, ℕ, List, length, take};
ghost use Rattle.std.specs.Prelude.{IfOk, IfSome, IfNone, OnOk, IsTrue};
ghost use Rattle.mta_edge.specs.Crashes.{Crash, Stays};
ghost use Rattle.mta_edge.specs.Views.{WhereTold};
ghost use Rattle.mta_journal.specs.Bodies.{magic, HasAreas, IsCurrent};
ghost use Rattle.mta_journal.specs.Faults.{IsNoJournalAt};
ghost use Rattle.mta_journal.specs.Opening.{HasOpenCause, IsPlaced, Marks, OnNotSpool, head};
ghost use Rattle.mta_journal.specs.Shown.{IsPlain};

use crate::read::{Found, check_magic, read, read_bodies, read_one};
use crate::why::OpenWhy;
use mta_disk::frame_of;
use mta_edge::{Disk, Memory, Octets};
use std::alloc::Global;

// What stands behind gate 8 of two areas: the open gate, the length ten and the octet FF.
const HEAD: [u8; 6] = [1, 0, 0, 0, 10, 255];

// What follows it: the selector, and where the second area begins.
#[derive(Clone, Copy)]
struct Areas {
    selector: u8,
    high: u64,
}

/// What stands on a disk: the first gate of the current area, what stands there, and the frame of the second area's
/// record where that one is current.
#[derive(Drop)]
pub struct Placed {
    pub first: u64,
    pub found: Found,
    pub frame: Option<Octets>,
}

// Whether these are the octets with which the record of two areas begins.
fn is_head(octets: &[u8]) -> bool
    ensures { IsTrue result ↔ (octets.now ≡ head) }
{
    octets == HEAD.as_slice()
}

// Finds the mark of two areas on a disk of this size, which begins as a journal does.
fn areas_of<D: Disk>(alloc: Global, disk: &mut D, size: u64) -> Result<Option<Areas>, OpenWhy>
    requires size { WhereTold D.model disk.old (λ f. size ≡ length f) }
    requires magic { WhereTold D.model disk.old (λ f. take 8 f ≡ magic) }
    ensures some { IfOk result (λ o. IfSome o (λ a. WhereTold D.model disk.old (λ f. Marks f a.selector a.high))) }
    ensures long { IfOk result (λ o. IfSome o (λ a. 24 ≤ size)) }
    ensures none { IfOk result (λ o. IfNone o (WhereTold D.model disk.old (λ f. HasAreas f → ⊥))) }
    ensures not_spool { OnNotSpool result (λ p. WhereTold D.model disk.old (λ f. ⊥)) }
    ensures content { D.model.content disk.new ≡ D.model.content disk.old }
    ensures cause { HasOpenCause (D.model.faults disk.old) (D.model.faults disk.new) result }
    ensures crash { Crash D.model Stays disk.old disk.new }
{
    if size < 24 {
        return Ok(None);
    }
    let octets = read(alloc, disk, 8, 15, 8)?;
    let octets = octets.as_slice();
    if !is_head(&octets[..6]) {
        return Ok(None);
    }
    let high = u64::from_be_bytes([
        octets[7], octets[8], octets[9], octets[10], octets[11], octets[12], octets[13], octets[14],
    ]);
    Ok(Some(Areas {
        selector: octets[6],
        high,
    }))
}

// Reads the records of the only area, or of the first of two.
fn in_plain<D: Disk>(alloc: Global, disk: &mut D, first: u64, size: u64) -> Result<Placed, OpenWhy>
    requires long { 9 < size }
    requires size { WhereTold D.model disk.old (λ f. size ≡ length f) }
    requires plain { IsPlain first }
    requires place { WhereTold D.model disk.old (λ f. (bodies : List (List ℕ)) → IsCurrent first bodies f) }
    requires inside { first < size }
    ensures placed { IfOk result (λ r. IsPlaced D.model disk.old r.first r.found.size r.found.bodies.items r.frame) }
    ensures not_spool { OnNotSpool result (λ p. WhereTold D.model disk.old (λ f. IsNoJournalAt f p)) }
    ensures content { D.model.content disk.new ≡ D.model.content disk.old }
    ensures cause { HasOpenCause (D.model.faults disk.old) (D.model.faults disk.new) result }
    ensures crash { Crash D.model Stays disk.old disk.new }
{
    let found = read_bodies(alloc, disk, first, size)?;
    Ok(Placed {
        first,
        found,
        frame: None,
    })
}

// Reads the one record of the second area.
fn in_second<D: Disk>(alloc: Global, disk: &mut D, high: u64, size: u64) -> Result<Placed, OpenWhy>
    requires long { 9 < size }
    requires size { WhereTold D.model disk.old (λ f. size ≡ length f) }
    requires marked { WhereTold D.model disk.old (λ f. Marks f 1 high) }
    ensures placed { IfOk result (λ r. IsPlaced D.model disk.old r.first r.found.size r.found.bodies.items r.frame) }
    ensures not_spool { OnNotSpool result (λ p. WhereTold D.model disk.old (λ f. IsNoJournalAt f p)) }
    ensures content { D.model.content disk.new ≡ D.model.content disk.old }
    ensures cause { HasOpenCause (D.model.faults disk.old) (D.model.faults disk.new) result }
    ensures crash { Crash D.model Stays disk.old disk.new }
{
    if high < 24 || high >= size {
        return Err(OpenWhy::NotSpool { at: 15 });
    }
    let body = read_one(alloc, disk, high, size)?;
    if high < 29 + body.len() as u64 {
        return Err(OpenWhy::NotSpool { at: 15 });
    }
    let frame = frame_of(alloc, body.as_slice())?;
    let size = high + body.len() as u64 + 6;
    let bodies = only(alloc, body)?;
    Ok(Placed {
        first: high,
        found: Found { size, bodies },
        frame: Some(frame),
    })
}

// This body alone.
fn only(alloc: Global, body: Octets) -> Result<Vec<Octets>, Memory>
    ensures { IfOk result (λ v. v.items ≡ body ∷ []) }
{
    let mut bodies = Vec::new(alloc);
    bodies.push(body)?;
    Ok(bodies)
}

// Finds what stands in the current one of two areas.
fn in_areas<D: Disk>(
    alloc: Global,
    disk: &mut D,
    areas: Areas,
    size: u64,
) -> Result<Placed, OpenWhy>
    requires long { 24 ≤ size }
    requires size { WhereTold D.model disk.old (λ f. size ≡ length f) }
    requires marked { WhereTold D.model disk.old (λ f. Marks f areas.selector areas.high) }
    ensures placed { IfOk result (λ r. IsPlaced D.model disk.old r.first r.found.size r.found.bodies.items r.frame) }
    ensures not_spool { OnNotSpool result (λ p. WhereTold D.model disk.old (λ f. IsNoJournalAt f p)) }
    ensures content { D.model.content disk.new ≡ D.model.content disk.old }
    ensures cause { HasOpenCause (D.model.faults disk.old) (D.model.faults disk.new) result }
    ensures crash { Crash D.model Stays disk.old disk.new }
{
    if areas.selector == 1 {
        let placed = in_second(alloc, disk, areas.high, size)?;
        return Ok(placed);
    }
    let placed = in_plain(alloc, disk, 23, size)?;
    Ok(placed)
}

/// Finds the current area of a disk of this size, and what stands in it.
pub fn find_area<D: Disk>(alloc: Global, disk: &mut D, size: u64) -> Result<Placed, OpenWhy>
    requires long { 9 < size }
    requires size { WhereTold D.model disk.old (λ f. size ≡ length f) }
    ensures placed { IfOk result (λ r. IsPlaced D.model disk.old r.first r.found.size r.found.bodies.items r.frame) }
    ensures not_spool { OnNotSpool result (λ p. WhereTold D.model disk.old (λ f. IsNoJournalAt f p)) }
    ensures content { D.model.content disk.new ≡ D.model.content disk.old }
    ensures cause { HasOpenCause (D.model.faults disk.old) (D.model.faults disk.new) result }
    ensures crash { Crash D.model Stays disk.old disk.new }
{
    check_magic(alloc, disk)?;
    match areas_of(alloc, disk, size)? {
        None => {
            let placed = in_plain(alloc, disk, 8, size)?;
            Ok(placed)
        }
        Some(areas) => {
            let placed = in_areas(alloc, disk, areas, size)?;
            Ok(placed)
        }
    }
}
