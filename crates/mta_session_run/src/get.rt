//! Units that come over a link.

ghost use Rattle.std.specs.Prelude.{◌≡◌, ◌≤◌, List, ℕ, Option, true, false, IfOk, OnErr};
ghost use Rattle.mta_units.specs.declared.next.Next.TheVariants.{More};
ghost use Rattle.mta_units.specs.declared.unit.Unit.{Unit as AnyUnit};
ghost use Rattle.mta_links.specs.Links.{Leads, Talk};
ghost use Rattle.mta_units.specs.Reading.{Says, and_next};
ghost use Rattle.mta_session_run.specs.Carried.{Carried, FedBy, IsOver, and_heard, Ends};

use mta_ber::Memory;
use mta_links::Link;
use mta_units::{Frames, Next, Unit};

/// What came: a unit, octets that are none, or that no more comes.
#[derive(Drop)]
pub enum Heard {
    Unit(Unit),
    Bad,
    Over,
}

/// What comes next of the octets that were moved so far.
fn read_next(frames: &mut Frames) -> Result<Next, Memory>
    ensures carried { (f g : Talk) (us : List AnyUnit) (octets : List ℕ) → Carried us octets frames.old f g →
        IfOk result (λ n. Carried (and_next us n) octets frames.new f g) }
    ensures says { IfOk result (λ n. Says n frames.new) }
    ensures same { IfOk result (λ n. n ≡ More → frames.new ≡ frames.old) }
    ensures err { OnErr result (frames.new ≡ frames.old) }
{
    frames.next()
}

// Octets that are asked of a link at once.
const MOST_AT_ONCE: usize = 4096;

/// Moves octets that come over the link into the frames. False where no more come. The memory for them is taken before
/// they are asked for: after want of it link and frames are as before. Where 2^64 octets have come, less 4,097, they
/// are as many as the frames can count: it is want of memory then.
fn fill<L: Link>(link: &mut L, frames: &mut Frames) -> Result<bool, Memory>
    ensures carried { (since : Option Talk) (us : List AnyUnit) (octets : List ℕ) →
        Leads (Carried us octets frames.old) since (L.model.talk link.old) →
        IfOk result (λ more. Leads (Carried us octets frames.new) since (L.model.talk link.new)) }
    ensures err { OnErr result ((link.new ≡ link.old) × (frames.new ≡ frames.old)) }
    ensures fed { IfOk result (λ more. FedBy more frames.old frames.new) }
    ensures over { IfOk result (λ more. more ≡ false →
        IsOver L.model (L.model.faults link.old) link.new) }
    ensures later { L.model.faults link.old ≤ L.model.faults link.new }
{
    let mut buffer = [0u8; MOST_AT_ONCE];
    if frames.room() < MOST_AT_ONCE as u64 {
        return Err(Memory);
    }
    frames.reserve(MOST_AT_ONCE)?;
    let Ok(count) = link.get(&mut buffer) else {
        return Ok(false);
    };
    if count == 0 {
        return Ok(false);
    }
    frames.feed(&buffer[..count])?;
    Ok(true)
}

/// The next unit that comes. With what was not taken, the units answered so far are all that the link gave. So it is
/// after want of memory too: whoever asks again is answered as if there had been none.
///
/// `Over` comes only where the link failed, or its input was read to the end. More than 2^64 octets, less 4,097, are as
/// if there were no memory for them.
pub fn get_unit<L: Link>(link: &mut L, frames: &mut Frames) -> Result<Heard, Memory>
    ensures carried { (since : Option Talk) (us : List AnyUnit) (octets : List ℕ) →
        Leads (Carried us octets frames.old) since (L.model.talk link.old) →
        IfOk result (λ h. Leads (Carried (and_heard us h) octets frames.new) since (L.model.talk link.new)) }
    ensures kept { (since : Option Talk) (us : List AnyUnit) (octets : List ℕ) →
        Leads (Carried us octets frames.old) since (L.model.talk link.old) →
        OnErr result (Leads (Carried us octets frames.new) since (L.model.talk link.new)) }
    ensures ends { IfOk result (λ h. Ends L.model (L.model.faults link.old) h link.new frames.new) }
    ensures later { L.model.faults link.old ≤ L.model.faults link.new }
{
    loop {
        match read_next(frames)? {
            Next::Unit(unit) => return Ok(Heard::Unit(unit)),
            Next::Bad { .. } => return Ok(Heard::Bad),
            Next::More => {
                if !fill(link, frames)? {
                    return Ok(Heard::Over);
                }
            }
        }
    }
}
