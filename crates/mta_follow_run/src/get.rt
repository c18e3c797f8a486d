//! Units that come over a link.

ghost use Rattle.std.specs.Prelude.{◌≡◌, ◌≢◌, ◌<◌, true, false, IfOk, OnErr};
ghost use Rattle.mta_follow_units.specs.Feed.{wanted};
ghost use Rattle.mta_follow_units.specs.Look.{Cut, look};
ghost use Rattle.mta_follow_units.specs.Units.{IsCut};
ghost use Rattle.mta_follow_run.specs.Getting.{Gets, HasFed, Moves};

use mta_ber::Memory;
use mta_follow_units::{Due, Look, Reader};
use mta_links::Link;

// Moves octets of the unit that is due into the reader. False where no more come. The memory for them is taken before
// they are asked for: after want of it link and reader are as before.
fn fill<L: Link>(link: &mut L, reader: &mut Reader) -> Result<bool, Memory>
    requires { 0 < wanted reader.old.left }
    ensures moved { IfOk result (λ more. Moves L.model more link.old reader.old link.new reader.new) }
    ensures err { OnErr result ((link.new ≡ link.old) × (reader.new ≡ reader.old)) }
{
    let mut buffer = [0u8; 4096];
    let room = reader.wants().min(buffer.len());
    reader.reserve(room)?;
    let piece = &mut buffer[..room];
    let Ok(count) = link.get(piece) else {
        return Ok(false);
    };
    if count == 0 {
        return Ok(false);
    }
    reader.feed(&piece[..count])?;
    Ok(true)
}

// Whether too little of the unit that is due came to tell it.
fn is_cut(reader: &Reader, due: Due) -> bool
    ensures cut { result ≡ true → IsCut due reader.now.left }
    ensures wants { result ≡ true → 0 < wanted reader.now.left }
    ensures told { result ≡ false → look due reader.now.left ≢ Cut }
{
    match reader.look(due) {
        Look::Cut => true,
        Look::Bad => false,
        Look::Record(_) => false,
        Look::Done => false,
        Look::Kept => false,
    }
}

/// Whether a unit came, whole or so far that it is none that is due; else no more octets come. After want of memory all
/// that came stands in the reader: whoever asks again is answered as if there had been none.
pub fn get_unit<L: Link>(link: &mut L, reader: &mut Reader, due: Due) -> Result<bool, Memory>
    ensures got { IfOk result (λ whole. Gets L.model due whole link.old reader.old link.new reader.new) }
    ensures kept { OnErr result (HasFed L.model link.old reader.old link.new reader.new) }
{
    while is_cut(reader, due) {
        if !fill(link, reader)? {
            return Ok(false);
        }
    }
    Ok(true)
}
