//! Units that are put over a link.

ghost use Rattle.std.specs.Prelude.{◌≡◌, ◌≤◌, ◌<◌, ◌^◌, length};
ghost use Rattle.mta_follow_units.specs.Units.{number_unit, record_unit};
ghost use Rattle.mta_follow_run.specs.Talks.{HasPut};

use mta_edge::Failed;
use mta_follow_units::{number_unit, record_head};
use mta_links::Link;

// Puts all of the octets, or a front of them where the link fails.
fn put_all<L: Link>(link: &mut L, bytes: &[u8]) -> Result<(), Failed>
    ensures { HasPut L.model bytes.now link.old link.new result }
{
    let mut rest = bytes;
    while !rest.is_empty() {
        let count = link.put(rest)?;
        let (_, after) = rest.split_at(count);
        rest = after;
    }
    Ok(())
}

/// Puts a record with this body, which is not copied.
pub fn put_record<L: Link>(link: &mut L, body: &[u8]) -> Result<(), Failed>
    requires { length body.now < 2 ^ 32 }
    ensures { HasPut L.model (record_unit body.now) link.old link.new result }
{
    put_all(link, &record_head(body.len() as u32))?;
    put_all(link, body)
}

/// Puts a unit of this kind whose body is a number.
pub fn put_number<L: Link>(link: &mut L, kind: u8, number: u64) -> Result<(), Failed>
    ensures { HasPut L.model (number_unit kind number) link.old link.new result }
{
    put_all(link, &number_unit(kind, number))
}
