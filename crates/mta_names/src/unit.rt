//! Unit names.

ghost use Rattle.std.specs.Prelude.{◌≡◌};
ghost use Rattle.mta_ber.specs.Parts.{Leaves, Reads};
ghost use Rattle.mta_ber.specs.Seen.{view};
ghost use Rattle.mta_names.specs.Lists.{unit_step, units_in};

use crate::row::Row;
use mta_ber::{Components, Kind, ReadFault, Text, TextClass, View, bad, is_tag_of, take_parts};
use std::alloc::Global;

/// The unit names so far.
impl Components for Row<Text> {
    ghost step = { unit_step };

    fn take(&mut self, alloc: Global, part: &View) -> Result<(), ReadFault> {
        if !is_tag_of(part.tag, 0, 19) {
            return bad(part.at, Kind::BadTag);
        }
        let unit = part.text(alloc, TextClass::Printable, 1, 32)?;
        self.push(unit)?;
        Ok(())
    }
}

/// One to four unit names.
#[tactic(auto, unfolding(crate::specs::Lists::units_in))]
pub fn read_units(alloc: Global, whole: &View) -> Result<Row<Text>, ReadFault>
    ensures { Reads result (units_in (view whole.now)) }
{
    if !whole.tag.constructed {
        return bad(whole.at, Kind::BadTag);
    }
    let mut units: Row<Text> = Row::new(alloc);
    take_parts(alloc, whole, &mut units)?;
    let count = units.len();
    if count < 1 || 4 < count {
        return bad(whole.at, Kind::BadSize);
    }
    Ok(units)
}
