//! Domain-defined attributes.

ghost use Rattle.std.specs.Prelude.{◌≡◌};
ghost use Rattle.mta_ber.specs.Parts.{Leaves, Reads};
ghost use Rattle.mta_ber.specs.Seen.{view};
ghost use Rattle.mta_names.specs.Lists.{pair_step, pair_text, pair_in, pairs_step, pairs_in};

use crate::attributes::{Pair, PairFields};
use crate::row::Row;
use mta_ber::{
    Components, Kind, ReadFault, Text, TextClass, View, bad, is_tag_of, take_parts, take_required,
};
use std::alloc::Global;

/// The type and the value so far.
#[derive(Drop)]
pub struct PairParts {
    pub kind: Option<Text>,
    pub value: Option<Text>,
}

impl PairParts {
    fn put(&mut self, alloc: Global, part: &View) -> Result<(), ReadFault>
        ensures { Leaves result self.new (pair_text self.old (view part.now)) }
    {
        if self.value.is_some() {
            return bad(part.at, Kind::BadTag);
        }
        if self.kind.is_some() {
            self.value = Some(part.text(alloc, TextClass::Printable, 1, 128)?);
        } else {
            self.kind = Some(part.text(alloc, TextClass::Printable, 1, 8)?);
        }
        Ok(())
    }
}

impl Components for PairParts {
    ghost step = { pair_step };

    #[tactic(auto, unfolding(crate::specs::Lists::pair_step))]
    fn take(&mut self, alloc: Global, part: &View) -> Result<(), ReadFault> {
        if !is_tag_of(part.tag, 0, 19) {
            return bad(part.at, Kind::BadTag);
        }
        self.put(alloc, part)
    }
}

#[tactic(auto, unfolding(crate::specs::Lists::pair_in))]
fn read_fields(alloc: Global, whole: &View) -> Result<PairFields, ReadFault>
    ensures { Reads result (pair_in (view whole.now)) }
{
    if !whole.tag.constructed {
        return bad(whole.at, Kind::BadTag);
    }
    let mut parts = PairParts {
        kind: None,
        value: None,
    };
    take_parts(alloc, whole, &mut parts)?;
    let PairParts { kind, value } = parts;
    let kind = take_required(kind, whole.at)?;
    let value = take_required(value, whole.at)?;
    Ok(PairFields { kind, value })
}

fn read_pair(alloc: Global, whole: &View) -> Result<Pair, ReadFault>
    ensures { Reads result (pair_in (view whole.now)) }
{
    let fields = read_fields(alloc, whole)?;
    Ok(Pair::from_fields(fields))
}

/// The domain-defined attributes so far.
impl Components for Row<Pair> {
    ghost step = { pairs_step };

    fn take(&mut self, alloc: Global, part: &View) -> Result<(), ReadFault> {
        if !is_tag_of(part.tag, 0, 16) {
            return bad(part.at, Kind::BadTag);
        }
        let pair = read_pair(alloc, part)?;
        self.push(pair)?;
        Ok(())
    }
}

/// One to four domain-defined attributes.
#[tactic(auto, unfolding(crate::specs::Lists::pairs_in))]
pub fn read_pairs(alloc: Global, whole: &View) -> Result<Row<Pair>, ReadFault>
    ensures { Reads result (pairs_in (view whole.now)) }
{
    if !whole.tag.constructed {
        return bad(whole.at, Kind::BadTag);
    }
    let mut pairs: Row<Pair> = Row::new(alloc);
    take_parts(alloc, whole, &mut pairs)?;
    let count = pairs.len();
    if count < 1 || 4 < count {
        return bad(whole.at, Kind::BadSize);
    }
    Ok(pairs)
}
