//! The history of expansions.

ghost use Rattle.std.specs.Prelude.{◌≡◌, List, length, [], ◌++◌, ◌∷◌, OnOk, OnErr};
ghost use Rattle.mta_ber.specs.Parts.{Leaves, Reads};
ghost use Rattle.mta_ber.specs.Seen.{view};
ghost use Rattle.mta_envelope_extensions.specs.Topics.{expansion_step, history_in};

use mta_ber::{Components, Kind, ReadFault, View, bad, is_tag_of, take_parts};
use mta_fields::Expansion;
use mta_names::Row;
use std::alloc::Global;
use std::marker::Model;

/// The expansions so far.
#[derive(Drop)]
pub struct Expansions {
    items: Row<Expansion>,
}

impl Model for Expansions {
    ghost use Rattle.std.specs.Prelude.{List};
    ghost use Rattle.mta_fields.specs.declared.expansion.ExpansionFields.{ExpansionFields};

    ghost Value = { List ExpansionFields };

    ghost view = { λ e. e.items };
}

impl Components for Expansions {
    ghost step = { expansion_step };

    fn take(&mut self, alloc: Global, part: &View) -> Result<(), ReadFault> {
        if !is_tag_of(part.tag, 0, 16) {
            return bad(part.at, Kind::BadTag);
        }
        let expansion = Expansion::read(alloc, part)?;
        self.items.push(expansion)?;
        Ok(())
    }
}

/// One to 512 expansions (X.411, DLExpansionHistory), whatever the tag of the element. BadSize where there are none or
/// more.
#[tactic(auto, unfolding(crate::specs::Topics::history_in))]
pub fn read_history(alloc: Global, whole: &View) -> Result<Row<Expansion>, ReadFault>
    ensures { Reads result (history_in (view whole.now)) }
{
    if !whole.tag.constructed {
        return bad(whole.at, Kind::BadTag);
    }
    let mut expansions = Expansions {
        items: Row::new(alloc),
    };
    take_parts(alloc, whole, &mut expansions)?;
    let Expansions { items } = expansions;
    let count = items.len();
    if count < 1 || 512 < count {
        return bad(whole.at, Kind::BadSize);
    }
    Ok(items)
}
