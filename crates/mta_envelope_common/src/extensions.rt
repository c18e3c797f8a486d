//! Lists of extension fields.

ghost use Rattle.std.specs.Prelude.{◌≡◌, List, OnOk, OnErr, IfOk};
ghost use Rattle.std.specs.List.{flat_map};
ghost use Rattle.mta_ber.specs.Canon.{IsTag, appended};
ghost use Rattle.mta_ber.specs.Parts.{Leaves, Reads, IsReadAs};
ghost use Rattle.mta_ber.specs.Seen.{view};
ghost use Rattle.mta_fields.specs.declared.extension.ExtFields.{ExtFields};
ghost use Rattle.mta_fields.specs.ExtensionFields.{canonical_ext};
ghost use Rattle.mta_envelope_common.specs.ExtensionLists.{ext_list_step, ext_list_in, SpellsExtList};
ghost use Rattle.mta_envelope_common.specs.ExtensionLists.{canonical_ext_list};

use mta_ber::{Components, Kind, Memory, ReadFault, Tag, View, Writer, bad, is_tag_of, take_parts};
use mta_fields::ExtField;
use mta_names::{Row, put_around};
use std::alloc::Global;
use std::marker::Model;

/// The fields so far.
#[derive(Drop)]
pub struct ExtRow {
    fields: Row<ExtField>,
}

impl Model for ExtRow {
    ghost use Rattle.std.specs.Prelude.{List};
    ghost use Rattle.mta_fields.specs.declared.extension.ExtFields.{ExtFields};

    ghost Value = { List ExtFields };

    ghost view = { λ r. r.fields };
}

impl Components for ExtRow {
    ghost step = { ext_list_step };

    fn take(&mut self, alloc: Global, part: &View) -> Result<(), ReadFault> {
        if !is_tag_of(part.tag, 0, 16) {
            return bad(part.at, Kind::BadTag);
        }
        let field = ExtField::read(alloc, part)?;
        self.fields.push(field)?;
        Ok(())
    }
}

#[tactic(auto, unfolding(crate::specs::ExtensionLists::ext_list_in))]
fn extensions_of(alloc: Global, whole: &View) -> Result<Row<ExtField>, ReadFault>
    ensures { Reads result (ext_list_in (view whole.now)) }
{
    if !whole.tag.constructed {
        return bad(whole.at, Kind::BadTag);
    }
    let mut row = ExtRow {
        fields: Row::new(alloc),
    };
    take_parts(alloc, whole, &mut row)?;
    let ExtRow { fields } = row;
    Ok(fields)
}

/// The extension fields that an element spells (X.411, Extensions), whatever its tag, which is for the caller to check:
/// a SET OF extension fields in any number, kept in the order in which they stand.
pub fn read_extensions(alloc: Global, part: &View) -> Result<Row<ExtField>, ReadFault>
    // Which fields they are, or which fault comes first.
    ensures exact { Reads result (ext_list_in (view part.now)) }

    // What is answered is spelled by the content, and what the content spells is answered.
    ensures found { IfOk result (SpellsExtList part.now.depth part.now.tag.constructed part.now.content.now) }
    ensures only { (v : List ExtFields) → SpellsExtList part.now.depth part.now.tag.constructed part.now.content.now v
        → IsReadAs result v }
{
    extensions_of(alloc, part)
}

fn put_fields(w: &mut Writer, fields: &[ExtField]) -> Result<(), Memory>
    ensures { OnOk result (w.new ≡ appended w.old (flat_map canonical_ext fields.now)) }
{
    for field in fields {
        field.write(w)?;
    }
    Ok(())
}

/// Appends extension fields in their canonical octets, in the order held and under a tag; nothing where there are none.
#[tactic(auto, using(crate::proofs::Written::appended_none))]
pub fn put_extensions(w: &mut Writer, tag: Tag, fields: &Row<ExtField>) -> Result<(), Memory>
    requires { IsTag tag }
    ensures ok { OnOk result (w.new ≡ appended w.old (canonical_ext_list tag fields.now)) }
    ensures err { OnErr result (w.new ≡ w.old) }
{
    match fields.as_slice() {
        [] => Ok(()),
        fields => {
            let mut inside = Writer::new(w.alloc());
            put_fields(&mut inside, fields)?;
            put_around(w, tag, &inside)
        }
    }
}
