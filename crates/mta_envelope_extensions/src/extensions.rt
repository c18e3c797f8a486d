//! All extension fields of an envelope.

ghost use Rattle.std.specs.Prelude.{◌≡◌, [], IfOk};
ghost use Rattle.mta_ber.specs.Parts.{Leaves, Reads, IsReadAs};
ghost use Rattle.mta_ber.specs.Seen.{view};
ghost use Rattle.mta_fields.specs.ExtensionFields.{IsExtField};
ghost use Rattle.mta_envelope_extensions.specs.declared.extensions.Extensions.{Extensions};
ghost use Rattle.mta_envelope_extensions.specs.Told.{held_of, with_said, with_told, answer, extension_step};
ghost use Rattle.mta_envelope_extensions.specs.Told.{extensions_in, SpellsExtensions, AreTold};

use crate::field::{Held, Told, read_field};
use crate::value::Said;
use mta_ber::{Components, Kind, ReadFault, View, bad, is_tag_of, take_parts};
use mta_fields::{Expansion, ExtField};
use mta_names::Row;
use std::alloc::Global;

/// The extension fields of an envelope, each kept as it stood, and what those say that are read.
#[derive(Drop)]
pub struct Extensions {
    pub fields: Row<ExtField>,
    /// What the field of type 26 says, dl-expansion-history.
    pub history: Option<Row<Expansion>>,
    /// What the field of type 5 says, latest-delivery-time.
    pub latest: Option<u64>,
    /// What the field of type 3 says, dl-expansion-prohibited.
    pub prohibited: Option<bool>,
}

/// No fields, which takes no memory.
pub fn no_extensions(alloc: Global) -> Extensions
    ensures { result ≡ record { fields = []; history = None; latest = None; prohibited = None } }
{
    Extensions {
        fields: Row::new(alloc),
        history: None,
        latest: None,
        prohibited: None,
    }
}

impl Extensions {
    fn held(&self) -> Held
        ensures { result ≡ held_of self.now }
    {
        Held {
            history: self.history.is_some(),
            latest: self.latest.is_some(),
            prohibited: self.prohibited.is_some(),
        }
    }

    fn hear(&mut self, said: Said)
        ensures { self.new ≡ with_said said self.old }
    {
        match said {
            Said::History(expansions) => {
                self.history = Some(expansions);
            }
            Said::Latest(moment) => {
                self.latest = Some(moment);
            }
            Said::Prohibited(prohibited) => {
                self.prohibited = Some(prohibited);
            }
            Said::Unread => {}
        }
    }

    fn put(&mut self, told: Told) -> Result<(), ReadFault>
        requires { IsExtField told.field }
        ensures { Leaves result self.new (answer (with_told told self.old)) }
    {
        let Told { field, said } = told;
        self.fields.push(ExtField::from_fields(field))?;
        self.hear(said);
        Ok(())
    }
}

impl Components for Extensions {
    ghost step = { extension_step };

    #[tactic(auto, unfolding(crate::specs::Told::extension_step))]
    fn take(&mut self, alloc: Global, part: &View) -> Result<(), ReadFault> {
        if !is_tag_of(part.tag, 0, 16) {
            return bad(part.at, Kind::BadTag);
        }
        let told = read_field(alloc, self.held(), part)?;
        self.put(told)
    }
}

#[tactic(auto, unfolding(crate::specs::Told::extensions_in))]
fn read_parts(alloc: Global, whole: &View) -> Result<Extensions, ReadFault>
    ensures { Reads result (extensions_in (view whole.now)) }
{
    if !whole.tag.constructed {
        return bad(whole.at, Kind::BadTag);
    }
    let mut extensions = no_extensions(alloc);
    take_parts(alloc, whole, &mut extensions)?;
    Ok(extensions)
}

/// The extension fields that an element spells, in any number, whatever its tag, which is for the caller to check.
pub fn read_extensions(alloc: Global, whole: &View) -> Result<Extensions, ReadFault>
    // Which fields they are and what they say, or which fault comes first.
    ensures exact { Reads result (extensions_in (view whole.now)) }

    // What is answered is spelled by the content, and what the content spells is answered.
    ensures found { IfOk result (SpellsExtensions whole.now.depth whole.now.tag.constructed whole.now.content.now) }
    ensures only { (v : Extensions) → SpellsExtensions whole.now.depth whole.now.tag.constructed whole.now.content.now v
        → IsReadAs result v }

    // What is said is what the kept values say.
    ensures told { IfOk result AreTold }
{
    match read_parts(alloc, whole) {
        Ok(extensions) => Ok(extensions),
        Err(fault) => Err(fault),
    }
}
