//! O/R names.

use crate::attributes::Attributes;
use crate::length::components_length;
use crate::reading::read_attributes;
use crate::writing::put_components;
use mta_ber::{Memory, ReadFault, Tag, View, Writer, element_length};
use std::alloc::Global;
use std::marker::Model;

/// An O/R name: attributes, each with the characters and the size that it may have.
pub struct OrName {
    pub(crate) attributes: Attributes,
}

// Written out, since a derived one is opened anew, field by field, at each place where a value is let go.
impl Drop for OrName {
    fn drop(self) {
        let OrName { attributes: _ } = self;
    }
}

impl Model for OrName {
    ghost use Rattle.mta_names.specs.declared.attributes.Attributes.{Attributes};
    ghost use Rattle.mta_names.specs.Values.{IsName};

    ghost Value = { Attributes };

    ghost view = { λ n. n.attributes };

    ghost invariant = { λ n. IsName n.attributes };
}

impl OrName {
    ghost use Rattle.std.specs.Prelude.{◌≡◌, ◌<◌, IfOk, OnOk, OnErr};
    ghost use Rattle.mta_ber.specs.Canon.{IsTag, appended};
    ghost use Rattle.mta_ber.specs.Lengths.{octet_length};
    ghost use Rattle.mta_ber.specs.Parts.{Reads, IsReadAs};
    ghost use Rattle.mta_ber.specs.Seen.{view};
    ghost use Rattle.mta_names.specs.declared.attributes.Attributes.{Attributes};
    ghost use Rattle.mta_names.specs.Names.{name_in, SpellsName, canonical_name};
    ghost use Rattle.mta_names.specs.Values.{IsName};

    /// The name that an element spells (X.411, ORName), whatever its tag: `[APPLICATION 0]`, or an implicit tag in its
    /// place, which is for the caller to check.
    pub fn read(alloc: Global, whole: &View) -> Result<OrName, ReadFault>
        // Which name it is, or which fault comes first.
        ensures exact { Reads result (name_in (view whole.now)) }

        // What is answered is spelled by the content, and what the content spells is answered.
        ensures found { IfOk result (SpellsName whole.now.depth whole.now.tag.constructed whole.now.content.now) }
        ensures only { (n : Attributes) → SpellsName whole.now.depth whole.now.tag.constructed whole.now.content.now n
            → IsReadAs result n }
    {
        match read_attributes(alloc, whole) {
            Ok(attributes) => Ok(OrName { attributes }),
            Err(fault) => Err(fault),
        }
    }

    /// Appends the name in its canonical octets under a tag: `[APPLICATION 0]`, or an implicit tag in its place.
    #[tactic(auto, unfolding(crate::specs::Names::canonical_name))]
    pub fn write(&self, w: &mut Writer, tag: Tag) -> Result<(), Memory>
        requires { IsTag tag }
        ensures ok { OnOk result (w.new ≡ appended w.old (canonical_name tag self.now)) }
        ensures err { OnErr result (w.new ≡ w.old) }
    {
        let inside = put_components(w.alloc(), &self.attributes)?;
        w.put(tag, inside.as_slice())
    }

    /// How many octets `write` appends under this tag, told without memory; 2^64 - 1 where there are as many or more.
    #[tactic(auto, unfolding(crate::specs::Names::canonical_name))]
    pub fn length(&self, tag: Tag) -> u64
        requires { tag.number < 31 }
        ensures { result ≡ octet_length (canonical_name tag self.now) }
    {
        element_length(tag, components_length(&self.attributes))
    }

    /// A name of these attributes, which takes no memory.
    pub fn from_attributes(attributes: Attributes) -> OrName
        requires { IsName attributes }
        ensures { result ≡ attributes }
    {
        OrName { attributes }
    }

    /// The attributes, lent.
    pub fn attributes(&self) -> &Attributes
        ensures exact { result.now ≡ self.now }
        ensures name { IsName self.now }
    {
        &self.attributes
    }

    /// The attributes, which takes no memory.
    pub fn into_attributes(self) -> Attributes
        ensures exact { result ≡ self }
        ensures name { IsName self }
    {
        let OrName { attributes } = self;
        attributes
    }
}
