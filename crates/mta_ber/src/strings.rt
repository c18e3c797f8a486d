//! Reading octet and character strings.

ghost use Rattle.std.specs.Prelude.{◌≡◌, ◌-◌, ◌++◌, [], List, ℕ, Ok, IfOk, IfSome, IsSomeAnd};
ghost use Rattle.std.specs.Prelude.{true, false, Some, None, if◌then◌else◌};
ghost use Rattle.std.specs.List.{list_all};
ghost use Rattle.mta_ber.specs.Parts.{Leaves, Reads, IsReadAs};
ghost use Rattle.mta_ber.specs.Segmented.{SpellsOctets, SpellsText};
ghost use Rattle.mta_ber.specs.Seen.{view};
ghost use Rattle.mta_ber.specs.Strings.{octets_piece, gather, joined_as, joined, own_number};
ghost use Rattle.mta_ber.specs.Strings.{text_in, in_class, class_number, IsText};

use crate::fault::{Fault, Kind, ReadFault};
use crate::gather::{Gathers, gather_of};
use crate::octets::Octets;
use crate::tag::Tag;
use crate::text::{Text, TextClass};
use crate::view::View;
use std::alloc::Global;

impl Gathers for Octets {
    ghost piece = { octets_piece };

    ghost takes_memory = { true };

    fn take(&mut self, _last: bool, part: &View) -> Result<(), ReadFault> {
        self.extend(part.content)?;
        Ok(())
    }
}

fn is_in_class(class: TextClass, c: u8) -> bool
    ensures { result ≡ in_class class c }
{
    match class {
        TextClass::Numeric => matches!(c, 48..=57) || c == 32,
        TextClass::Printable => {
            matches!(c, 97..=122)
                || matches!(c, 65..=90)
                || matches!(c, 43..=58)
                || matches!(c, 39..=41)
                || c == 32
                || c == 61
                || c == 63
        }
        TextClass::Ia5 => c < 128,
    }
}

/// Whether all characters are of the class.
pub fn is_of_class(class: TextClass, octets: &[u8]) -> bool
    ensures { result ≡ list_all (in_class class) octets.now }
{
    octets.iter().all(|c| is_in_class(class, *c))
}

fn class_number_of(class: TextClass) -> u32
    ensures { result ≡ class_number class }
{
    match class {
        TextClass::Numeric => 18,
        TextClass::Printable => 19,
        TextClass::Ia5 => 22,
    }
}

fn own_number_of(tag: Tag) -> u32
    ensures { result ≡ own_number tag }
{
    if tag.class == 0 { tag.number } else { 4 }
}

impl<'a> View<'a> {
    /// The content where the element is primitive, and `None` exactly where it is constructed.
    pub fn plain(&self) -> Option<&'a [u8]>
        ensures exact { result ≡ (if self.now.tag.constructed then None else Some self.now.content) }

        // What is lent is a string that the content spells, and the one that a primitive content spells is lent.
        ensures found { IfSome result (λ c. (own : ℕ)
            → SpellsOctets own self.now.depth self.now.tag.constructed self.now.content.now c.now) }
        ensures only { (own : ℕ) (o : List ℕ) → self.now.tag.constructed ≡ false
            → SpellsOctets own self.now.depth self.now.tag.constructed self.now.content.now o
            → IsSomeAnd result (λ c. c.now ≡ o) }
    {
        self.plain_of()
    }

    fn plain_of(&self) -> Option<&'a [u8]>
        ensures { result ≡ (if self.now.tag.constructed then None else Some self.now.content) }
    {
        if self.tag.constructed {
            None
        } else {
            Some(self.content)
        }
    }

    #[tactic(auto, unfolding(crate::specs::Strings::joined_as))]
    fn joined_by(&self, alloc: Global, own: u32) -> Result<Octets, ReadFault>
        ensures { Reads result (joined_as own (view self.now)) }
    {
        let mut out = Octets::new(alloc);
        gather_of(&mut out, self, 4, own, true)?;
        Ok(out)
    }

    /// The octets of an octet or character string, segments joined (X.690, 8.7). A segment has the tag of OCTET STRING,
    /// or the element's own tag number where that is of the universal class.
    pub fn joined(&self, alloc: Global) -> Result<Octets, ReadFault>
        ensures exact { Reads result (joined (view self.now)) }

        // What is answered is spelled by the content, and what the content spells is answered.
        ensures found { IfOk result (λ o. SpellsOctets (own_number self.now.tag) self.now.depth self.now.tag.constructed
            self.now.content.now o) }
        ensures only { (o : List ℕ) → SpellsOctets (own_number self.now.tag) self.now.depth self.now.tag.constructed
            self.now.content.now o → IsReadAs result o }
    {
        self.joined_by(alloc, own_number_of(self.tag))
    }

    /// The characters of a string of a class and of `low` to `high` characters (X.690, 8.23). A segment has the tag of
    /// OCTET STRING or the universal tag of the class.
    pub fn text(
        &self,
        alloc: Global,
        class: TextClass,
        low: u32,
        high: u32,
    ) -> Result<Text, ReadFault>
        ensures exact { Reads result (text_in class low high (view self.now)) }
        ensures fits { IfOk result (IsText class low high) }

        // What is answered is spelled by the content, and what the content spells is answered.
        ensures found { IfOk result (λ t. SpellsText class low high self.now.depth self.now.tag.constructed
            self.now.content.now t) }
        ensures only { (t : List ℕ) → SpellsText class low high self.now.depth self.now.tag.constructed
            self.now.content.now t → IsReadAs result t }
    {
        self.text_of(alloc, class, low, high)
    }

    #[tactic(auto, unfolding(crate::specs::Strings::text_in))]
    fn text_of(
        &self,
        alloc: Global,
        class: TextClass,
        low: u32,
        high: u32,
    ) -> Result<Text, ReadFault>
        ensures exact { Reads result (text_in class low high (view self.now)) }
        ensures fits { IfOk result (IsText class low high) }
    {
        let octets = self.joined_by(alloc, class_number_of(class))?;
        if !is_of_class(class, octets.as_slice()) {
            return Err(ReadFault::Bad(Fault {
                at: self.at,
                kind: Kind::BadText,
            }));
        }
        let count = octets.len();
        if count < (low as usize) || (high as usize) < count {
            return Err(ReadFault::Bad(Fault {
                at: self.at,
                kind: Kind::BadSize,
            }));
        }
        Ok(Text::from_octets(octets))
    }
}
