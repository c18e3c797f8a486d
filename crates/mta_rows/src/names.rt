//! Octets that have names.

ghost use Rattle.std.specs.Prelude.{◌≡◌, ◌++◌, ◌∷◌, ℕ, List, [], IfErr, IfOk, OnErr, OnOk, option_map, string_bytes};
ghost use Rattle.std.specs.List.{find};
ghost use Rattle.std.specs.Option.{option_copied};
ghost use Rattle.mta_rows.specs.Named.{MeansOctets, MeansWord, is_named, octets_named};
ghost use Rattle.mta_rows.specs.declared.names.Named.{Named};
ghost use Rattle.mta_rows.specs.declared.octets.RowFault.TheVariants as fault;

use crate::octets::{RowFault, octets_of, split};
use std::alloc::{AllocError, Global};

#[derive(Drop)]
struct Named {
    name: String,
    octets: Vec<u8>,
}

/// What names stand for.
#[derive(Drop)]
pub struct Names {
    all: Vec<Named>,
}

// The first octets of this name.
fn first_of<'a>(all: &'a [Named], name: &str) -> Option<&'a Named>
    ensures { option_copied result ≡ find (is_named name.now) all.now }
{
    all.iter().find(|named| named.name.as_str() == name)
}

impl Names {
    /// No names yet.
    pub fn new(alloc: Global) -> Names
        ensures { result.all.items ≡ [] }
    {
        Names {
            all: Vec::new(alloc),
        }
    }

    fn get(&self, name: &str) -> Option<&[u8]>
        ensures { option_map (λ x. x.now) result ≡ octets_named self.now.all.items name.now }
    {
        match first_of(self.all.as_slice(), name) {
            Some(named) => Some(named.octets.as_slice()),
            None => None,
        }
    }

    // Puts what one word stands for behind the octets.
    fn put(&self, alloc: Global, word: &str, octets: &mut Vec<u8>) -> Result<(), RowFault>
        ensures put { OnOk result ((a : List ℕ) × MeansWord self.now.all.items word.now a
            × (octets.new.items ≡ octets.old.items ++ a)) }
        ensures refused { IfErr result (λ e. e ≡ fault.BadOctets
            → (a : List ℕ) → MeansWord self.now.all.items word.now a → ⊥) }
    {
        match self.get(word) {
            Some(piece) => octets.extend_from_slice(piece)?,
            None => {
                let piece = octets_of(alloc, word)?;
                octets.extend_from_slice(piece.as_slice())?;
            }
        }
        Ok(())
    }

    /// The octets of words, each a name or as `octets_of` has it; none of an empty text. A text is refused where a word
    /// is neither.
    pub fn octets(&self, alloc: Global, text: &str) -> Result<Vec<u8>, RowFault>
        ensures octets { IfOk result (λ v. MeansOctets self.now.all.items text.now v.items) }
        ensures refused { IfErr result (λ e. e ≡ fault.BadOctets
            → (octets : List ℕ) → MeansOctets self.now.all.items text.now octets → ⊥) }
    {
        let mut octets = Vec::new(alloc);
        let words = split(alloc, text, ' ')?;
        for word in words.as_slice() {
            self.put(alloc, word, &mut octets)?;
        }
        Ok(octets)
    }

    /// Gives octets a name, unless memory is wanted. A name that was given before still means what it did.
    pub fn add(&mut self, alloc: Global, name: &str, octets: Vec<u8>) -> Result<(), AllocError>
        ensures added { OnOk result ((new : Named) × (string_bytes new.name ≡ name.now) × (new.octets ≡ octets)
            × (self.new.all.items ≡ self.old.all.items ++ new ∷ [])) }
        ensures refused { OnErr result (self.new.all.items ≡ self.old.all.items) }
    {
        let name = String::from_str(alloc, name)?;
        self.all.push(Named { name, octets })?;
        Ok(())
    }
}
