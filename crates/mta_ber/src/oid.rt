//! Object identifiers (X.690, 8.19), kept as the octets of their contents.

ghost use Rattle.std.specs.Prelude.{◌≡◌, ◌↔◌, List, ℕ, IfOk, IsOkAnd, IsTrue};
ghost use Rattle.mta_ber.specs.Oid.{is_oid, oid_in, IsOid, SpellsOid};
ghost use Rattle.mta_ber.specs.Seen.{Gives, view};

use crate::fault::{Fault, Kind};
use crate::view::View;

/// Whether these are the contents octets of an object identifier: at least one, the last with its top bit clear.
pub fn is_oid_content(octets: &[u8]) -> bool
    ensures exact { result ≡ is_oid octets.now }
    ensures spelled { IsTrue result ↔ IsOid octets.now }
{
    ends_low(octets)
}

/// Whether there is a last octet, and it has its top bit clear.
fn ends_low(octets: &[u8]) -> bool
    ensures { result ≡ is_oid octets.now }
{
    match octets {
        [] => false,
        [.., last] => *last < 128,
    }
}

impl<'a> View<'a> {
    /// The contents octets of an object identifier, lent. BadTag where the element is constructed, BadText where they
    /// are no object identifier.
    pub fn oid(&self) -> Result<&'a [u8], Fault>
        ensures exact { Gives (λ c. c.now) result (oid_in (view self.now)) }

        // What is answered is spelled by the content, and what the content spells is answered.
        ensures found { IfOk result (λ c. SpellsOid self.now.tag.constructed self.now.content.now c.now) }
        ensures only { (o : List ℕ) → SpellsOid self.now.tag.constructed self.now.content.now o
            → IsOkAnd result (λ c. c.now ≡ o) }
        ensures lent { IfOk result (λ c. c ≡ self.now.content) }
    {
        self.oid_of()
    }

    #[tactic(auto, unfolding(crate::specs::Oid::oid_in))]
    fn oid_of(&self) -> Result<&'a [u8], Fault>
        ensures exact { Gives (λ c. c.now) result (oid_in (view self.now)) }
        ensures lent { IfOk result (λ c. c ≡ self.now.content) }
    {
        if self.tag.constructed {
            return Err(Fault {
                at: self.at,
                kind: Kind::BadTag,
            });
        }
        if !is_oid_content(self.content) {
            return Err(Fault {
                at: self.at,
                kind: Kind::BadText,
            });
        }
        Ok(self.content)
    }
}
