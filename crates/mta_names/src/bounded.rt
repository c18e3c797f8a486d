//! Numbers of 0 to 32,767, and object identifiers: values that hold nothing else.

ghost use Rattle.std.specs.Prelude.{◌≡◌};
ghost use Rattle.mta_ber.specs.Seen.{view};
ghost use Rattle.mta_names.specs.Strings.{number_in};

use crate::extension::read_number;
use mta_ber::{Fault, Memory, Octets, ReadFault, View};
use std::alloc::Global;
use std::marker::Model;

/// A number of 0 to 32,767, as X.411 bounds built-in content types, types of extensions and of users, reasons and
/// diagnostics. Contracts see the number.
#[derive(Clone, Copy, PartialEq, Eq)]
pub struct Code {
    number: u32,
}

impl Model for Code {
    ghost use Rattle.std.specs.Prelude.{ℕ};
    ghost use Rattle.mta_names.specs.Bounded.{IsCode};

    ghost Value = { ℕ };

    ghost view = { λ c. c.number };

    ghost invariant = { λ c. IsCode c.number };

    ghost inverse = { λ n. record { number = n } };
}

impl Code {
    ghost use Rattle.std.specs.Prelude.{◌≡◌};
    ghost use Rattle.mta_names.specs.Bounded.{IsCode};

    /// The code of a number.
    pub fn new(number: u32) -> Code
        requires { IsCode number }
        ensures { result ≡ number }
    {
        Code { number }
    }

    /// The number.
    pub fn number(self) -> u32
        ensures exact { result ≡ self }
        ensures code { IsCode result }
    {
        self.number
    }
}

/// The contents octets of an object identifier (X.690, 8.19), seen by contracts as their list.
#[derive(Drop)]
pub struct ObjectId {
    octets: Octets,
}

impl Model for ObjectId {
    ghost use Rattle.std.specs.Prelude.{List, ℕ};
    ghost use Rattle.mta_ber.specs.Oid.{IsOid};

    ghost Value = { List ℕ };

    ghost view = { λ o. o.octets };

    ghost invariant = { λ o. IsOid o.octets };
}

impl ObjectId {
    ghost use Rattle.std.specs.Prelude.{◌≡◌, IfOk};
    ghost use Rattle.mta_ber.specs.Oid.{oid_in, IsOid};
    ghost use Rattle.mta_ber.specs.Parts.{Reads};
    ghost use Rattle.mta_ber.specs.Seen.{view};

    /// The object identifier that an element spells, whatever its tag. BadTag where it is constructed, BadText where
    /// its contents octets are no object identifier.
    pub fn read(alloc: Global, part: &View) -> Result<ObjectId, ReadFault>
        ensures { Reads result (oid_in (view part.now)) }
    {
        let content = part.oid()?;
        let octets = Octets::from_slice(alloc, content)?;
        Ok(ObjectId { octets })
    }

    /// The contents octets, lent.
    pub fn as_slice(&self) -> &[u8]
        ensures exact { result.now ≡ self.now }
        ensures oid { IsOid self.now }
    {
        self.octets.as_slice()
    }

    /// An equal object identifier.
    pub fn copy(&self, alloc: Global) -> Result<ObjectId, Memory>
        ensures { IfOk result (λ o. o ≡ self.now) }
    {
        let octets = self.octets.copy(alloc)?;
        Ok(ObjectId { octets })
    }
}

/// A code of 0 to 32,767 that an INTEGER spells.
pub fn read_code(part: &View) -> Result<Code, Fault>
    ensures { result ≡ number_in 0 32767 (view part.now) }
{
    let number = read_number(part, 0, 32767)?;
    Ok(Code { number })
}
