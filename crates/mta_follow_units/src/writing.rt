//! The octets of units.

ghost use Rattle.std.specs.Prelude.{◌≡◌, ◌∷◌, [], ◌++◌, ◌<◌, ◌^◌};
ghost use Rattle.std.specs.Int.{w32, w64, to_be_bytes};
ghost use Rattle.mta_follow_units.specs.Units.{number_unit, record_head};

/// The kind octet of a record.
pub(crate) const RECORD: u8 = 1;

/// The kind octet of the unit that says that a record is kept, with its number.
pub const KEPT: u8 = 2;

/// The kind octet of the unit that says that there are no more records, with their number.
pub const DONE: u8 = 3;

/// The octets of a record's unit in front of its body, which has so many.
pub fn record_head(size: u32) -> [u8; 5]
    ensures { result ≡ record_head size }
{
    let [a, b, c, d] = size.to_be_bytes();
    [a, b, c, d, RECORD]
}

/// The octets of a unit of this kind whose body is a number.
pub fn number_unit(kind: u8, number: u64) -> [u8; 13]
    ensures { result ≡ number_unit kind number }
{
    let [a, b, c, d, e, f, g, h] = number.to_be_bytes();
    [0, 0, 0, 8, kind, a, b, c, d, e, f, g, h]
}
