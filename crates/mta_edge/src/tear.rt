//! How a crash tears a write or a cut.

ghost use Rattle.std.specs.Prelude.{◌≡◌, ◌≤◌, length, replicate, IfOk};
ghost use Rattle.mta_edge.specs.Outside.{written};
ghost use Rattle.mta_edge.specs.Tears.{tear_of, others, piece_of, torn_write, kept_of, torn_cut};

use mta_ber::{Memory, Octets};
use std::alloc::Global;

/// What a crash leaves of a write. Of a cut it leaves nothing, half of it or all of it.
#[derive(Clone, Copy, Debug, PartialEq, Eq)]
pub enum Tear {
    /// Nothing is written.
    Nothing,
    /// All is written.
    Whole,
    /// The first half is written, so a disk that grows has a size in between.
    Half,
    /// The range has other octets: each bit the other way round.
    Other,
    /// The first half of the range has other octets.
    OtherHalf,
    /// The range has zeros.
    Zeros,
    /// The range has ones.
    Ones,
    /// The second half is written, and the first half is zeros.
    Late,
}

const TEARS: [Tear; 8] = [
    Tear::Nothing,
    Tear::Whole,
    Tear::Half,
    Tear::Other,
    Tear::OtherHalf,
    Tear::Zeros,
    Tear::Ones,
    Tear::Late,
];

impl Tear {
    /// The tear that the last octal digit of a choice says.
    pub fn of(choice: u64) -> Tear
        ensures { result ≡ tear_of choice }
    {
        TEARS[(choice % 8) as usize]
    }

    // What is written in place of the octets.
    fn piece(self, alloc: Global, bytes: &[u8]) -> Result<Octets, Memory>
        ensures { IfOk result (λ o. o ≡ piece_of self bytes.now) }
    {
        let half = bytes.len() / 2;
        match self {
            Tear::Nothing => Ok(Octets::new(alloc)),
            Tear::Whole => Octets::from_slice(alloc, bytes),
            Tear::Half => Octets::from_slice(alloc, &bytes[..half]),
            Tear::Other => inverted(alloc, bytes),
            Tear::OtherHalf => inverted(alloc, &bytes[..half]),
            Tear::Zeros => copies(alloc, 0, bytes.len()),
            Tear::Ones => copies(alloc, 1, bytes.len()),
            Tear::Late => {
                let mut piece = copies(alloc, 0, half)?;
                piece.extend(&bytes[half..])?;
                Ok(piece)
            }
        }
    }

    /// What is left of a write of these octets at this offset.
    pub fn write(
        self,
        alloc: Global,
        at: usize,
        bytes: &[u8],
        image: &[u8],
    ) -> Result<Octets, Memory>
        ensures { IfOk result (λ o. o ≡ torn_write self at bytes.now image.now) }
    {
        if image.len() < at {
            return Octets::from_slice(alloc, image);
        }
        let piece = self.piece(alloc, bytes)?;
        with_piece(alloc, image, at, piece.as_slice())
    }

    // How many of so many octets a cut keeps.
    fn kept(self, size: usize, length: usize) -> usize
        ensures { result ≡ kept_of self size length }
    {
        match self {
            Tear::Nothing => length,
            Tear::Half => length - length.saturating_sub(size) / 2,
            _ => size,
        }
    }

    /// What is left of a cut to this size.
    pub fn cut(self, alloc: Global, size: usize, image: &[u8]) -> Result<Octets, Memory>
        ensures { IfOk result (λ o. o ≡ torn_cut self size image.now) }
    {
        let kept = self.kept(size, image.len()).min(image.len());
        Octets::from_slice(alloc, &image[..kept])
    }
}

// Each bit the other way round.
fn inverted(alloc: Global, bytes: &[u8]) -> Result<Octets, Memory>
    ensures { IfOk result (λ o. o ≡ others bytes.now) }
{
    let mut inverted = Vec::new(alloc);
    for octet in bytes {
        inverted.push(u8::MAX - *octet)?;
    }
    Ok(Octets::from_vec(inverted))
}

// So many copies of an octet.
fn copies(alloc: Global, octet: u8, count: usize) -> Result<Octets, Memory>
    ensures { IfOk result (λ o. o ≡ replicate count octet) }
{
    Ok(Octets::from_vec(vec![in alloc; octet; count]?))
}

/// The octets with a piece written into them.
pub fn with_piece(alloc: Global, octets: &[u8], at: usize, bytes: &[u8]) -> Result<Octets, Memory>
    requires { at ≤ length octets.now }
    ensures { IfOk result (λ o. o ≡ written at bytes.now octets.now) }
{
    let mut next = Octets::from_slice(alloc, &octets[..at])?;
    next.extend(bytes)?;
    if bytes.len() < octets.len() - at {
        next.extend(&octets[at + bytes.len()..])?;
    }
    Ok(next)
}
