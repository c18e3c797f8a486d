//! Images that a crash leaves of a disk in memory.

ghost use Rattle.std.specs.Prelude.{◌≡◌, IfOk};
ghost use Rattle.mta_edge.specs.Images.{image_after, rest_after, image_from};

use crate::log::{Called, Done};
use crate::tear::Tear;
use mta_ber::{Memory, Octets};
use std::alloc::Global;

impl Called {
    // The image behind this call.
    fn image(&self, alloc: Global, rest: u64, image: &[u8]) -> Result<Octets, Memory>
        ensures { IfOk result (λ o. o ≡ image_after self.now.before self.now.done rest image.now) }
    {
        match &self.done {
            Done::Look => Octets::from_slice(alloc, image),
            Done::Write { at, octets } => {
                Tear::of(rest).write(alloc, *at, octets.as_slice(), image)
            }
            Done::Cut { size } => Tear::of(rest).cut(alloc, *size, image),
            Done::Sync => self.before.copy(alloc),
        }
    }

    // The digits of the choice behind this call.
    fn rest(&self, choice: u64, rest: u64) -> u64
        ensures { result ≡ rest_after choice self.now.done rest }
    {
        match &self.done {
            Done::Look => rest,
            Done::Write { at: _, octets: _ } => rest / 8,
            Done::Cut { size: _ } => rest / 8,
            Done::Sync => choice,
        }
    }
}

/// The image that a choice picks behind these calls, of a disk that had these octets before them.
pub fn image_of(alloc: Global, choice: u64, log: &[Called], first: &[u8]) -> Result<Octets, Memory>
    ensures { IfOk result (λ o. o ≡ image_from choice log.now choice first.now) }
{
    let mut image = Octets::from_slice(alloc, first)?;
    let mut rest = choice;
    for called in log {
        image = called.image(alloc, rest, image.as_slice())?;
        rest = called.rest(choice, rest);
    }
    Ok(image)
}
