//! Elements that are lent.

ghost use Rattle.std.specs.Prelude.{◌+◌, ◌<◌, ◌≤◌, ◌^◌, length};
ghost use Rattle.mta_ber.specs.Octet.{IsOctets};

use crate::tag::Tag;

/// An element (X.690, 8.1): its tag, its offset and its level, the offset of its content, the content, what
/// follows the element, and all octets of the element itself. The slices are slices of the input.
#[derive(Clone, Copy)]
pub struct View<'a> {
    pub tag: Tag,
    pub at: u32,
    pub depth: u8,
    pub start: u32,
    pub content: &'a [u8],
    pub rest: &'a [u8],
    pub octets: &'a [u8],
    ghost bytes: { IsOctets content.now },
    ghost rest_bytes: { IsOctets rest.now },
    ghost room: { start + length content.now < 2 ^ 32 },
    ghost whole: { at + length octets.now + length rest.now < 2 ^ 32 },
    ghost level: { 1 ≤ depth },
    ghost shallow: { depth ≤ 16 },
}

/// The elements of a constructed content that are left.
#[derive(Clone, Copy)]
pub struct Parts<'a> {
    pub at: u32,
    pub depth: u8,
    pub left: &'a [u8],
    ghost bytes: { IsOctets left.now },
    ghost room: { at + length left.now < 2 ^ 32 },
    ghost level: { depth ≤ 16 },
}
