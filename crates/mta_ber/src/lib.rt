//! BER (X.690): elements that are read from the front and lent, and the one spelling that is written.
#![tactic(auto)]

mod bits;
mod components;
mod element;
mod encoding;
mod fault;
mod gather;
mod head;
mod int;
mod laws;
mod length;
mod memory;
mod octets;
mod oid;
mod parts;
mod put;
mod reading;
mod stamp;
mod strings;
mod tag;
mod text;
mod utc;
mod view;
mod word;
mod writer;

pub use bits::Bits;
pub use components::{
    bad, check_order, is_constructed_tag, is_primitive_tag, is_tag_of, take_required,
};
pub use fault::{Fault, Kind, ReadFault};
pub use laws::{
    bits_are_read_again, elements_are_read_again, explicit_tags_are_read_again,
    moments_are_read_again, no_spelling_begins_another, numbers_are_read_again,
    object_identifiers_are_read_again, texts_are_read_again,
};
pub use length::{
    bits_length, element_length, int_length, length_of_both, slice_length, utc_length,
};
pub use memory::Memory;
pub use octets::Octets;
pub use oid::is_oid_content;
pub use parts::{Components, take_parts};
pub use put::{put_bits, put_int, put_utc};
pub use strings::is_of_class;
pub use tag::Tag;
pub use text::{Text, TextClass};
pub use utc::LAST_MOMENT;
pub use view::{Parts, View};
pub use word::Word;
pub use writer::Writer;
