//! O/R names whole (X.402, clause 18; X.411): every spelling of them is read, the one canonical spelling is written.
#![tactic(auto)]

mod attributes;
mod bounded;
mod extension;
mod label;
mod laws;
mod length;
mod name;
mod normal;
mod pair;
mod person;
mod reading;
mod row;
mod same;
mod standard;
mod unit;
mod writing;

pub use attributes::{
    Attributes, DomainLabels, Extra, ExtraFields, Label, Pair, PairFields, Person, PersonFields,
};
pub use bounded::{Code, ObjectId, read_code};
pub use extension::read_number;
pub use label::{
    are_country_characters, country_size_of, label_class_of, read_country, read_label,
    read_label_choice,
};
pub use laws::{
    definite_parts_stand_everywhere, domain_defined_attributes_are_read_again,
    extension_attributes_are_read_again, labels_are_read_again, names_are_read_again,
    names_that_fit_are_read_again, names_that_were_read_are_read_again, no_name_begins_another,
    personal_names_are_read_again, standard_attributes_are_read_again, unit_names_are_read_again,
};
pub use length::{label_choice_length, label_length, raw_length};
pub use name::OrName;
pub use normal::{same_label, same_text};
pub use row::Row;
pub use same::{copied_label, copied_raw};
pub use standard::nothing;
pub use writing::{constructed, primitive, put_around, put_label, put_label_choice, put_raw_if};
