//! The text form of O/R names: parts KEY=value joined by semicolons, and which names are on a route.
#![tactic(auto)]

mod draft;
mod fault;
mod form;
mod key;
mod laws;
mod made;
mod methods;
mod part;
mod pattern;
mod place;
mod reading;
mod route;
mod shape;

pub use fault::NameFault;
pub use key::Key;
pub use laws::{
    name_faults_are_first, name_forms_are_what_is_read, names_are_read_again,
    pattern_faults_are_first, pattern_forms_are_what_is_read, text_forms_are_what_is_written,
};
pub use methods::{FromText, NameForm};
pub use pattern::Pattern;
