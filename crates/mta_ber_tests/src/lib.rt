//! A worked example of a reader over `mta_ber`: a SET of three components, with its definitions and its laws. Rows of
//! `mta_part_rows` show what it reads.
#![tactic(auto)]

mod example;
mod note;

pub use note::{Note, NoteParts};
