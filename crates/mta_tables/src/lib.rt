//! The tables of an agent: its domain and its name, its peers, mailboxes and lists, the routes, and how long messages
//! are held, read from a text of lines, and where the messages for a name go next.
#![tactic(auto)]

mod command;
mod cut;
mod domain;
mod draft;
mod entry;
mod fault;
mod found;
mod fronts;
mod hop;
mod laws;
mod line;
mod lists;
mod mailboxes;
mod peer;
mod peers;
mod reading;
mod routes;
mod said;
mod same;
mod surname;
mod tables;
mod word;

pub use entry::{Holds, MailList, Mailbox, Peer, Route, Target};
pub use fault::{LineKind, TablesFault};
pub use hop::Hop;
pub use laws::{
    a_text_goes_on_behind_lines_that_can_stand, first_bad_line_is_refused,
    no_text_goes_on_with_a_wrong_line, tables_of_a_text_are_read, tables_of_a_text_are_whole,
    the_best_hop_is_one,
};
pub use tables::Tables;
pub use word::is_word;
