//! The rules of X.411, clause 14, under the tables of one text.
#![tactic(auto)]

mod copies;
mod deliveries;
mod expansion;
mod idle;
mod names;
mod passing;
mod reading;
mod reports;
mod rest;
mod submitted;
mod table_rules;
mod verdicts;

pub use reading::text_reads;
pub use table_rules::TableRules;
