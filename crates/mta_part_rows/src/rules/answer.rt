//! What is answered.

use crate::rules::copy::{copy, expansion, head, made};
use crate::rules::verdict::verdict;
use mta_apdu::Apdu;
use mta_ber::{Memory, Octets};
use mta_procedures::Verdict;
use mta_rows::{RowFault, octets_of};
use mta_tables::Tables;
use std::alloc::Global;

/// What is answered.
#[derive(Debug, Drop)]
pub enum Answer {
    Verdict(Verdict),
    Octets(Octets),
    /// No report is made, or no copy for members.
    None,
    /// Such octets are not asked this, or not with these numbers.
    NotAsked,
}

impl Answer {
    /// What octets are answered under these tables.
    pub fn of(
        alloc: Global,
        tables: &Tables,
        asked: &str,
        apdu: &Apdu,
        numbers: &[u32],
    ) -> Result<Answer, Memory> {
        match asked {
            "verdict" => Ok(verdict(tables, apdu, numbers)),
            "copy" => copy(alloc, tables, apdu, numbers),
            "head" => head(alloc, tables, apdu, numbers),
            "made" => made(alloc, tables, apdu, numbers),
            "expand" => expansion(alloc, tables, apdu, numbers),
            _ => Ok(Answer::NotAsked),
        }
    }

    /// Whether it is what a text says: a verdict, `none`, or octets.
    pub fn is(&self, alloc: Global, expected: &str) -> Result<bool, RowFault> {
        match self {
            Answer::Verdict(verdict) => {
                let text = format!(in alloc; "{verdict:?}")?;
                Ok(text.as_str() == expected)
            }
            Answer::Octets(octets) => {
                let expected = octets_of(alloc, expected)?;
                Ok(expected.as_slice() == octets.as_slice())
            }
            Answer::None => Ok(expected == "none"),
            Answer::NotAsked => Ok(false),
        }
    }
}
