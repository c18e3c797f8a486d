//! Reading the lines of a text.

ghost use Rattle.std.specs.Prelude.{◌≡◌, ◌+◌, ◌≤◌, [], length};
ghost use Rattle.mta_tables.specs.Reading.{nothing, holds_of, or_usual, read_lines, ended, unended, Reads};

use crate::cut::cut_at;
use crate::draft::Draft;
use crate::entry::Holds;
use crate::fault::{LineKind, TablesFault};
use crate::lists::Lists;
use crate::mailboxes::Mailboxes;
use crate::peers::Peers;
use crate::routes::Routes;
use mta_ber::Word;
use mta_fields::Domain;
use std::alloc::Global;

/// What the lines of a text say.
pub struct Lines {
    pub domain: Domain,
    pub own: Word,
    pub peers: Peers,
    pub mailboxes: Mailboxes,
    pub lists: Lists,
    pub routes: Routes,
    pub holds: Holds,
}

// Written out, since a derived one is opened anew, field by field, at each place where a value is let go.
impl Drop for Lines {
    fn drop(self) {
        let Lines {
            domain: _,
            own: _,
            peers: _,
            mailboxes: _,
            lists: _,
            routes: _,
            holds: _,
        } = self;
    }
}

fn or_usual(usual: u64, held: Option<u64>) -> u64
    ensures { result ≡ or_usual usual held }
{
    match held {
        None => usual,
        Some(seconds) => seconds,
    }
}

/// The hold times: four hours, a day and four days where no line says otherwise.
fn holds_of(urgent: Option<u64>, normal: Option<u64>, non_urgent: Option<u64>) -> Holds
    ensures { result ≡ holds_of urgent normal non_urgent }
{
    Holds {
        urgent: or_usual(14_400, urgent),
        normal: or_usual(86_400, normal),
        non_urgent: or_usual(345_600, non_urgent),
    }
}

/// What all lines have said, where `number` is the number of the line behind the last.
fn ended(number: u32, draft: Draft) -> Result<Lines, TablesFault>
    ensures { Reads result (ended number draft) }
{
    let holds = holds_of(draft.urgent, draft.normal, draft.non_urgent);
    let Draft {
        domain,
        own,
        peers,
        mailboxes,
        lists,
        routes,
        ..
    } = draft;
    match (domain, own) {
        (Some(domain), Some(own)) => Ok(Lines {
            domain,
            own,
            peers,
            mailboxes,
            lists,
            routes,
            holds,
        }),
        _ => Err(TablesFault::BadLine {
            line: number,
            kind: LineKind::Missing,
        }),
    }
}

/// What all lines have said, where no line feed is behind the last octets.
fn last(number: u32, draft: Draft, line: &[u8]) -> Result<Lines, TablesFault>
    ensures { Reads result (unended number draft line.now) }
{
    if !line.is_empty() {
        return Err(TablesFault::BadLine {
            line: number,
            kind: LineKind::Word,
        });
    }
    ended(number, draft)
}

/// What the lines of a text say, or the first bad line.
pub fn read_lines(alloc: Global, text: &[u8]) -> Result<Lines, TablesFault>
    requires { length text.now ≤ 1048576 }
    ensures { Reads result (read_lines 1 nothing [] text.now) }
{
    let mut draft = Draft::new(alloc);
    let mut number = 1;
    let mut rest = text;
    loop {
        let (line, behind) = cut_at(b'\n', rest);
        match behind {
            None => return last(number, draft, line),
            Some(behind) => match draft.take_line(alloc, number, line) {
                Err(fault) => return Err(fault),
                Ok(()) => {
                    number += 1;
                    rest = behind;
                }
            },
        }
    }
}
