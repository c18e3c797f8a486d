//! What is asked of texts and of tables.
//!
//! `text`, `own` (the agent's name), `private` (whether the domain has a private one), `peers`, `lists` and `routes`
//! (how many there are), `holds` (the three hold times), `peer`, `list` and `route` (what stands at a place, from 0),
//! `peer-of` and `mailbox-of` (the place of a word), `hop` (where a name goes) and `surname` (which mailbox has a name
//! of these three parts: a country, an administrative domain and a surname).

use crate::tables::made::text_of;
use crate::tables::names::name_answer;
use mta_name_text::FromText;
use mta_names::OrName;
use mta_rows::{Fields, lines_of, shown};
use mta_tables::{Tables, TablesFault};
use std::alloc::{AllocError, Global};

/// What reading a text answers: `ok`, or the first bad line and its kind.
fn reading(alloc: Global, text: &[u8]) -> Result<String, AllocError> {
    match Tables::read(alloc, text) {
        Ok(_) => format!(in alloc; "ok"),
        Err(TablesFault::BadLine { line, kind }) => format!(in alloc; "{line} {kind:?}"),
        Err(TablesFault::Memory) => format!(in alloc; "memory"),
    }
}

fn place_of(text: &str) -> usize {
    text.parse::<usize>().unwrap_or(usize::MAX)
}

/// Whether dialogue is two-way alternate, the checkpoint size, the window, and the passwords sent and expected.
fn peer(alloc: Global, tables: &Tables, place: &str) -> Result<String, AllocError> {
    let Some(peer) = tables.peers().get(place_of(place)) else {
        return format!(in alloc; "none");
    };
    let (twa, checkpoint, window) = (peer.twa, peer.checkpoint, peer.window);
    let send = shown(alloc, peer.send_password.as_slice())?;
    let expected = shown(alloc, peer.expected_password.as_slice())?;
    format!(in alloc; "{twa} {checkpoint} {window} {send} {expected}")
}

/// Whether reports go back to the poster, and how many patterns and members there are.
fn list(alloc: Global, tables: &Tables, place: &str) -> Result<String, AllocError> {
    let Some(list) = tables.lists().get(place_of(place)) else {
        return format!(in alloc; "none");
    };
    let (back, from, members) = (list.back, list.from.len(), list.members.len());
    format!(in alloc; "{back} {from} {members}")
}

fn route(alloc: Global, tables: &Tables, place: &str) -> Result<String, AllocError> {
    let Some(route) = tables.routes().get(place_of(place)) else {
        return format!(in alloc; "none");
    };
    let target = route.target;
    format!(in alloc; "{target:?}")
}

/// The hold times of urgent, normal and non-urgent messages.
fn holds(alloc: Global, tables: &Tables) -> Result<String, AllocError> {
    let holds = tables.holds();
    let (urgent, normal, non_urgent) = (holds.urgent, holds.normal, holds.non_urgent);
    format!(in alloc; "{urgent} {normal} {non_urgent}")
}

fn hop(alloc: Global, tables: &Tables, name: &str) -> Result<String, AllocError> {
    if name.len() >= 1000 {
        return format!(in alloc; "a long name");
    }
    match OrName::from_text(alloc, name.as_bytes()) {
        Ok(name) => {
            let hop = tables.route(&name);
            format!(in alloc; "{hop:?}")
        }
        Err(_) => format!(in alloc; "no name"),
    }
}

fn surname(alloc: Global, tables: &Tables, mut fields: Fields<'_>) -> Result<String, AllocError> {
    let (country, admd, surname) = (fields.take(), fields.take(), fields.take());
    let place = tables.mailbox_of_surname(country.as_bytes(), admd.as_bytes(), surname.as_bytes());
    format!(in alloc; "{place:?}")
}

/// What is looked up by a word, a name or a place.
fn found(
    alloc: Global,
    tables: &Tables,
    asked: &str,
    fields: Fields<'_>,
) -> Result<String, AllocError> {
    let about = fields.rest;
    match asked {
        "peer" => peer(alloc, tables, about),
        "list" => list(alloc, tables, about),
        "route" => route(alloc, tables, about),
        "peer-of" => format!(in alloc; "{:?}", tables.peer(about.as_bytes())),
        "mailbox-of" => format!(in alloc; "{:?}", tables.mailbox(about.as_bytes())),
        "hop" => hop(alloc, tables, about),
        "surname" => surname(alloc, tables, fields),
        _ => name_answer(alloc, asked, fields),
    }
}

/// What the row is answered.
pub fn answer(
    alloc: Global,
    tables: &Tables,
    asked: &str,
    fields: Fields<'_>,
) -> Result<String, AllocError> {
    match asked {
        "reads" => reading(alloc, lines_of(alloc, fields.rest)?.as_slice()),
        "many" => reading(alloc, text_of(alloc, fields)?.as_slice()),
        "text" => shown(alloc, tables.text()),
        "own" => shown(alloc, tables.own().as_slice()),
        "private" => format!(in alloc; "{}", tables.domain().fields().prmd.is_some()),
        "peers" => format!(in alloc; "{}", tables.peers().len()),
        "lists" => format!(in alloc; "{}", tables.lists().len()),
        "routes" => format!(in alloc; "{}", tables.routes().len()),
        "holds" => holds(alloc, tables),
        _ => found(alloc, tables, asked, fields),
    }
}
