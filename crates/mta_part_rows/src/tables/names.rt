//! What is asked of names alone: `name`, whether a text is the form of a name and the name's own text is the same;
//! `pattern`, whether a text is the form of a pattern; `numeric`, whether the country of a name is numeric; and `on`,
//! whether a name is on the route of a pattern. Where a text is none, the answer is where no form goes on.

use mta_name_text::{FromText, NameFault, NameForm, Pattern};
use mta_names::OrName;
use mta_rows::Fields;
use std::alloc::{AllocError, Global};

fn fault_text(alloc: Global, fault: NameFault) -> Result<String, AllocError> {
    match fault {
        NameFault::NameText { at } => format!(in alloc; "{at}"),
        NameFault::Memory => format!(in alloc; "memory"),
    }
}

/// What the text of a name is: `ok` where it is this one.
fn again(alloc: Global, name: &OrName, text: &str) -> Result<String, AllocError> {
    match name.to_text(alloc) {
        Ok(again) if again.as_slice() == text.as_bytes() => format!(in alloc; "ok"),
        Ok(_) => format!(in alloc; "another text"),
        Err(_) => format!(in alloc; "memory"),
    }
}

fn name(alloc: Global, text: &str) -> Result<String, AllocError> {
    if text.len() >= 1000 {
        return format!(in alloc; "a long name");
    }
    match OrName::from_text(alloc, text.as_bytes()) {
        Ok(name) => again(alloc, &name, text),
        Err(fault) => fault_text(alloc, fault),
    }
}

fn pattern(alloc: Global, text: &str) -> Result<String, AllocError> {
    if text.len() >= 1000 {
        return format!(in alloc; "a long pattern");
    }
    match Pattern::from_text(alloc, text.as_bytes()) {
        Ok(_) => format!(in alloc; "ok"),
        Err(fault) => fault_text(alloc, fault),
    }
}

fn numeric(alloc: Global, text: &str) -> Result<String, AllocError> {
    if text.len() >= 1000 {
        return format!(in alloc; "a long name");
    }
    match OrName::from_text(alloc, text.as_bytes()) {
        Ok(name) => match &name.attributes().country {
            None => format!(in alloc; "no country"),
            Some(label) => format!(in alloc; "{}", label.numeric),
        },
        Err(fault) => fault_text(alloc, fault),
    }
}

fn on(alloc: Global, text: &str, route: &str) -> Result<String, AllocError> {
    if text.len() >= 1000 || route.len() >= 1000 {
        return format!(in alloc; "a long name");
    }
    let name = OrName::from_text(alloc, text.as_bytes());
    let pattern = Pattern::from_text(alloc, route.as_bytes());
    match (name, pattern) {
        (Ok(name), Ok(pattern)) => format!(in alloc; "{}", name.has_route(&pattern)),
        _ => format!(in alloc; "no name or no pattern"),
    }
}

/// What the row is answered.
pub fn name_answer(
    alloc: Global,
    asked: &str,
    mut fields: Fields<'_>,
) -> Result<String, AllocError> {
    match asked {
        "name" => name(alloc, fields.rest),
        "pattern" => pattern(alloc, fields.rest),
        "numeric" => numeric(alloc, fields.rest),
        "on" => {
            let text = fields.take();
            on(alloc, text, fields.take())
        }
        _ => format!(in alloc; "not asked"),
    }
}
