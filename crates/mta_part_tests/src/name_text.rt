//! Texts that are read and written again, texts that are refused, and a route.

use mta_name_text::{FromText, NameFault, NameForm, Pattern};
use mta_names::OrName;
use std::alloc::Global;
use std::process::Abort;
use std::test::Fail;

/// Text forms of names.
const NAMES: [&str; 4] = [
    "C=GB;A=GOLD;P=ACME;O=Works;OU=A;OU=B;S=WATT;G=James",
    "C=GB;A=",
    "C=826",
    "S=WATT;I=J;Q=3;CN=James Watt;X121=23 4;TID=t;UID=7;DDA:RFC-822=a=b;DDA:x:y=z",
];

/// Texts that are no text form of a name, and where none goes on.
const FAULTY: [(&str, u32); 6] = [
    ("", 0),
    ("G=James", 0),
    ("C=GB;C=GB", 6),
    ("C=GBR", 4),
    ("C=GB;", 5),
    ("O=W;OU=a;OU=b;OU=c;OU=d;OU=e", 24),
];

/// Texts that are no text form of a pattern, and where none goes on.
const FAULTY_PATTERNS: [(&str, u32); 3] = [("", 0), ("C=GB;P=X", 5), ("A=GOLD", 0)];

fn is_read_again(rt: &impl Abort, alloc: Global, text: &str) -> Result<bool, Fail> {
    assert!(rt; text.len() < 1000);
    let name = OrName::from_text(alloc, text.as_bytes())?;
    let again = name.to_text(alloc)?;
    Ok(again.as_slice() == text.as_bytes())
}

fn is_numeric(rt: &impl Abort, alloc: Global, text: &str) -> Result<bool, Fail> {
    assert!(rt; text.len() < 1000);
    let name = OrName::from_text(alloc, text.as_bytes())?;
    match &name.attributes().country {
        None => Ok(false),
        Some(label) => Ok(label.numeric),
    }
}

fn is_no_name(rt: &impl Abort, alloc: Global, text: &str, at: u32) -> bool {
    assert!(rt; text.len() < 1000);
    match OrName::from_text(alloc, text.as_bytes()) {
        Ok(_) => false,
        Err(fault) => fault == NameFault::NameText { at },
    }
}

fn is_no_pattern(rt: &impl Abort, alloc: Global, text: &str, at: u32) -> bool {
    assert!(rt; text.len() < 1000);
    match Pattern::from_text(alloc, text.as_bytes()) {
        Ok(_) => false,
        Err(fault) => fault == NameFault::NameText { at },
    }
}

fn is_on_route(rt: &impl Abort, alloc: Global, text: &str, route: &str) -> Result<bool, Fail> {
    assert!(rt; text.len() < 1000);
    assert!(rt; route.len() < 1000);
    let name = OrName::from_text(alloc, text.as_bytes())?;
    let pattern = Pattern::from_text(alloc, route.as_bytes())?;
    Ok(name.has_route(&pattern))
}

#[test]
fn text_forms_are_read_and_written_again(rt: HostRuntime) -> Result<(), Fail> {
    for text in NAMES {
        assert!(rt; is_read_again(&rt, rt.alloc(), text)?);
    }
    assert!(rt; is_numeric(&rt, rt.alloc(), "C=826")?);
    assert!(rt; !is_numeric(&rt, rt.alloc(), "C=GB")?);
    Ok(())
}

#[test]
fn other_texts_are_at_fault_where_none_goes_on(rt: HostRuntime) {
    for (text, at) in FAULTY {
        assert!(rt; is_no_name(&rt, rt.alloc(), text, at));
    }
    for (text, at) in FAULTY_PATTERNS {
        assert!(rt; is_no_pattern(&rt, rt.alloc(), text, at));
    }
}

#[test]
fn a_route_has_each_part_of_its_pattern(rt: HostRuntime) -> Result<(), Fail> {
    let name = "C=GB;A=GOLD;P=ACME;O=Works;OU=A;S=WATT";
    assert!(rt; is_on_route(&rt, rt.alloc(), name, "C=gb;A= Gold")?);
    assert!(rt; is_on_route(&rt, rt.alloc(), name, "C=GB;A=GOLD;P=ACME;O=Works;OU=a")?);
    assert!(rt;
        !is_on_route(
            &rt,
            rt.alloc(),
            name,
            "C=GB;A=GOLD;P=ACME;O=Works;OU=A;OU=B"
        )?
    );
    assert!(rt; !is_on_route(&rt, rt.alloc(), name, "C=GB;A=IRON")?);
    Ok(())
}
