//! Reading what one line says.

ghost use Rattle.std.specs.Prelude.{◌≡◌, ◌≤◌, ◌<◌, ◌^◌, length, IfSome};
ghost use Rattle.std.specs.Option.{option_copied};
ghost use Rattle.mta_tables.specs.Lines.{Gives, word_of, name_of, pattern_of, number_in, domain_words, name_words};
ghost use Rattle.mta_tables.specs.Lines.{mailbox_words, list_words, from_words, member_words, here_words, route_words};
ghost use Rattle.mta_tables.specs.Lines.{hold_words, mailbox_line, list_line, from_line, member_line, hold_line};
ghost use Rattle.mta_tables.specs.Lines.{route_line, before_peer, said_of, line_of};

use crate::command::{Command, command_of};
use crate::cut::{cut_at, cut_last, is_text};
use crate::domain::domain_of;
use crate::entry::Mailbox;
use crate::fault::{LineFault, LineKind};
use crate::line::{Hold, Line, ListHead, Membership, Permission, RouteLine};
use crate::peer::peer_line;
use crate::word::{grade_of, is_filled, is_policy, is_silent, is_word, number_in};
use mta_ber::{Octets, Word};
use mta_name_text::{FromText, NameFault, Pattern};
use mta_names::OrName;
use std::alloc::Global;

/// The word, where the text is one.
pub fn word_of(alloc: Global, text: &[u8]) -> Result<Word, LineFault>
    ensures { Gives result (word_of text.now) }
{
    if !is_word(text) {
        return Err(LineFault::Bad(LineKind::Word));
    }
    let octets = Octets::from_slice(alloc, text)?;
    match Word::from_octets(alloc, octets)? {
        Some(word) => Ok(word),
        None => Err(LineFault::Bad(LineKind::Word)),
    }
}

/// The number, where the text is one from `low` to `high`.
pub fn number_of(low: u32, high: u32, text: &[u8]) -> Result<u32, LineFault>
    requires { high ≤ 99999999 }
    ensures { Gives result (number_in low high text.now) }
{
    match number_in(low, high, text) {
        Some(n) => Ok(n),
        None => Err(LineFault::Bad(LineKind::Number)),
    }
}

/// The name of a text form, where the text is one.
#[tactic(auto, unfolding(crate::specs::Lines::name_of))]
fn name_of(alloc: Global, text: &[u8]) -> Result<OrName, LineFault>
    requires { length text.now < 2 ^ 32 }
    ensures { Gives result (name_of text.now) }
{
    match OrName::from_text(alloc, text) {
        Ok(name) => Ok(name),
        Err(NameFault::NameText { at: _ }) => Err(LineFault::Bad(LineKind::Name)),
        Err(NameFault::Memory) => Err(LineFault::Memory),
    }
}

/// The pattern of a text form, where the text is one.
#[tactic(auto, unfolding(crate::specs::Lines::pattern_of))]
fn pattern_of(alloc: Global, text: &[u8]) -> Result<Pattern, LineFault>
    requires { length text.now < 2 ^ 32 }
    ensures { Gives result (pattern_of text.now) }
{
    match Pattern::from_text(alloc, text) {
        Ok(pattern) => Ok(pattern),
        Err(NameFault::NameText { at: _ }) => Err(LineFault::Bad(LineKind::Name)),
        Err(NameFault::Memory) => Err(LineFault::Memory),
    }
}

fn domain_words(alloc: Global, text: &[u8]) -> Result<Line, LineFault>
    requires { length text.now < 2 ^ 32 }
    ensures { Gives result (domain_words text.now) }
{
    let name = name_of(alloc, text)?;
    match domain_of(name) {
        Some(domain) => Ok(Line::Domain(domain)),
        None => Err(LineFault::Bad(LineKind::Name)),
    }
}

fn name_words(alloc: Global, word: &[u8]) -> Result<Line, LineFault>
    ensures { Gives result (name_words word.now) }
{
    let word = word_of(alloc, word)?;
    Ok(Line::Name(word))
}

fn mailbox_words(alloc: Global, word: &[u8], text: &[u8]) -> Result<Line, LineFault>
    requires { length text.now < 2 ^ 32 }
    ensures { Gives result (mailbox_words word.now text.now) }
{
    let word = word_of(alloc, word)?;
    let name = name_of(alloc, text)?;
    Ok(Line::Mailbox(Mailbox { word, name }))
}

fn list_words(alloc: Global, word: &[u8], policy: &[u8], text: &[u8]) -> Result<Line, LineFault>
    requires { length text.now < 2 ^ 32 }
    ensures { Gives result (list_words word.now policy.now text.now) }
{
    let word = word_of(alloc, word)?;
    if !is_policy(policy) {
        return Err(LineFault::Bad(LineKind::Word));
    }
    let back = is_text(policy, b"back");
    let name = name_of(alloc, text)?;
    Ok(Line::List(ListHead { word, back, name }))
}

fn from_words(alloc: Global, word: &[u8], text: &[u8]) -> Result<Line, LineFault>
    requires { length text.now < 2 ^ 32 }
    ensures { Gives result (from_words word.now text.now) }
{
    let word = word_of(alloc, word)?;
    let pattern = pattern_of(alloc, text)?;
    Ok(Line::From(Permission { word, pattern }))
}

fn member_words(alloc: Global, word: &[u8], text: &[u8]) -> Result<Line, LineFault>
    requires { length text.now < 2 ^ 32 }
    ensures { Gives result (member_words word.now text.now) }
{
    let word = word_of(alloc, word)?;
    let name = name_of(alloc, text)?;
    Ok(Line::Member(Membership { word, name }))
}

fn here_words(alloc: Global, text: &[u8]) -> Result<Line, LineFault>
    requires { length text.now < 2 ^ 32 }
    ensures { Gives result (here_words text.now) }
{
    let pattern = pattern_of(alloc, text)?;
    Ok(Line::Route(RouteLine {
        pattern,
        peer: None,
    }))
}

fn route_words(alloc: Global, text: &[u8], word: &[u8]) -> Result<Line, LineFault>
    requires { length text.now < 2 ^ 32 }
    ensures { Gives result (route_words text.now word.now) }
{
    let word = word_of(alloc, word)?;
    let pattern = pattern_of(alloc, text)?;
    Ok(Line::Route(RouteLine {
        pattern,
        peer: Some(word),
    }))
}

#[tactic(auto, unfolding(crate::specs::Lines::hold_words))]
fn hold_words(grade: &[u8], seconds: &[u8]) -> Result<Line, LineFault>
    ensures { Gives result (hold_words grade.now seconds.now) }
{
    let Some(grade) = grade_of(grade) else {
        return Err(LineFault::Bad(LineKind::Word));
    };
    if !is_filled(seconds) {
        return Err(LineFault::Bad(LineKind::Word));
    }
    let seconds = number_of(0, 31_536_000, seconds)? as u64;
    Ok(Line::Hold(Hold { grade, seconds }))
}

#[tactic(auto, unfolding(crate::specs::Lines::mailbox_line))]
fn mailbox_line(alloc: Global, text: Option<&[u8]>) -> Result<Line, LineFault>
    requires { IfSome text (λ t. length t.now < 2 ^ 32) }
    ensures { Gives result (mailbox_line (option_copied text.entry)) }
{
    let Some(text) = text else {
        return Err(LineFault::Bad(LineKind::Word));
    };
    match cut_at(b' ', text) {
        (_, None) => Err(LineFault::Bad(LineKind::Word)),
        (word, Some(name)) => mailbox_words(alloc, word, name),
    }
}

#[tactic(auto, unfolding(crate::specs::Lines::from_line))]
fn from_line(alloc: Global, text: Option<&[u8]>) -> Result<Line, LineFault>
    requires { IfSome text (λ t. length t.now < 2 ^ 32) }
    ensures { Gives result (from_line (option_copied text.entry)) }
{
    let Some(text) = text else {
        return Err(LineFault::Bad(LineKind::Word));
    };
    match cut_at(b' ', text) {
        (_, None) => Err(LineFault::Bad(LineKind::Word)),
        (word, Some(pattern)) => from_words(alloc, word, pattern),
    }
}

#[tactic(auto, unfolding(crate::specs::Lines::member_line))]
fn member_line(alloc: Global, text: Option<&[u8]>) -> Result<Line, LineFault>
    requires { IfSome text (λ t. length t.now < 2 ^ 32) }
    ensures { Gives result (member_line (option_copied text.entry)) }
{
    let Some(text) = text else {
        return Err(LineFault::Bad(LineKind::Word));
    };
    match cut_at(b' ', text) {
        (_, None) => Err(LineFault::Bad(LineKind::Word)),
        (word, Some(name)) => member_words(alloc, word, name),
    }
}

#[tactic(auto, unfolding(crate::specs::Lines::list_line))]
fn list_line(alloc: Global, text: Option<&[u8]>) -> Result<Line, LineFault>
    requires { IfSome text (λ t. length t.now < 2 ^ 32) }
    ensures { Gives result (list_line (option_copied text.entry)) }
{
    let Some(text) = text else {
        return Err(LineFault::Bad(LineKind::Word));
    };
    let (word, Some(behind)) = cut_at(b' ', text) else {
        return Err(LineFault::Bad(LineKind::Word));
    };
    match cut_at(b' ', behind) {
        (_, None) => Err(LineFault::Bad(LineKind::Word)),
        (policy, Some(name)) => list_words(alloc, word, policy, name),
    }
}

#[tactic(auto, unfolding(crate::specs::Lines::hold_line))]
fn hold_line(text: Option<&[u8]>) -> Result<Line, LineFault>
    ensures { Gives result (hold_line (option_copied text.entry)) }
{
    let Some(text) = text else {
        return Err(LineFault::Bad(LineKind::Word));
    };
    let (grade, Some(behind)) = cut_at(b' ', text) else {
        return Err(LineFault::Bad(LineKind::Word));
    };
    match cut_at(b' ', behind) {
        (seconds, None) => hold_words(grade, seconds),
        _ => Err(LineFault::Bad(LineKind::Word)),
    }
}

/// A route to a peer, where a pattern stands before the hop.
fn before_peer(alloc: Global, text: Option<&[u8]>, word: &[u8]) -> Result<Line, LineFault>
    requires { IfSome text (λ t. length t.now < 2 ^ 32) }
    ensures { Gives result (before_peer (option_copied text.entry) word.now) }
{
    match text {
        None => Err(LineFault::Bad(LineKind::Word)),
        Some(text) => route_words(alloc, text, word),
    }
}

#[tactic(auto, unfolding(crate::specs::Lines::route_line))]
fn route_line(alloc: Global, text: &[u8]) -> Result<Line, LineFault>
    requires { length text.now < 2 ^ 32 }
    ensures { Gives result (route_line text.now) }
{
    let (Some(front), last) = cut_last(b' ', text) else {
        return Err(LineFault::Bad(LineKind::Word));
    };
    let (before, word) = cut_last(b' ', front);
    if is_text(word, b"peer") {
        return before_peer(alloc, before, last);
    }
    if is_text(last, b"here") {
        return here_words(alloc, front);
    }
    Err(LineFault::Bad(LineKind::Word))
}

/// What a line about a domain, a name or a route says.
fn whole_line(alloc: Global, command: Command, text: Option<&[u8]>) -> Result<Line, LineFault>
    requires { IfSome text (λ t. length t.now < 2 ^ 32) }
    ensures { Gives result (said_of command (option_copied text.entry)) }
{
    match command {
        Command::Peer => peer_line(alloc, text),
        Command::Mailbox => mailbox_line(alloc, text),
        Command::List => list_line(alloc, text),
        Command::From => from_line(alloc, text),
        Command::Member => member_line(alloc, text),
        Command::Hold => hold_line(text),
        _ => {
            let Some(text) = text else {
                return Err(LineFault::Bad(LineKind::Word));
            };
            match command {
                Command::Domain => domain_words(alloc, text),
                Command::Name => name_words(alloc, text),
                _ => route_line(alloc, text),
            }
        }
    }
}

/// What a line says, or what is wrong with it.
#[tactic(auto, unfolding(crate::specs::Lines::line_of))]
pub fn line_of(alloc: Global, line: &[u8]) -> Result<Line, LineFault>
    requires { length line.now < 2 ^ 32 }
    ensures { Gives result (line_of line.now) }
{
    if is_silent(line) {
        return Ok(Line::Nothing);
    }
    let (word, text) = cut_at(b' ', line);
    match command_of(word) {
        None => Err(LineFault::Bad(LineKind::Word)),
        Some(command) => whole_line(alloc, command, text),
    }
}
