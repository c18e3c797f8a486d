//! The first words of lines.

ghost use Rattle.std.specs.Prelude.{◌≡◌};
ghost use Rattle.mta_tables.specs.Words.{command_of};

use crate::cut::is_text;

/// What a line is about.
#[derive(Clone, Copy)]
pub enum Command {
    Domain,
    Name,
    Peer,
    Mailbox,
    List,
    From,
    Member,
    Route,
    Hold,
}

/// What a line with this first word is about.
pub fn command_of(word: &[u8]) -> Option<Command>
    ensures { result ≡ command_of word.now }
{
    if is_text(word, b"domain") {
        Some(Command::Domain)
    } else if is_text(word, b"name") {
        Some(Command::Name)
    } else if is_text(word, b"peer") {
        Some(Command::Peer)
    } else if is_text(word, b"mailbox") {
        Some(Command::Mailbox)
    } else if is_text(word, b"list") {
        Some(Command::List)
    } else if is_text(word, b"from") {
        Some(Command::From)
    } else if is_text(word, b"member") {
        Some(Command::Member)
    } else if is_text(word, b"route") {
        Some(Command::Route)
    } else if is_text(word, b"hold") {
        Some(Command::Hold)
    } else {
        None
    }
}
