//! Lines about peers.

ghost use Rattle.std.specs.Prelude.{◌≡◌, Ok, Err, MatchOption};
ghost use Rattle.std.specs.Option.{option_copied};
ghost use Rattle.mta_tables.specs.declared.fault.LineKind.TheVariants as Kinds;
ghost use Rattle.mta_tables.specs.Lines.{Gives, next_word, last_word, are_peer_words, peer_cut, peer_words, peer_line};
ghost use Rattle.mta_tables.specs.Seen.{words_seen};

use crate::cut::{cut_at, is_text};
use crate::entry::Peer;
use crate::fault::{LineFault, LineKind};
use crate::line::{Line, PeerWords};
use crate::said::{number_of, word_of};
use crate::word::{is_filled, is_mode, is_password, is_word};
use mta_ber::Octets;
use std::alloc::Global;

/// The next word of a text, and what stands behind the space behind it.
fn next_word(text: Option<&[u8]>) -> Option<(&[u8], Option<&[u8]>)>
    ensures { MatchOption result (next_word (option_copied text.entry) ≡ Err Kinds.Word)
        (λ r. next_word (option_copied text.entry) ≡ Ok (r.0.now, option_copied r.1)) }
{
    match text {
        None => None,
        Some(text) => Some(cut_at(b' ', text)),
    }
}

/// The last word of a text.
fn last_word(text: Option<&[u8]>) -> Option<&[u8]>
    ensures { MatchOption result (last_word (option_copied text.entry) ≡ Err Kinds.Word)
        (λ r. last_word (option_copied text.entry) ≡ Ok r.now) }
{
    match cut_at(b' ', text?) {
        (word, None) => Some(word),
        _ => None,
    }
}

/// The six words of a line about a peer.
fn peer_cut(text: Option<&[u8]>) -> Option<PeerWords>
    ensures { MatchOption result (peer_cut (option_copied text.entry) ≡ Err Kinds.Word)
        (λ r. peer_cut (option_copied text.entry) ≡ Ok (words_seen r)) }
{
    let (name, rest) = next_word(text)?;
    let (send, rest) = next_word(rest)?;
    let (expected, rest) = next_word(rest)?;
    let (mode, rest) = next_word(rest)?;
    let (size, rest) = next_word(rest)?;
    let window = last_word(rest)?;
    Some(PeerWords {
        name,
        send,
        expected,
        mode,
        size,
        window,
    })
}

fn are_peer_words(words: PeerWords) -> bool
    ensures { result ≡ are_peer_words (words_seen words.entry) }
{
    is_word(words.name)
        && is_password(words.send)
        && is_password(words.expected)
        && is_mode(words.mode)
        && is_filled(words.size)
        && is_filled(words.window)
}

#[tactic(auto, unfolding(crate::specs::Lines::peer_words))]
fn peer_words(alloc: Global, words: PeerWords) -> Result<Line, LineFault>
    ensures { Gives result (peer_words (words_seen words.entry)) }
{
    if !are_peer_words(words) {
        return Err(LineFault::Bad(LineKind::Word));
    }
    let checkpoint = number_of(0, 64, words.size)?;
    let window = number_of(1, 8, words.window)?;
    let name = word_of(alloc, words.name)?;
    let send_password = Octets::from_slice(alloc, words.send)?;
    let expected_password = Octets::from_slice(alloc, words.expected)?;
    let twa = is_text(words.mode, b"twa");
    Ok(Line::Peer(Peer {
        name,
        send_password,
        expected_password,
        twa,
        checkpoint,
        window,
    }))
}

/// What a line about a peer says behind its first word: a word, two passwords, a mode, a checkpoint size and a window.
#[tactic(auto, unfolding(crate::specs::Lines::peer_line))]
pub fn peer_line(alloc: Global, text: Option<&[u8]>) -> Result<Line, LineFault>
    ensures { Gives result (peer_line (option_copied text.entry)) }
{
    match peer_cut(text) {
        None => Err(LineFault::Bad(LineKind::Word)),
        Some(words) => peer_words(alloc, words),
    }
}
