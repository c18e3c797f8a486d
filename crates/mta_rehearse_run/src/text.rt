//! The text of a walk.

ghost use Rattle.std.specs.Prelude.{◌≡◌, ◌<◌, ◌++◌, codes, length, IfOk, OnOk};
ghost use Rattle.mta_rehearse_run.specs.WalkText.{line, peer_line, steps_text, end_text, walk_text, status_of};

use crate::hops::{list_at, mailbox_at, own_at};
use crate::walked::{Walk, WalkEnd};
use mta_ber::{Memory, Octets};
use mta_tables::Tables;
use std::alloc::Global;

// Puts the line of an agent: what becomes of the name there, and a word.
fn put_line(text: &mut Octets, own: &[u8], what: &[u8], word: &[u8]) -> Result<(), Memory>
    ensures { OnOk result (text.new ≡ text.old ++ line own.now what.now word.now) }
{
    text.extend(b"at ")?;
    text.extend(own)?;
    text.extend(what)?;
    text.extend(word)?;
    text.extend(b"\n")
}

// Puts a line of its own: what, and a word.
fn put_last(text: &mut Octets, what: &[u8], word: &[u8]) -> Result<(), Memory>
    ensures { OnOk result (text.new ≡ text.old ++ (what.now ++ (word.now ++ codes "\n"))) }
{
    text.extend(what)?;
    text.extend(word)?;
    text.extend(b"\n")
}

// Puts a line for each agent that sends the name on to the one behind it.
fn put_steps(text: &mut Octets, agents: &[Tables], walked: &[u32]) -> Result<(), Memory>
    ensures { OnOk result (text.new ≡ text.old ++ steps_text agents.now walked.now) }
{
    match walked {
        [] => Ok(()),
        [first, rest @ ..] => match rest {
            [] => Ok(()),
            [second, ..] => {
                put_line(
                    text,
                    own_at(agents, *first),
                    b" peer ",
                    own_at(agents, *second),
                )?;
                put_steps(text, agents, rest)
            }
        },
    }
}

// Puts the lines of the last agent and of the end.
fn put_end(text: &mut Octets, agents: &[Tables], last: u32, end: &WalkEnd) -> Result<(), Memory>
    ensures { OnOk result (text.new ≡ text.old ++ end_text agents.now last end.now) }
{
    let own = own_at(agents, last);
    match end {
        WalkEnd::Mailbox(place) => {
            put_line(text, own, b" mailbox ", mailbox_at(agents, last, *place))
        }
        WalkEnd::List(place) => put_line(text, own, b" list ", list_at(agents, last, *place)),
        WalkEnd::NoRoute => put_line(text, own, b" no route", b""),
        WalkEnd::Unknown(word) => {
            put_line(text, own, b" peer ", word.as_slice())?;
            put_last(text, b"unknown agent ", word.as_slice())
        }
        WalkEnd::Loop(place) => {
            let back = own_at(agents, *place);
            put_line(text, own, b" peer ", back)?;
            put_last(text, b"loop ", back)
        }
    }
}

/// The text of a walk: a line for each agent, and one more where the last one sends the name to no agent or back.
#[tactic(auto, unfolding(crate::specs::WalkText::walk_text))]
pub fn walk_text(alloc: Global, agents: &[Tables], walk: &Walk) -> Result<Octets, Memory>
    requires { 0 < length walk.now.agents }
    ensures { IfOk result (λ t. t ≡ walk_text agents.now walk.now) }
{
    let mut text = Octets::new(alloc);
    let walked = walk.agents.as_slice();
    put_steps(&mut text, agents, walked)?;
    put_end(&mut text, agents, walked[walked.len() - 1], &walk.end)?;
    Ok(text)
}

/// The status of an end: 20 for a loop, 21 for an unknown agent, and else 0.
pub fn status_of(end: &WalkEnd) -> u8
    ensures { result ≡ status_of end.now }
{
    match end {
        WalkEnd::Mailbox(_) | WalkEnd::List(_) | WalkEnd::NoRoute => 0,
        WalkEnd::Loop(_) => 20,
        WalkEnd::Unknown(_) => 21,
    }
}
