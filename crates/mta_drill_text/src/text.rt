//! The lines of a drill.

ghost use Rattle.std.specs.Prelude.{◌≡◌, ◌++◌, IfOk, OnOk};
ghost use Rattle.mta_drill_text.specs.Text.{line, text_of};

use crate::counts::Counts;
use mta_apdu_text::put_number;
use mta_ber::{Memory, Octets};
use std::alloc::Global;

// Puts a line of a word and a number.
#[tactic(auto, unfolding(crate::specs::Text::line))]
fn put_line(text: &mut Octets, word: &[u8], number: u64) -> Result<(), Memory>
    ensures { OnOk result (text.new ≡ text.old ++ line word.now number) }
{
    text.extend(word)?;
    text.extend(b" ")?;
    put_number(text, number)?;
    text.extend(b"\n")
}

/// The lines of a drill of so many messages.
#[tactic(auto, unfolding(crate::specs::Text::text_of))]
pub fn drill_text(alloc: Global, messages: u32, counts: &Counts) -> Result<Octets, Memory>
    ensures { IfOk result (λ o. o ≡ text_of messages counts.now.accepted counts.now.transferred
        counts.now.delivered counts.now.broken counts.now.octets) }
{
    let mut text = Octets::new(alloc);
    put_line(&mut text, b"drill", u64::from(messages))?;
    put_line(&mut text, b"accepted", counts.accepted)?;
    put_line(&mut text, b"transferred", counts.transferred)?;
    put_line(&mut text, b"delivered", counts.delivered)?;
    put_line(&mut text, b"broken", counts.broken)?;
    put_line(&mut text, b"octets", counts.octets)?;
    Ok(text)
}
