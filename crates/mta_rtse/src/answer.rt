//! Reading RTOAC.

ghost use Rattle.std.specs.Prelude.{◌≡◌, ℕ, IfOk};
ghost use Rattle.mta_ber.specs.Parts.{Leaves, Reads, IsReadAs};
ghost use Rattle.mta_rtse.specs.declared.types.OpenAnswer.{OpenAnswer as TheOpenAnswer};
ghost use Rattle.mta_rtse.specs.Spelling.{SpellsRtoac};
ghost use Rattle.mta_ber.specs.Seen.{view};
ghost use Rattle.mta_rtse.specs.Answer.{rtoac_step, rtoac_parts_in, rtoac_in};

use crate::connection::read_answer_data;
use crate::request::DEFAULT_WINDOW;
use crate::types::{Answer, OpenAnswer};
use crate::values::read_number;
use mta_ber::{
    Components, Kind, ReadFault, View, bad, is_constructed_tag, is_primitive_tag, is_tag_of,
    take_parts, take_required,
};
use std::alloc::Global;

/// The components so far.
#[derive(Drop)]
pub struct AnswerParts {
    pub checkpoint: Option<u32>,
    pub window: Option<u32>,
    pub answer: Option<Answer>,
}

impl Components for AnswerParts {
    ghost step = { rtoac_step };

    #[tactic(auto, unfolding(crate::specs::Answer::rtoac_step))]
    fn take(&mut self, alloc: Global, part: &View) -> Result<(), ReadFault> {
        if is_primitive_tag(part.tag, 2, 0) {
            if self.checkpoint.is_some() {
                return bad(part.at, Kind::Twice);
            }
            self.checkpoint = Some(read_number(part)?);
        } else if is_primitive_tag(part.tag, 2, 1) {
            if self.window.is_some() {
                return bad(part.at, Kind::Twice);
            }
            self.window = Some(read_number(part)?);
        } else if is_constructed_tag(part.tag, 2, 2) {
            if self.answer.is_some() {
                return bad(part.at, Kind::Twice);
            }
            self.answer = Some(read_answer_data(alloc, part)?);
        } else {
            return bad(part.at, Kind::BadTag);
        }
        Ok(())
    }
}

/// RTOAC, `[17]` SET.
pub fn read_answer(alloc: Global, whole: &View) -> Result<OpenAnswer, ReadFault>
    ensures exact { Reads result (rtoac_in (view whole.now)) }

    // What is answered is spelled by the element, and what the element spells is answered.
    ensures found { IfOk result (SpellsRtoac whole.now.depth whole.now.tag whole.now.content.now whole.now.octets.now) }
    ensures only { (v : TheOpenAnswer)
        → SpellsRtoac whole.now.depth whole.now.tag whole.now.content.now whole.now.octets.now v → IsReadAs result v }
{
    answer_from(alloc, whole)
}

#[tactic(auto, unfolding(crate::specs::Answer::rtoac_in))]
fn answer_from(alloc: Global, whole: &View) -> Result<OpenAnswer, ReadFault>
    ensures { Reads result (rtoac_in (view whole.now)) }
{
    if !is_tag_of(whole.tag, 2, 17) {
        return bad(whole.at, Kind::BadTag);
    }
    read_answer_parts(alloc, whole)
}

#[tactic(auto, unfolding(crate::specs::Answer::rtoac_parts_in))]
fn read_answer_parts(alloc: Global, whole: &View) -> Result<OpenAnswer, ReadFault>
    ensures { Reads result (rtoac_parts_in (view whole.now)) }
{
    if !whole.tag.constructed {
        return bad(whole.at, Kind::BadTag);
    }
    let mut parts = AnswerParts {
        checkpoint: None,
        window: None,
        answer: None,
    };
    take_parts(alloc, whole, &mut parts)?;
    let AnswerParts {
        checkpoint,
        window,
        answer,
    } = parts;
    let answer = take_required(answer, whole.at)?;
    Ok(OpenAnswer {
        checkpoint: checkpoint.unwrap_or(0),
        window: window.unwrap_or(DEFAULT_WINDOW),
        answer,
    })
}
