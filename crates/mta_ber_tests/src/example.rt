//! The pattern of a reader, at a type of three components: what a crate above this one writes for a SET.
//!
//! 1. The value, `Note`, and what a reader has of it so far, `NoteParts`, with one `Option` a component
//! (`src/note.rt`).
//! 2. In `specs/Example.antt`, the step that a component makes, `note_step`; the reading function `note_in` over
//! `components`; and    what a component makes where octets spell it, `MakesNote`, with the relation `SpellsNote` over
//! `SpellsComponents`.
//! 3. `Components` for `NoteParts`: the step in code. It needs no proof file.
//! 4. `Note::read_parts` over `take_parts`: its clause says that it gives what `note_in` gives, and needs no proof
//! file. `Note::read`    calls it, and adds the clauses `found` and `only`.
//! 5. In `proofs/ExampleLaws.antt`, that a step answers exactly what a component makes, a few lines a component:
//! `StepSound` by    `placed` and, of the component's own reader, the law that what is read is spelled (`text_sound`);
//! `StepFull` by the law that    what is spelled is read (`text_full`). `parts_sound` and `parts_full`
//! (`proofs/ComponentLaws.antt`) carry both over the loop,    and `proofs/note/Note/read/Answers.antt` cites the two
//! laws of the whole type that come out.
//!
//! A SEQUENCE has the place of the last component beside the others, and its step asks `check_order` (`in_order`) in
//! place of `once`, with the law `placed_in_order` in place of `placed`; all else is the same.
//!
//! A component in an explicit tag is `inner`, then what reads the element inside, then `alone`, in this order. Its
//! reading function is `explicit`, its relation `SpellsExplicit`, and its laws are `explicit_sound` and `explicit_full`
//! (`proofs/ExplicitLaws.antt`).

ghost use Rattle.std.specs.Prelude.{◌≡◌, IfOk};
ghost use Rattle.mta_ber.specs.Parts.{Leaves, Reads, IsReadAs};
ghost use Rattle.mta_ber.specs.Seen.{view};
ghost use Rattle.mta_ber_tests.specs.Example.{note_step, note_in, SpellsNote};
ghost use Rattle.mta_ber_tests.specs.declared.note.Note.{Note as NoteValue};

use crate::note::{Note, NoteParts};
use mta_ber::{
    Components, Kind, ReadFault, TextClass, View, bad, is_tag_of, take_parts, take_required,
};
use std::alloc::Global;

impl Components for NoteParts {
    ghost step = { note_step };

    #[tactic(auto, unfolding(crate::specs::Example::note_step))]
    fn take(&mut self, alloc: Global, part: &View) -> Result<(), ReadFault> {
        if is_tag_of(part.tag, 2, 0) {
            if self.title.is_some() {
                return bad(part.at, Kind::Twice);
            }
            self.title = Some(part.text(alloc, TextClass::Printable, 1, 20)?);
        } else if is_tag_of(part.tag, 2, 1) {
            if self.count.is_some() {
                return bad(part.at, Kind::Twice);
            }
            self.count = Some(part.int(0, 100)?);
        } else if is_tag_of(part.tag, 2, 2) {
            if self.flags.is_some() {
                return bad(part.at, Kind::Twice);
            }
            self.flags = Some(part.bits()?);
        } else {
            return bad(part.at, Kind::BadTag);
        }
        Ok(())
    }
}

impl Note {
    /// The note that a SET spells, its components in any order.
    pub fn read(alloc: Global, whole: &View) -> Result<Note, ReadFault>
        ensures exact { Reads result (note_in (view whole.now)) }

        // What is answered is spelled by the content, and what the content spells is answered.
        ensures found { IfOk result (SpellsNote whole.now.depth whole.now.tag.constructed whole.now.content.now) }
        ensures only { (v : NoteValue) → SpellsNote whole.now.depth whole.now.tag.constructed whole.now.content.now v
            → IsReadAs result v }
    {
        Note::read_parts(alloc, whole)
    }

    #[tactic(auto, unfolding(crate::specs::Example::note_in))]
    fn read_parts(alloc: Global, whole: &View) -> Result<Note, ReadFault>
        ensures { Reads result (note_in (view whole.now)) }
    {
        if !whole.tag.constructed {
            return bad(whole.at, Kind::BadTag);
        }
        let mut parts = NoteParts {
            title: None,
            count: None,
            flags: None,
        };
        take_parts(alloc, whole, &mut parts)?;
        let NoteParts {
            title,
            count,
            flags,
        } = parts;
        let title = take_required(title, whole.at)?;
        Ok(Note {
            title,
            count: count.unwrap_or(0),
            flags,
        })
    }
}
