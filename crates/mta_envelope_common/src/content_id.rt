//! Content identifiers.

ghost use Rattle.std.specs.Prelude.{◌≡◌, ℕ, List, IfOk, OnOk, OnErr};
ghost use Rattle.mta_ber.specs.Canon.{appended, optional};
ghost use Rattle.mta_ber.specs.Parts.{Reads, IsReadAs};
ghost use Rattle.mta_ber.specs.Seen.{view};
ghost use Rattle.mta_envelope_common.specs.ContentIdentifiers.{IsContentId, content_id_in, SpellsContentId};
ghost use Rattle.mta_envelope_common.specs.ContentIdentifiers.{canonical_content_id};

use mta_ber::{Memory, ReadFault, Text, TextClass, View, Writer};
use mta_names::primitive;
use std::alloc::Global;

/// The content identifier that an element spells (X.411, ContentIdentifier), whatever its tag, which is `[APPLICATION
/// 10]` and for the caller to check: a PrintableString of 1 to 16 characters.
pub fn read_content_id(alloc: Global, part: &View) -> Result<Text, ReadFault>
    // Which identifier it is, or which fault comes first.
    ensures exact { Reads result (content_id_in (view part.now)) }
    ensures fits { IfOk result IsContentId }

    // What is answered is spelled by the content, and what the content spells is answered.
    ensures found { IfOk result (SpellsContentId part.now.depth part.now.tag.constructed part.now.content.now) }
    ensures only { (v : List ℕ) → SpellsContentId part.now.depth part.now.tag.constructed part.now.content.now v
        → IsReadAs result v }
{
    part.text(alloc, TextClass::Printable, 1, 16)
}

/// Appends a content identifier under `[APPLICATION 10]`, where it is there.
#[tactic(auto, using(crate::proofs::Written::appended_none))]
pub fn put_content_id(w: &mut Writer, id: &Option<Text>) -> Result<(), Memory>
    ensures ok { OnOk result (w.new ≡ appended w.old (optional canonical_content_id id.now)) }
    ensures err { OnErr result (w.new ≡ w.old) }
{
    match id {
        None => Ok(()),
        Some(id) => w.put(primitive(1, 10), id.as_slice()),
    }
}
