//! Content types.

ghost use Rattle.std.specs.Prelude.{◌≡◌, IfOk, OnOk, OnErr};
ghost use Rattle.mta_ber.specs.Canon.{appended, optional};
ghost use Rattle.mta_ber.specs.Parts.{Reads, IsReadAs};
ghost use Rattle.mta_ber.specs.Seen.{view};
ghost use Rattle.mta_envelope_common.specs.declared.kind.ContentKind.{ContentKind};
ghost use Rattle.mta_envelope_common.specs.ContentKinds.{is_content_kind, content_kind_in, SpellsContentKind};
ghost use Rattle.mta_envelope_common.specs.ContentKinds.{canonical_content_kind, kind_in_front, kind_in_place};

use mta_ber::{
    Kind, Memory, ReadFault, Tag, View, Writer, bad, is_primitive_tag, is_tag_of, put_int,
};
use mta_names::{Code, ObjectId, primitive, read_code};
use std::alloc::Global;

/// A content type (X.411, ContentType): a number of 0 to 32,767, or an object identifier. It holds no other value.
#[derive(Drop)]
pub enum ContentKind {
    Number(Code),
    Oid(ObjectId),
}

/// Whether a tag is that of a content type, which is primitive: `[APPLICATION 6]`, or that of OBJECT IDENTIFIER.
pub fn is_content_kind_tag(tag: Tag) -> bool
    ensures { result ≡ is_content_kind tag }
{
    is_primitive_tag(tag, 1, 6) || is_primitive_tag(tag, 0, 6)
}

#[tactic(auto, unfolding(crate::specs::ContentKinds::content_kind_in))]
fn content_kind_of(alloc: Global, part: &View) -> Result<ContentKind, ReadFault>
    ensures { Reads result (content_kind_in (view part.now)) }
{
    if is_tag_of(part.tag, 1, 6) {
        let number = read_code(part)?;
        Ok(ContentKind::Number(number))
    } else if is_tag_of(part.tag, 0, 6) {
        let oid = ObjectId::read(alloc, part)?;
        Ok(ContentKind::Oid(oid))
    } else {
        bad(part.at, Kind::BadTag)
    }
}

/// The content type that an element spells: an INTEGER of 0 to 32,767 under `[APPLICATION 6]`, or an OBJECT IDENTIFIER.
/// BadTag at any other tag.
pub fn read_content_kind(alloc: Global, part: &View) -> Result<ContentKind, ReadFault>
    // Which content type it is, or which fault comes first.
    ensures exact { Reads result (content_kind_in (view part.now)) }

    // What is answered is spelled by the element, and what the element spells is answered.
    ensures found { IfOk result
        (SpellsContentKind part.now.depth part.now.tag part.now.content.now part.now.octets.now) }
    ensures only { (v : ContentKind)
        → SpellsContentKind part.now.depth part.now.tag part.now.content.now part.now.octets.now v → IsReadAs result v }
{
    content_kind_of(alloc, part)
}

/// Appends a content type in its canonical octets.
pub fn put_content_kind(w: &mut Writer, kind: &ContentKind) -> Result<(), Memory>
    ensures ok { OnOk result (w.new ≡ appended w.old (canonical_content_kind kind.now)) }
    ensures err { OnErr result (w.new ≡ w.old) }
{
    match kind {
        ContentKind::Number(number) => put_int(w, primitive(1, 6), number.number() as i64),
        ContentKind::Oid(oid) => w.put(primitive(0, 6), oid.as_slice()),
    }
}

/// Appends a content type where it is an object identifier, whose tag comes before all others of a SET.
#[tactic(auto, using(crate::proofs::Written::appended_none))]
pub fn put_content_kind_in_front(w: &mut Writer, kind: &Option<ContentKind>) -> Result<(), Memory>
    ensures ok { OnOk result (w.new ≡ appended w.old (optional kind_in_front kind.now)) }
    ensures err { OnErr result (w.new ≡ w.old) }
{
    match kind {
        Some(ContentKind::Oid(oid)) => w.put(primitive(0, 6), oid.as_slice()),
        Some(ContentKind::Number(_)) | None => Ok(()),
    }
}

/// Appends a content type where it is a number, whose tag is `[APPLICATION 6]`.
#[tactic(auto, using(crate::proofs::Written::appended_none))]
pub fn put_content_kind_in_place(w: &mut Writer, kind: &Option<ContentKind>) -> Result<(), Memory>
    ensures ok { OnOk result (w.new ≡ appended w.old (optional kind_in_place kind.now)) }
    ensures err { OnErr result (w.new ≡ w.old) }
{
    match kind {
        Some(ContentKind::Number(number)) => { put_int(w, primitive(1, 6), number.number() as i64) }
        Some(ContentKind::Oid(_)) | None => Ok(()),
    }
}
