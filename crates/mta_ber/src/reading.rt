//! Reading elements from the front.

ghost use Rattle.std.specs.Prelude.{◌≡◌, ◌+◌, ◌-◌, ◌<◌, ◌≤◌, ◌^◌, length, drop, IfOk, OnOk, IfSome, IsTrue};
ghost use Rattle.std.specs.Prelude.{IfNone, OnErr, IsOkAnd, IsSomeAnd, Ok, Err, true, [], ℕ, List, ◌++◌};
ghost use Rattle.mta_ber.specs.Element.{part, part_from, first, next_part, inner, alone, outermost, IsBehind};
ghost use Rattle.mta_ber.specs.declared.tag.Tag.{Tag};
ghost use Rattle.mta_ber.specs.declared.fault.Kind.TheVariants.{BadTag};
ghost use Rattle.mta_ber.specs.Spelling.{Standing, Stands, IsLentAt};
ghost use Rattle.mta_ber.specs.Explicit.{StandsInside};
ghost use Rattle.mta_ber.specs.Octet.{IsOctets};
ghost use Rattle.mta_ber.specs.Place.{IsTail, IsAt};
ghost use Rattle.mta_ber.specs.Seen.{Gives, head_view, view, next_view};

use crate::element::run_of;
use crate::fault::{Fault, Kind};
use crate::head::{Head, head_of};
use crate::view::{Parts, View};

/// What follows the first `used` octets.
fn behind(bytes: &[u8], used: usize) -> &[u8]
    requires { used ≤ length bytes.now }
    ensures exact { result.now ≡ drop used bytes.now }
    ensures tail { IsTail result bytes.entry }
{
    &bytes[used..]
}

#[tactic(auto, unfolding(crate::specs::Element::part_from))]
fn view_of<'a>(bytes: &'a [u8], at: u32, depth: u8, head: Head<'a>) -> Result<View<'a>, Fault>
    requires room { at + length bytes.now < 2 ^ 32 }
    requires level { (1 ≤ depth) × (depth ≤ 16) }
    requires shorter { length head.body.now < length bytes.now }
    requires within { IfSome head.length (λ n. n ≤ length head.body.now) }
    requires tail { IsTail head.body bytes }
    requires octets { IsOctets head.body.now }
    ensures exact { Gives view result (part_from at depth bytes.now (head_view head.entry)) }
    ensures shorter { IfOk result (λ v. length v.rest.now < length bytes.now) }
    ensures depth { IfOk result (λ v. v.depth ≡ depth) }
    ensures place { IfOk result (λ v. IsAt (v.start - at) v.content bytes.entry) }
    ensures front { IfOk result (λ v. IsAt 0 v.octets bytes.entry) }
    ensures tail { IfOk result (λ v. IsTail v.rest bytes.entry) }
{
    let size = bytes.len() - head.body.len();
    let start = at + size as u32;
    match head.length {
        None => {
            let used = run_of(head.body, start, depth, true)?;
            let content = &head.body[..used - 2];
            let rest = behind(head.body, used);
            Ok(View {
                tag: head.tag,
                at,
                depth,
                start,
                content,
                rest,
                octets: &bytes[..size + used],
            })
        }
        Some(count) => {
            let content = &head.body[..count];
            let rest = behind(head.body, count);
            Ok(View {
                tag: head.tag,
                at,
                depth,
                start,
                content,
                rest,
                octets: &bytes[..size + count],
            })
        }
    }
}

/// The element at the front, in a level.
#[tactic(auto, unfolding(crate::specs::Element::part))]
fn part_of(bytes: &[u8], at: u32, depth: u8) -> Result<View<'_>, Fault>
    requires room { at + length bytes.now < 2 ^ 32 }
    requires level { 1 ≤ depth }
    ensures exact { Gives view result (part at depth bytes.now) }
    ensures shorter { IfOk result (λ v. length v.rest.now < length bytes.now) }
    ensures depth { IfOk result (λ v. v.depth ≡ depth) }
    ensures place { IfOk result (λ v. IsAt (v.start - at) v.content bytes.entry) }
    ensures front { IfOk result (λ v. IsAt 0 v.octets bytes.entry) }
    ensures tail { IfOk result (λ v. IsTail v.rest bytes.entry) }
{
    let head = head_of(bytes, at, depth)?;
    view_of(bytes, at, depth, head)
}

#[tactic(auto, unfolding(crate::specs::Element::first))]
fn first_of(bytes: &[u8], at: u32) -> Result<View<'_>, Fault>
    requires room { at + length bytes.now < 2 ^ 32 }
    ensures exact { Gives view result (first at bytes.now) }
    ensures shorter { IfOk result (λ v. length v.rest.now < length bytes.now) }
    ensures place { IfOk result (λ v. IsAt (v.start - at) v.content bytes.entry) }
    ensures front { IfOk result (λ v. IsAt 0 v.octets bytes.entry) }
    ensures tail { IfOk result (λ v. IsTail v.rest bytes.entry) }
{
    let head = head_of(bytes, at, 1)?;
    let depth = if head.tag.class == 2 && head.tag.number == 2 {
        2
    } else {
        1
    };
    view_of(bytes, at, depth, head)
}

impl<'a> View<'a> {
    /// The element at the front.
    pub fn first(bytes: &'a [u8], at: u32) -> Result<View<'a>, Fault>
        requires room { at + length bytes.now < 2 ^ 32 }

        // Which element it is, or which fault comes first.
        ensures exact { Gives view result (first at bytes.now) }

        // What is answered is spelled at the front, and is the slice of the octets at its place.
        ensures found { IfOk result (λ v. Standing at (outermost v.tag) (view v) bytes.now) }
        ensures lent { IfOk result (λ v. IsLentAt at (view v) bytes.now) }

        // And it is that memory.
        ensures place { IfOk result (λ v. IsAt (v.start - at) v.content bytes.entry) }
        ensures front { IfOk result (λ v. IsAt 0 v.octets bytes.entry) }
        ensures tail { IfOk result (λ v. IsTail v.rest bytes.entry) }

        // What is spelled at the front is answered.
        ensures only { (t : Tag) (content octets rest : List ℕ) → Stands (outermost t) t content octets
            → bytes.now ≡ octets ++ rest
            → IsOkAnd result (λ v. (v.tag ≡ t) × (v.content.now ≡ content) × (v.rest.now ≡ rest)
            × (v.octets.now ≡ octets)) }
    {
        first_of(bytes, at)
    }

    /// The one element inside an explicit tag (X.690, 8.14). BadTag where this element is primitive, and Truncated at
    /// the offset of its content where that is empty. That nothing stands behind it is for `alone` to say, once it was
    /// read.
    pub fn inner(&self) -> Result<View<'a>, Fault>
        // Which element it is, or which fault comes first.
        ensures exact { Gives view result (inner (view self.now)) }

        // What is answered stands at the front of the content, and is the slice of the content at its place.
        ensures found { IfOk result (λ v. StandsInside self.now.start self.now.depth self.now.tag.constructed
            self.now.content.now (view v)) }
        ensures lent { IfOk result (λ v. IsLentAt self.now.start (view v) self.now.content.now) }

        // And it is that memory.
        ensures place { IfOk result (λ v. IsAt (v.start - self.now.start) v.content self.now.content) }
        ensures front { IfOk result (λ v. IsAt 0 v.octets self.now.content) }
        ensures tail { IfOk result (λ v. IsTail v.rest self.now.content) }

        // What stands at the front of a constructed content is answered.
        ensures only { (t : Tag) (content octets rest : List ℕ) → self.now.tag.constructed ≡ true
            → Stands (self.now.depth + 1) t content octets → self.now.content.now ≡ octets ++ rest
            → IsOkAnd result (λ v. (v.tag ≡ t) × (v.content.now ≡ content) × (v.rest.now ≡ rest)
            × (v.octets.now ≡ octets)) }
    {
        self.inner_of()
    }

    #[tactic(auto, unfolding(crate::specs::Element::inner))]
    fn inner_of(&self) -> Result<View<'a>, Fault>
        ensures exact { Gives view result (inner (view self.now)) }
        ensures place { IfOk result (λ v. IsAt (v.start - self.now.start) v.content self.now.content) }
        ensures front { IfOk result (λ v. IsAt 0 v.octets self.now.content) }
        ensures tail { IfOk result (λ v. IsTail v.rest self.now.content) }
    {
        if !self.tag.constructed {
            return Err(Fault {
                at: self.at,
                kind: Kind::BadTag,
            });
        }
        part_of(self.content, self.start, self.depth + 1)
    }

    /// That no element stands behind this one in what encloses it: else its fault, or BadTag there.
    pub fn alone(&self) -> Result<(), Fault>
        ensures exact { result ≡ alone (view self.now) }

        // Exactly where nothing follows.
        ensures found { IfOk result (λ _. self.now.rest.now ≡ []) }
        ensures only { self.now.rest.now ≡ [] → result ≡ Ok tt }

        // An element that follows is not expected there.
        ensures behind { (t : Tag) (content octets more : List ℕ) → Stands self.now.depth t content octets
            → self.now.rest.now ≡ octets ++ more
            → result ≡ Err (record { at = self.now.at + length self.now.octets.now; kind = BadTag }) }
    {
        self.alone_of()
    }

    #[tactic(auto, unfolding(crate::specs::Element::alone))]
    fn alone_of(&self) -> Result<(), Fault>
        ensures { result ≡ alone (view self.now) }
    {
        if self.rest.is_empty() {
            return Ok(());
        }
        let behind = part_of(self.rest, self.at + self.octets.len() as u32, self.depth)?;
        Err(Fault {
            at: behind.at,
            kind: Kind::BadTag,
        })
    }

    /// The elements of a constructed content.
    pub fn parts(&self) -> Parts<'a>
        requires { IsTrue self.now.tag.constructed }
        ensures at { result.at ≡ self.now.start }
        ensures depth { result.depth ≡ self.now.depth }
        ensures left { result.left.now ≡ self.now.content.now }
        ensures lent { result.left ≡ self.now.content }
    {
        Parts {
            at: self.start,
            depth: self.depth,
            left: self.content,
        }
    }
}

impl<'a> Parts<'a> {
    #[tactic(auto, unfolding(crate::specs::Element::next_part))]
    fn next_of(&mut self) -> Result<Option<View<'a>>, Fault>
        ensures exact { Gives next_view result (next_part self.old.at (self.old.depth + 1) self.old.left.now) }
        ensures moved { IfOk result (λ o. IfSome o
            (λ v. IsBehind self.old.at self.old.left.now v.rest.now self.new.at self.new.left.now)) }
        ensures shorter { IfOk result (λ o. IfSome o (λ v. length self.new.left.now < length self.old.left.now)) }
        ensures ended { IfOk result (λ o. IfNone o (length self.old.left.now ≡ 0)) }
        ensures place { IfOk result (λ o. IfSome o (λ v. IsAt (v.start - self.old.at) v.content self.old.left)) }
        ensures front { IfOk result (λ o. IfSome o (λ v. IsAt 0 v.octets self.old.left)) }
        ensures tail { IfOk result (λ o. IsTail self.new.left self.old.left) }
        ensures depth { self.new.depth ≡ self.old.depth }
        ensures deeper { IfOk result (λ o. IfSome o (λ v. v.depth ≡ self.old.depth + 1)) }
        ensures stays { OnErr result ((self.new.at ≡ self.old.at) × (self.new.left.now ≡ self.old.left.now)) }
        ensures same { OnErr result (self.new.left ≡ self.old.left) }
        ensures ends { IfOk result (λ o. IfNone o ((self.new.at ≡ self.old.at) × (self.new.left ≡ self.old.left))) }
    {
        if self.left.is_empty() {
            return Ok(None);
        }
        let view = part_of(self.left, self.at, self.depth + 1)?;
        self.at += (self.left.len() - view.rest.len()) as u32;
        self.left = view.rest;
        Ok(Some(view))
    }

    /// The next part; `None` exactly at the end. An `Err` or `None` changes nothing.
    pub fn next(&mut self) -> Result<Option<View<'a>>, Fault>
        // Which element it is, or which fault comes first.
        ensures exact { Gives next_view result (next_part self.old.at (self.old.depth + 1) self.old.left.now) }

        // What is answered is spelled at the front of what was left, and what is spelled there is answered.
        ensures found { IfOk result (λ o. IfSome o
            (λ v. Standing self.old.at (self.old.depth + 1) (view v) self.old.left.now)) }
        ensures only { (t : Tag) (content octets rest : List ℕ) → Stands (self.old.depth + 1) t content octets
            → self.old.left.now ≡ octets ++ rest
            → IsOkAnd result (λ o. IsSomeAnd o (λ v. (v.tag ≡ t) × (v.content.now ≡ content) × (v.rest.now ≡ rest)
            × (v.octets.now ≡ octets))) }
        ensures lent { IfOk result (λ o. IfSome o (λ v. IsLentAt self.old.at (view v) self.old.left.now)) }

        // What is left afterwards, and where the slices lie.
        ensures moved { IfOk result (λ o. IfSome o
            (λ v. IsBehind self.old.at self.old.left.now v.rest.now self.new.at self.new.left.now)) }
        ensures shorter { IfOk result (λ o. IfSome o (λ v. length self.new.left.now < length self.old.left.now)) }
        ensures ended { IfOk result (λ o. IfNone o (length self.old.left.now ≡ 0)) }
        ensures place { IfOk result (λ o. IfSome o (λ v. IsAt (v.start - self.old.at) v.content self.old.left)) }
        ensures front { IfOk result (λ o. IfSome o (λ v. IsAt 0 v.octets self.old.left)) }
        ensures tail { IfOk result (λ o. IsTail self.new.left self.old.left) }
        ensures depth { self.new.depth ≡ self.old.depth }
        ensures deeper { IfOk result (λ o. IfSome o (λ v. v.depth ≡ self.old.depth + 1)) }
        ensures stays { OnErr result ((self.new.at ≡ self.old.at) × (self.new.left.now ≡ self.old.left.now)) }
        ensures same { OnErr result (self.new.left ≡ self.old.left) }
        ensures ends { IfOk result (λ o. IfNone o ((self.new.at ≡ self.old.at) × (self.new.left ≡ self.old.left))) }
    {
        self.next_of()
    }
}
