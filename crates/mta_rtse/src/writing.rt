//! Writing protocol data units in their canonical octets. After want of memory a writer is as it was: each unit is
//! written into a writer of its own and then put at once.

ghost use Rattle.std.specs.Prelude.{◌≡◌, ◌<◌, OnOk, OnErr, Option};
ghost use Rattle.std.specs.Option.{option_copied};
ghost use Rattle.mta_ber.specs.Canon.{IsTag, appended, element, optional, primitive, constructed};
ghost use Rattle.mta_ber.specs.Contents.{canon_int};
ghost use Rattle.mta_rtse.specs.Canon.{canon_reference, canon_bind, canon_null, canon_request_data};
ghost use Rattle.mta_rtse.specs.Canon.{canon_answer_data, canon_unless, canon_flag, canon_rtorq};
ghost use Rattle.mta_rtse.specs.Canon.{canon_rtoac, canon_reason, HasIdentifier};
ghost use Rattle.mta_rtse.specs.Spelling.{request_of};
ghost use Rattle.mta_records.specs.Reference.{IsIdentifier};

use crate::request::DEFAULT_WINDOW;
use crate::types::{Answer, Request};
use mta_ber::{Memory, Tag, Word, Writer, put_int, put_utc};
use mta_records::Reference;

fn primitive_tag(class: u8, number: u32) -> Tag
    ensures { result ≡ primitive class number }
{
    Tag {
        class,
        constructed: false,
        number,
    }
}

fn constructed_tag(class: u8, number: u32) -> Tag
    ensures { result ≡ constructed class number }
{
    Tag {
        class,
        constructed: true,
        number,
    }
}

fn put_optional(w: &mut Writer, octets: Option<&[u8]>) -> Result<(), Memory>
    ensures exact { OnOk result
        (w.new ≡ appended w.old (optional (element (primitive 2 0)) (option_copied octets.entry))) }
    ensures err { OnErr result (w.new ≡ w.old) }
{
    match octets {
        None => Ok(()),
        Some(octets) => w.put(primitive_tag(2, 0), octets),
    }
}

/// A session connection identifier under a tag.
#[tactic(auto, unfolding(crate::specs::Canon::canon_reference))]
pub fn put_reference(w: &mut Writer, tag: Tag, reference: &Reference) -> Result<(), Memory>
    requires { IsTag tag }
    ensures exact { OnOk result (w.new ≡ appended w.old (canon_reference tag reference.now)) }
    ensures err { OnErr result (w.new ≡ w.old) }
    ensures fits { OnOk result (IsIdentifier reference.now) }
{
    let mut inside = Writer::new(w.alloc());
    inside.put(primitive_tag(0, 4), reference.calling())?;
    put_utc(&mut inside, primitive_tag(0, 23), reference.common())?;
    put_optional(&mut inside, reference.additional())?;
    w.put(tag, inside.as_slice())
}

#[tactic(auto, unfolding(crate::specs::Canon::canon_bind))]
fn put_bind(w: &mut Writer, name: &[u8], password: &[u8]) -> Result<(), Memory>
    ensures exact { OnOk result (w.new ≡ appended w.old (canon_bind name.now password.now)) }
    ensures err { OnErr result (w.new ≡ w.old) }
{
    let mut credentials = Writer::new(w.alloc());
    credentials.put(primitive_tag(0, 22), password)?;
    let mut bind = Writer::new(w.alloc());
    bind.put(primitive_tag(2, 0), name)?;
    bind.put(constructed_tag(2, 1), credentials.as_slice())?;
    let mut inside = Writer::new(w.alloc());
    inside.put(constructed_tag(2, 1), bind.as_slice())?;
    w.put(constructed_tag(2, 0), inside.as_slice())
}

#[tactic(auto, unfolding(crate::specs::Canon::canon_null))]
fn put_null(w: &mut Writer) -> Result<(), Memory>
    ensures exact { OnOk result (w.new ≡ appended w.old canon_null) }
    ensures err { OnErr result (w.new ≡ w.old) }
{
    let mut inside = Writer::new(w.alloc());
    inside.put(primitive_tag(0, 5), &[])?;
    w.put(constructed_tag(2, 0), inside.as_slice())
}

fn put_request_data(w: &mut Writer, request: &Request) -> Result<(), Memory>
    ensures exact { OnOk result (w.new ≡ appended w.old (canon_request_data request.now)) }
    ensures err { OnErr result (w.new ≡ w.old) }
    ensures fits { OnOk result (HasIdentifier request.now) }
{
    match request {
        Request::Null => put_null(w),
        Request::Bind { name, password } => put_bind(w, name.as_slice(), password.as_slice()),
        Request::Recover(reference) => put_reference(w, constructed_tag(2, 1), reference),
    }
}

fn put_answer_data(w: &mut Writer, answer: &Answer) -> Result<(), Memory>
    ensures exact { OnOk result (w.new ≡ appended w.old (canon_answer_data answer.now)) }
    ensures err { OnErr result (w.new ≡ w.old) }
    ensures fits { OnOk result (HasIdentifier (request_of answer.now)) }
{
    match answer {
        Answer::Bind { name, password } => put_bind(w, name.as_slice(), password.as_slice()),
        Answer::Recover(reference) => put_reference(w, constructed_tag(2, 1), reference),
    }
}

/// A number under a context tag, where it is not its default.
fn put_unless(w: &mut Writer, default: u32, number: u32, n: u32) -> Result<(), Memory>
    requires { number < 31 }
    ensures exact { OnOk result (w.new ≡ appended w.old (canon_unless default number n)) }
    ensures err { OnErr result (w.new ≡ w.old) }
{
    if n == default {
        return Ok(());
    }
    put_int(w, primitive_tag(2, number), n as i64)
}

fn put_flag(w: &mut Writer, number: u32, flag: bool) -> Result<(), Memory>
    requires { number < 31 }
    ensures exact { OnOk result (w.new ≡ appended w.old (canon_flag number flag)) }
    ensures err { OnErr result (w.new ≡ w.old) }
{
    if !flag {
        return Ok(());
    }
    put_int(w, primitive_tag(2, number), 1)
}

/// RTORQ.
#[tactic(auto, unfolding(crate::specs::Canon::canon_rtorq))]
pub fn put_request(
    w: &mut Writer,
    checkpoint: u32,
    window: u32,
    twa: bool,
    request: &Request,
) -> Result<(), Memory>
    ensures exact { OnOk result (w.new ≡ appended w.old (canon_rtorq checkpoint window twa request.now)) }
    ensures err { OnErr result (w.new ≡ w.old) }
    ensures fits { OnOk result (HasIdentifier request.now) }
{
    let mut data = Writer::new(w.alloc());
    put_request_data(&mut data, request)?;
    let mut inside = Writer::new(w.alloc());
    put_unless(&mut inside, 0, 0, checkpoint)?;
    put_unless(&mut inside, DEFAULT_WINDOW, 1, window)?;
    put_flag(&mut inside, 2, twa)?;
    inside.put(constructed_tag(2, 3), data.as_slice())?;
    w.put(constructed_tag(2, 16), inside.as_slice())
}

/// RTOAC.
#[tactic(auto, unfolding(crate::specs::Canon::canon_rtoac))]
pub fn put_answer(
    w: &mut Writer,
    checkpoint: u32,
    window: u32,
    answer: &Answer,
) -> Result<(), Memory>
    ensures exact { OnOk result (w.new ≡ appended w.old (canon_rtoac checkpoint window answer.now)) }
    ensures err { OnErr result (w.new ≡ w.old) }
    ensures fits { OnOk result (HasIdentifier (request_of answer.now)) }
{
    let mut data = Writer::new(w.alloc());
    put_answer_data(&mut data, answer)?;
    let mut inside = Writer::new(w.alloc());
    put_unless(&mut inside, 0, 0, checkpoint)?;
    put_unless(&mut inside, DEFAULT_WINDOW, 1, window)?;
    inside.put(constructed_tag(2, 2), data.as_slice())?;
    w.put(constructed_tag(2, 17), inside.as_slice())
}

#[tactic(auto, unfolding(crate::specs::Canon::canon_reason))]
fn put_reason(w: &mut Writer, number: u32, reason: u32) -> Result<(), Memory>
    requires { number < 31 }
    ensures exact { OnOk result (w.new ≡ appended w.old (canon_reason number reason)) }
    ensures err { OnErr result (w.new ≡ w.old) }
{
    let mut inside = Writer::new(w.alloc());
    put_int(&mut inside, primitive_tag(2, 0), reason as i64)?;
    w.put(constructed_tag(2, number), inside.as_slice())
}

/// RTORJ of a reason.
pub fn put_refusal(w: &mut Writer, reason: u32) -> Result<(), Memory>
    ensures exact { OnOk result (w.new ≡ appended w.old (canon_reason 18 reason)) }
    ensures err { OnErr result (w.new ≡ w.old) }
{
    put_reason(w, 18, reason)
}

/// RTAB of a reason.
pub fn put_abort(w: &mut Writer, reason: u32) -> Result<(), Memory>
    ensures exact { OnOk result (w.new ≡ appended w.old (canon_reason 22 reason)) }
    ensures err { OnErr result (w.new ≡ w.old) }
{
    put_reason(w, 22, reason)
}
