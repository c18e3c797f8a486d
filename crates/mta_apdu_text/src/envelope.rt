//! The lines of messages and probes.

ghost use Rattle.std.specs.Prelude.{◌≡◌, ◌++◌, OnOk, codes};
ghost use Rattle.mta_envelope.specs.Messages.{message_value};
ghost use Rattle.mta_apdu_text.specs.Envelopes.{priority_text, priority_line, recipient_lines, front_lines};
ghost use Rattle.mta_apdu_text.specs.Envelopes.{back_lines, message_text, probe_text, time_lines};

use crate::lines::{
    put_content_id_line, put_content_line, put_content_type_line, put_extension_lines, put_id_line,
    put_indicators_line, put_length_line, put_moment_line, put_name_line, put_recipient_line,
    put_size_line, put_trace_lines,
};
use mta_ber::{Memory, Octets};
use mta_envelope::{EnvelopeFields, Message, Priority, Probe};
use mta_envelope_recipient::Recipient;
use std::alloc::Global;

fn put_priority(out: &mut Octets, priority: Priority) -> Result<(), Memory>
    ensures { OnOk result (out.new ≡ out.old ++ priority_text priority) }
{
    match priority {
        Priority::Normal => out.extend(b"normal"),
        Priority::NonUrgent => out.extend(b"non-urgent"),
        Priority::Urgent => out.extend(b"urgent"),
    }
}

#[tactic(auto, unfolding(crate::specs::Envelopes::priority_line))]
fn put_priority_line(out: &mut Octets, priority: Priority) -> Result<(), Memory>
    ensures { OnOk result (out.new ≡ out.old ++ priority_line priority) }
{
    out.extend(b"priority ")?;
    put_priority(out, priority)?;
    out.extend(b"\n")
}

#[tactic(auto, unfolding(crate::specs::Envelopes::recipient_lines))]
fn put_recipient_lines(
    alloc: Global,
    out: &mut Octets,
    recipients: &[Recipient],
) -> Result<(), Memory>
    ensures { OnOk result (out.new ≡ out.old ++ recipient_lines recipients.now) }
{
    for recipient in recipients {
        let fields = recipient.fields();
        put_recipient_line(alloc, out, fields.number, fields.indicators, &fields.name)?;
    }
    Ok(())
}

/// What the text of an envelope begins with: identifier, originator, content type and content identifier.
#[tactic(auto, unfolding(crate::specs::Envelopes::front_lines))]
fn put_front_lines(
    alloc: Global,
    out: &mut Octets,
    word: &[u8],
    envelope: &EnvelopeFields,
) -> Result<(), Memory>
    ensures { OnOk result (out.new ≡ out.old ++ front_lines word.now envelope.now) }
{
    put_id_line(out, word, &envelope.id)?;
    put_name_line(alloc, out, b"originator ", &envelope.originator)?;
    put_content_type_line(out, &envelope.content_kind)?;
    put_content_id_line(out, &envelope.content_id)
}

/// What it ends with: the sizes of what is kept unread, trace, extensions and recipients.
#[tactic(auto, unfolding(crate::specs::Envelopes::back_lines))]
fn put_back_lines(alloc: Global, out: &mut Octets, envelope: &EnvelopeFields) -> Result<(), Memory>
    ensures { OnOk result (out.new ≡ out.old ++ back_lines envelope.now) }
{
    put_size_line(out, b"types ", &envelope.eits)?;
    put_size_line(out, b"bilateral ", &envelope.bilateral)?;
    put_trace_lines(alloc, out, envelope.trace.as_slice())?;
    put_extension_lines(out, envelope.extensions.as_slice())?;
    put_recipient_lines(alloc, out, envelope.recipients.as_slice())
}

/// The deferred delivery time, and the latest one of extension 5.
#[tactic(auto, unfolding(crate::specs::Envelopes::time_lines))]
fn put_time_lines(alloc: Global, out: &mut Octets, envelope: &EnvelopeFields) -> Result<(), Memory>
    ensures { OnOk result (out.new ≡ out.old ++ time_lines envelope.now) }
{
    put_moment_line(alloc, out, b"deferred ", envelope.deferral)?;
    put_moment_line(alloc, out, b"latest ", envelope.latest)
}

/// The lines of a message.
#[tactic(auto, unfolding(crate::specs::Envelopes::message_text))]
pub fn put_message(alloc: Global, out: &mut Octets, message: &Message) -> Result<(), Memory>
    ensures { OnOk result (out.new ≡ out.old ++ message_text (message_value message.now)) }
{
    let envelope = message.envelope.fields();
    put_front_lines(alloc, out, b"message ", envelope)?;
    put_priority_line(out, envelope.priority)?;
    put_indicators_line(out, envelope.indicators)?;
    put_time_lines(alloc, out, envelope)?;
    put_back_lines(alloc, out, envelope)?;
    put_content_line(out, message.content.as_slice())
}

/// The lines of a probe.
#[tactic(auto, unfolding(crate::specs::Envelopes::probe_text))]
pub fn put_probe(alloc: Global, out: &mut Octets, probe: &Probe) -> Result<(), Memory>
    ensures { OnOk result (out.new ≡ out.old ++ probe_text probe.now.envelope) }
{
    let envelope = probe.envelope.fields();
    put_front_lines(alloc, out, b"probe ", envelope)?;
    put_indicators_line(out, envelope.indicators)?;
    put_time_lines(alloc, out, envelope)?;
    put_length_line(out, envelope.length)?;
    put_back_lines(alloc, out, envelope)
}
