//! Laws of messages, probes and octets.

ghost use Rattle.mta_envelope.specs.Laws.{MessagesAreReadAgain, ProbesAreReadAgain, ReadEnvelopesAreKept};
ghost use Rattle.mta_envelope.specs.Laws.{ReadMessagesAreReadAgain, ReadProbesAreReadAgain, NoMessageBeginsAnother};
ghost use Rattle.mta_envelope.specs.Laws.{NoProbeBeginsAnother};

/// A message that is written is read again, whatever follows it. What is kept unread stands in the level of its place.
pub fn messages_are_read_again()
    ensures { MessagesAreReadAgain }
{}

/// A probe that is written is read again, whatever follows it. What is kept unread stands in the level of its place.
pub fn probes_are_read_again()
    ensures { ProbesAreReadAgain }
{}

/// What an envelope that was read keeps unread stands in the level of its place.
pub fn envelopes_that_were_read_are_kept()
    ensures { ReadEnvelopesAreKept }
{}

/// A message or a probe that was read is written so that it is read again, whatever follows it.
pub fn what_was_read_is_read_again()
    ensures messages { ReadMessagesAreReadAgain }
    ensures probes { ReadProbesAreReadAgain }
{}

/// No spelling of a message or a probe begins another one, and each is the spelling of one value.
pub fn no_message_begins_another()
    ensures messages { NoMessageBeginsAnother }
    ensures probes { NoProbeBeginsAnother }
{}
