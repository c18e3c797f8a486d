//! The rules of the two ends of a half lane (X.228 clause 7), as relations on what one half did on one link.
//!
//! `specs/Units.antt` has the units, `specs/Sending.antt` the sending end, `specs/Receiving.antt` the
//! receiving end. The functions here are laws over these definitions.
#![tactic(auto)]

ghost use Rattle.mta_transfer_rules.specs.Receiving.{RecvEnd, OwesNothing, on_link};
ghost use Rattle.mta_transfer_rules.specs.Examples.{SenderResumes, ReceiverResumes};

/// An end that has just joined a link owes nothing there.
pub fn a_new_link_owes_nothing()
    ensures { (e : RecvEnd) → OwesNothing (on_link e) }
{}

/// What the sending end of a resumed transfer does keeps the rules: Resume behind what is confirmed, the
/// pieces behind it, End in Ending.
pub fn a_sender_resumes()
    ensures { SenderResumes }
{}

/// And what the receiving end does: each piece durable before it is confirmed, the message before EndAck.
pub fn a_receiver_resumes()
    ensures { ReceiverResumes }
{}
