//! The two ends of a half lane and the links between them, and what holds of every run of them.
//!
//! An end is a sending or a receiving half that keeps the rules of its end (X.228 clause 7). `specs/World.antt`
//! has the world, `specs/Steps.antt` what happens in it, `specs/Agrees.antt` what the ends agree on. No
//! call of a program stands here: the functions are laws over these definitions.
#![tactic(auto)]

ghost use Rattle.mta_world.specs.Agrees.{EndsAgree, AMessageArrives};

/// Whatever breaks, is lost or is taken late, the messages that the receiving end completed are those whose
/// activities the sending end settled as sent, in order, and perhaps the one that it is ending.
pub fn ends_agree()
    ensures { EndsAgree }
{}

/// The rules allow a transfer: there is a run in which a message is completed and settled as sent.
pub fn a_message_arrives()
    ensures { AMessageArrives }
{}
