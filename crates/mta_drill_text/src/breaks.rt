//! In which transfers the link is broken.
//!
//! In the transfer of a message whose number has remainder 0 by 3 the link is broken once, right after the sender's
//! step Confirm 1; where it has remainder 1, right after the receiver's step Complete, before the sender gets EndAck.
//! Those of remainder 2 are not disturbed.

ghost use Rattle.std.specs.Prelude.{◌≡◌, ◌<◌, ◌+◌, ◌^◌};
ghost use Rattle.mta_drill_text.specs.Breaks.{break_of, breaks_up_to};

/// A place in the transfer of a message.
#[derive(Clone, Copy, Drop, PartialEq, Eq)]
pub enum Break {
    /// The sender knows that the receiver holds the first piece.
    BehindConfirm,
    /// The receiver has the message, and the sender does not know it.
    BehindComplete,
}

/// Where the link is broken in the transfer of a message; none where it is not.
pub fn break_of(message: u32) -> Option<Break>
    ensures { result ≡ break_of message }
{
    match message % 3 {
        0 => Some(Break::BehindConfirm),
        1 => Some(Break::BehindComplete),
        _ => None,
    }
}

// How many of the messages up to this one have a break.
fn breaks_up_to(message: u32) -> u32
    ensures { result ≡ breaks_up_to message }
{
    message - message / 3 - u32::from(message % 3 == 2)
}

/// How many of so many messages behind this one have a break.
#[tactic(auto, using(crate::proofs::Breaking::more_breaks))]
pub fn breaks_between(before: u32, count: u32) -> u32
    requires { before + count < 2 ^ 32 }
    ensures { result + breaks_up_to before ≡ breaks_up_to (before + count) }
{
    breaks_up_to(before + count) - breaks_up_to(before)
}
