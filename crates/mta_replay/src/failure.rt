//! How an activity failed for its recipients.

ghost use Rattle.std.specs.Prelude.{◌≡◌, IfSome};
ghost use Rattle.mta_names.specs.Bounded.{IsCode};
ghost use Rattle.mta_machine.specs.Rules.{diagnostic_of, reason_of};
ghost use Rattle.mta_machine.specs.Machine.{failed, status_after};
ghost use Rattle.mta_histories.specs.History.{failure_of_kind};
ghost use Rattle.mta_replay.specs.Failures.{failure_of};

use mta_machine::Status;
use mta_procedures::{
    CONTENT_TOO_LONG, MAXIMUM_TIME_EXPIRED, PROTOCOL_VIOLATION, TRANSFER_FAILURE,
    UNABLE_TO_TRANSFER,
};

/// How an activity failed for its recipients.
#[derive(Clone, Copy, Drop)]
pub(crate) enum Failure {
    /// The peer found its octets too many.
    TooLong,
    /// The peer found another fault in them.
    Violated,
    /// The peer knew nothing of it in its end phase.
    Denied,
    /// It was given up.
    Expired,
}

/// The failure that a fault of this kind is (`is_fault_kind`).
pub(crate) fn failure_by(kind: u8) -> Failure
    ensures { failure_of result ≡ failure_of_kind kind }
{
    if kind == 11 {
        Failure::TooLong
    } else {
        Failure::Violated
    }
}

impl Failure {
    /// The reason that its reports tell (X.411, NonDeliveryReasonCode).
    pub(crate) fn reason(self) -> u32
        ensures exact { result ≡ reason_of (failure_of self) }
        ensures fits { IsCode result }
    {
        match self {
            Failure::TooLong => UNABLE_TO_TRANSFER,
            Failure::Violated => UNABLE_TO_TRANSFER,
            Failure::Denied => TRANSFER_FAILURE,
            Failure::Expired => TRANSFER_FAILURE,
        }
    }

    /// The diagnostic that its reports tell, where they tell one (X.411, NonDeliveryDiagnosticCode).
    pub(crate) fn diagnostic(self) -> Option<u32>
        ensures exact { result ≡ diagnostic_of (failure_of self) }
        ensures fits { IfSome result IsCode }
    {
        match self {
            Failure::TooLong => Some(CONTENT_TOO_LONG),
            Failure::Violated => Some(PROTOCOL_VIOLATION),
            Failure::Denied => None,
            Failure::Expired => Some(MAXIMUM_TIME_EXPIRED),
        }
    }

    /// What becomes of a recipient. A report that is not delivered goes no further.
    pub(crate) fn status(self, of_report: bool, moment: u64) -> Status
        ensures { result ≡ status_after of_report (failed (failure_of self)) moment }
    {
        if of_report {
            Status::Discarded(moment)
        } else {
            Status::Reported {
                moment,
                reason: self.reason(),
                diagnostic: self.diagnostic(),
            }
        }
    }
}
