//! What came of a message for a recipient.

ghost use Rattle.std.specs.Prelude.{◌≡◌, OnOk, OnErr};
ghost use Rattle.mta_ber.specs.Canon.{appended};
ghost use Rattle.mta_ber.specs.Parts.{Reads};
ghost use Rattle.mta_ber.specs.Seen.{view};
ghost use Rattle.mta_ber.specs.Element.{explicit};
ghost use Rattle.mta_report_recipient.specs.Outcomes.{outcome_choice, canonical_choice, canonical_outcome};

use crate::delivery::{put_delivery, read_delivery};
use crate::failure::{put_failure, read_failure};
use crate::moment::Moment;
use mta_ber::{Kind, Memory, ReadFault, View, Writer, bad, is_tag_of};
use mta_names::{Code, constructed, put_around};
use std::alloc::Global;

/// What came of a message for a recipient (X.411, ReportType): numbers are 0 to 32,767, and a type of user of 0 is
/// public. It holds no other value.
#[derive(Drop)]
pub enum Outcome {
    Delivery {
        moment: Moment,
        user: Code,
    },
    NonDelivery {
        reason: Code,
        diagnostic: Option<Code>,
    },
}

#[tactic(auto, unfolding(crate::specs::Outcomes::outcome_choice))]
fn read_choice(alloc: Global, part: &View) -> Result<Outcome, ReadFault>
    ensures { Reads result (outcome_choice (view part.now)) }
{
    if is_tag_of(part.tag, 2, 0) {
        read_delivery(alloc, part)
    } else if is_tag_of(part.tag, 2, 1) {
        read_failure(alloc, part)
    } else {
        bad(part.at, Kind::BadTag)
    }
}

/// What came of a message, inside its explicit tag.
pub fn read_outcome(alloc: Global, part: &View) -> Result<Outcome, ReadFault>
    ensures { Reads result (explicit outcome_choice (view part.now)) }
{
    let inside = part.inner()?;
    let outcome = read_choice(alloc, &inside)?;
    inside.alone()?;
    Ok(outcome)
}

fn put_choice(w: &mut Writer, outcome: &Outcome) -> Result<(), Memory>
    ensures { OnOk result (w.new ≡ appended w.old (canonical_choice outcome.now)) }
{
    match outcome {
        Outcome::Delivery { moment, user } => put_delivery(w, *moment, *user),
        Outcome::NonDelivery { reason, diagnostic } => put_failure(w, *reason, *diagnostic),
    }
}

/// Appends what came of a message, in its explicit tag `[1]`.
pub fn put_outcome(w: &mut Writer, outcome: &Outcome) -> Result<(), Memory>
    ensures ok { OnOk result (w.new ≡ appended w.old (canonical_outcome outcome.now)) }
    ensures err { OnErr result (w.new ≡ w.old) }
{
    let mut inside = Writer::new(w.alloc());
    put_choice(&mut inside, outcome)?;
    put_around(w, constructed(2, 1), &inside)
}
