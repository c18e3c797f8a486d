//! Deliveries that are reported.

ghost use Rattle.std.specs.Prelude.{◌≡◌, OnOk, OnErr, unwrap_or};
ghost use Rattle.mta_ber.specs.Canon.{appended};
ghost use Rattle.mta_ber.specs.Parts.{Leaves, Reads};
ghost use Rattle.mta_ber.specs.Seen.{view};
ghost use Rattle.mta_report_recipient.specs.Deliveries.{delivery_part_of, delivery_held, delivery_part_in};
ghost use Rattle.mta_report_recipient.specs.Deliveries.{delivery_step, delivery_from, delivery_in, canonical_user};
ghost use Rattle.mta_report_recipient.specs.Deliveries.{canonical_delivery};

use crate::moment::{Moment, read_moment};
use crate::outcome::Outcome;
use mta_ber::{
    Components, Kind, Memory, ReadFault, Tag, View, Writer, bad, is_primitive_tag, is_tag_of,
    put_int, put_utc, take_parts, take_required,
};
use mta_names::{Code, constructed, primitive, put_around, read_code};
use std::alloc::Global;

/// The components.
#[derive(Clone, Copy)]
pub enum DeliveryPart {
    Moment,
    User,
}

/// The components so far.
#[derive(Drop)]
pub struct DeliveryParts {
    pub moment: Option<Moment>,
    pub user: Option<Code>,
}

fn part_of(tag: Tag) -> Option<DeliveryPart>
    ensures { result ≡ delivery_part_of tag }
{
    if is_tag_of(tag, 2, 0) {
        Some(DeliveryPart::Moment)
    } else if is_primitive_tag(tag, 2, 1) {
        Some(DeliveryPart::User)
    } else {
        None
    }
}

impl DeliveryParts {
    /// Whether a component is there already.
    fn is_held(&self, place: DeliveryPart) -> bool
        ensures { result ≡ delivery_held place self.now }
    {
        match place {
            DeliveryPart::Moment => self.moment.is_some(),
            DeliveryPart::User => self.user.is_some(),
        }
    }

    fn put(&mut self, place: DeliveryPart, part: &View) -> Result<(), ReadFault>
        ensures { Leaves result self.new (delivery_part_in place self.old (view part.now)) }
    {
        match place {
            DeliveryPart::Moment => self.moment = Some(read_moment(part)?),
            DeliveryPart::User => self.user = Some(read_code(part)?),
        }
        Ok(())
    }
}

impl Components for DeliveryParts {
    ghost step = { delivery_step };

    #[tactic(auto, unfolding(crate::specs::Deliveries::delivery_step))]
    fn take(&mut self, _alloc: Global, part: &View) -> Result<(), ReadFault> {
        match part_of(part.tag) {
            None => bad(part.at, Kind::BadTag),
            Some(place) => {
                if self.is_held(place) {
                    return bad(part.at, Kind::Twice);
                }
                self.put(place, part)
            }
        }
    }
}

/// A type of user, 0 where it is absent.
fn user_or_0(user: Option<Code>) -> Code
    ensures { result ≡ unwrap_or user 0 }
{
    match user {
        Some(user) => user,
        None => Code::new(0),
    }
}

fn finished(parts: DeliveryParts, at: u32) -> Result<Outcome, ReadFault>
    ensures { Reads result (delivery_from parts at) }
{
    let DeliveryParts { moment, user } = parts;
    let moment = take_required(moment, at)?;
    Ok(Outcome::Delivery {
        moment,
        user: user_or_0(user),
    })
}

/// A delivery, its components in any order.
#[tactic(auto, unfolding(crate::specs::Deliveries::delivery_in))]
pub fn read_delivery(alloc: Global, whole: &View) -> Result<Outcome, ReadFault>
    ensures { Reads result (delivery_in (view whole.now)) }
{
    if !whole.tag.constructed {
        return bad(whole.at, Kind::BadTag);
    }
    let mut parts = DeliveryParts {
        moment: None,
        user: None,
    };
    take_parts(alloc, whole, &mut parts)?;
    finished(parts, whole.at)
}

/// Appends a type of user, but for public.
#[tactic(auto, using(crate::proofs::Written::appended_none))]
fn put_user(w: &mut Writer, user: Code) -> Result<(), Memory>
    ensures { OnOk result (w.new ≡ appended w.old (canonical_user user)) }
{
    let number = user.number();
    if number == 0 {
        return Ok(());
    }
    put_int(w, primitive(2, 1), number as i64)
}

/// Appends a delivery under `[0]`.
pub fn put_delivery(w: &mut Writer, moment: Moment, user: Code) -> Result<(), Memory>
    ensures ok { OnOk result (w.new ≡ appended w.old (canonical_delivery moment user)) }
    ensures err { OnErr result (w.new ≡ w.old) }
{
    let mut inside = Writer::new(w.alloc());
    put_utc(&mut inside, primitive(2, 0), moment.seconds())?;
    put_user(&mut inside, user)?;
    put_around(w, constructed(2, 0), &inside)
}
