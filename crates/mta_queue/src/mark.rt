//! The recipients of an item: where the route of each leads, and whether he waits. No memory is taken for an item of
//! one, as most are, whose place has a number of 32 bits.

ghost use Rattle.std.specs.Prelude.{◌≡◌, ◌≢◌, ◌++◌, ◌∷◌, [], false, length, IfOk, IfSome, OnOk, OnErr};
ghost use Rattle.std.specs.Prelude.{slice_get};
ghost use Rattle.std.specs.Option.{option_copied};
ghost use Rattle.mta_queue.specs.declared.mark.Mark.{Mark as MarkValue};
ghost use Rattle.mta_queue.specs.Held.{marks_of};
ghost use Rattle.mta_queue.specs.Marks.{mark_of, set_waits};

use mta_ber::Memory;
use std::alloc::Global;
use std::marker::Model;

/// A recipient of an item.
#[derive(Clone, Copy)]
pub struct Mark {
    /// The place among the peers of the one to whom the route leads.
    pub route: Option<usize>,
    /// Whether he waits.
    pub waits: bool,
}

// How the recipients of an item are held, in 16 octets.
#[derive(Drop)]
enum Held {
    // There are none.
    Nobody,
    // There is one, who does not wait. This is the place of the one to whom his route leads.
    Resting(Option<u32>),
    // There is one, who waits.
    Waiting(Option<u32>),
    // There are more, or one whose place has no such number.
    Many(Box<Vec<Mark>>),
}

// A place by a number of 32 bits, where it has one.
fn short_of(route: Option<usize>) -> Option<Option<u32>>
    ensures { IfSome result (λ short. short ≡ route) }
{
    match route {
        None => Some(None),
        Some(place) => Some(Some(u32::try_from(place).ok()?)),
    }
}

// One recipient, whose place has a number of 32 bits.
fn one_short(route: Option<u32>, waits: bool) -> Held
    ensures { marks_of result ≡ record { route = route; waits = waits } ∷ [] }
{
    if waits {
        Held::Waiting(route)
    } else {
        Held::Resting(route)
    }
}

// A recipient by the short number of his place.
fn mark_with(route: Option<u32>, waits: bool) -> Mark
    ensures { result ≡ record { route = route; waits = waits } }
{
    let route = match route {
        None => None,
        Some(place) => Some(place as usize),
    };
    Mark { route, waits }
}

// These recipients in a list.
fn many(alloc: Global, marks: Vec<Mark>) -> Result<Held, Memory>
    ensures { IfOk result (λ h. marks_of h ≡ marks.items) }
{
    match Box::new(alloc, marks) {
        Ok(marks) => Ok(Held::Many(marks)),
        Err(_) => Err(Memory),
    }
}

// One recipient.
fn one(alloc: Global, mark: Mark) -> Result<Held, Memory>
    ensures { IfOk result (λ h. marks_of h ≡ mark ∷ []) }
{
    if let Some(route) = short_of(mark.route) {
        return Ok(one_short(route, mark.waits));
    }
    let mut marks = Vec::with_capacity(alloc, 1)?;
    marks.push(mark)?;
    many(alloc, marks)
}

// Two recipients.
fn both(alloc: Global, first: Mark, second: Mark) -> Result<Held, Memory>
    ensures { IfOk result (λ h. marks_of h ≡ first ∷ second ∷ []) }
{
    let mut marks = Vec::with_capacity(alloc, 2)?;
    marks.push(first)?;
    marks.push(second)?;
    many(alloc, marks)
}

impl Held {
    // How many they are.
    fn len(&self) -> usize
        ensures { result ≡ length (marks_of self.now) }
    {
        match self {
            Held::Nobody => 0,
            Held::Resting(_) => 1,
            Held::Waiting(_) => 1,
            Held::Many(marks) => marks.len(),
        }
    }

    // The recipient at a place, from 0.
    fn get(&self, place: usize) -> Option<Mark>
        ensures { result ≡ slice_get (marks_of self.now) place }
    {
        match self {
            Held::Nobody => None,
            Held::Resting(route) => {
                if place == 0 {
                    Some(mark_with(*route, false))
                } else {
                    None
                }
            }
            Held::Waiting(route) => {
                if place == 0 {
                    Some(mark_with(*route, true))
                } else {
                    None
                }
            }
            Held::Many(marks) => marks.get(place).copied(),
        }
    }

    // A recipient more.
    fn push(&mut self, alloc: Global, mark: Mark) -> Result<(), Memory>
        ensures ok { OnOk result (marks_of self.new ≡ marks_of self.old ++ mark ∷ []) }
        ensures err { OnErr result (marks_of self.new ≡ marks_of self.old) }
    {
        match self {
            Held::Nobody => *self = one(alloc, mark)?,
            Held::Resting(route) => *self = both(alloc, mark_with(*route, false), mark)?,
            Held::Waiting(route) => *self = both(alloc, mark_with(*route, true), mark)?,
            Held::Many(marks) => marks.push(mark)?,
        }
        Ok(())
    }

    // Whether the recipient of this number waits is put down.
    #[tactic(auto, using(crate::proofs::Held::set_one))]
    fn set(&mut self, recipient: u32, waits: bool)
        requires { recipient ≢ 0 }
        ensures { marks_of self.new ≡ set_waits (marks_of self.old) recipient waits }
    {
        match self {
            Held::Nobody => {}
            Held::Resting(route) => {
                if recipient == 1 {
                    *self = one_short(*route, waits);
                }
            }
            Held::Waiting(route) => {
                if recipient == 1 {
                    *self = one_short(*route, waits);
                }
            }
            Held::Many(marks) => {
                if let Some(mark) = marks.get_mut(recipient as usize - 1) {
                    mark.waits = waits;
                }
            }
        }
    }
}

/// The recipients of an item, numbered from 1.
#[derive(Drop)]
pub struct Marks {
    alloc: Global,
    held: Held,
}

impl Model for Marks {
    ghost use Rattle.std.specs.Prelude.{List};
    ghost use Rattle.mta_queue.specs.declared.mark.Mark.{Mark};
    ghost use Rattle.mta_queue.specs.Held.{marks_of};

    ghost Value = { List Mark };

    ghost view = { λ m. marks_of m.held };
}

impl Marks {
    /// No recipients, which takes no memory.
    pub fn new(alloc: Global) -> Marks
        ensures { result ≡ [] }
    {
        Marks {
            alloc,
            held: Held::Nobody,
        }
    }

    /// A recipient more, who does not wait.
    pub fn push(&mut self, route: Option<usize>) -> Result<(), Memory>
        ensures ok { OnOk result (self.new ≡ self.old ++ record { route = route; waits = false } ∷ []) }
        ensures err { OnErr result (self.new ≡ self.old) }
    {
        let mark = Mark {
            route,
            waits: false,
        };
        self.held.push(self.alloc, mark)
    }

    /// How many they are.
    pub fn len(&self) -> usize
        ensures { result ≡ length self.now }
    {
        self.held.len()
    }

    /// The recipient of this number.
    pub fn get(&self, recipient: u32) -> Option<Mark>
        ensures { result ≡ mark_of self.now recipient }
    {
        if recipient == 0 {
            return None;
        }
        self.held.get(recipient as usize - 1)
    }

    /// Whether the recipient of this number waits is put down.
    pub(crate) fn set(&mut self, recipient: u32, waits: bool)
        ensures { self.new ≡ set_waits self.old recipient waits }
    {
        if recipient == 0 {
            return;
        }
        self.held.set(recipient, waits);
    }
}
