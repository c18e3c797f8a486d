//! What is said of a half, and how it is found.

ghost use Rattle.std.specs.Prelude.{◌≡◌, ◌≤◌, ◌<◌, ◌+◌, ◌++◌, ◌^◌, ◌==◌, ◌||◌, length};
ghost use Rattle.mta_audit_run.specs.Halves.{agrees, common, verdict_by, verdict_of};

use crate::activity::Activity;
use crate::half::Half;

/// What is said of a half.
#[derive(Clone, Copy)]
pub enum Verdict {
    /// What was completed is what was sent, or that and the activity in Ending.
    Agrees,
    /// It is not, and this is the first position, from 1, at which the octets differ or one list has ended.
    Differs { at: u64 },
}

// How many activities at the front of both have the same octets.
fn common(one: &[Activity], other: &[Activity]) -> usize
    ensures exact { result ≡ common one.now other.now }
    ensures one { result ≤ length one.now }
    ensures other { result ≤ length other.now }
{
    let count = one.len().min(other.len());
    for place in 0..count {
        if !one[place].same(&other[place]) {
            return place;
        }
    }
    count
}

// How many of what was sent, with the one in Ending behind it, were completed alike.
fn alike(half: &Half) -> usize
    ensures exact { result ≡ common (half.now.sent ++ half.now.ending) half.now.completed }
    ensures fits { result < 2 ^ 63 }
{
    let sent = half.sent.as_slice();
    let completed = half.completed.as_slice();
    let count = common(sent, completed);
    if count < sent.len() {
        return count;
    }
    count + common(half.ending.as_slice(), &completed[count..])
}

// Whether so many are as many as were sent, or as those and the ones in Ending.
fn is_all(same: usize, sent: usize, ending: usize) -> bool
    ensures { result ≡ ((same == sent) || (same == (sent + ending))) }
{
    same == sent || (sent <= same && same - sent == ending)
}

fn verdict_by(same: usize, sent: usize, ending: usize, completed: usize) -> Verdict
    requires { same < 2 ^ 63 }
    ensures { result ≡ verdict_by same sent ending completed }
{
    if same == completed && is_all(same, sent, ending) {
        return Verdict::Agrees;
    }
    Verdict::Differs {
        at: same as u64 + 1,
    }
}

/// What is said of a half.
pub fn verdict_of(half: &Half) -> Verdict
    ensures { result ≡ verdict_of half.now }
{
    verdict_by(
        alike(half),
        half.sent.len(),
        half.ending.len(),
        half.completed.len(),
    )
}

/// Whether it agrees.
pub fn agrees(verdict: Verdict) -> bool
    ensures { result ≡ agrees verdict }
{
    match verdict {
        Verdict::Agrees => true,
        Verdict::Differs { .. } => false,
    }
}
