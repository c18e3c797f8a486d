//! To whom a report goes.

ghost use Rattle.std.specs.Prelude.{◌≡◌, List, ℕ, map, reverse};
ghost use Rattle.std.specs.List.{find};
ghost use Rattle.std.specs.Option.{option_copied};
ghost use Rattle.mta_tables.specs.Hops.{list_named};
ghost use Rattle.mta_tables.specs.Reading.{is_of_list};
ghost use Rattle.mta_procedures.specs.Histories.{name_of};
ghost use Rattle.mta_procedures.specs.Walks.{walk, report_walk};

use mta_envelope::EnvelopeFields;
use mta_fields::Expansion;
use mta_names::OrName;
use mta_tables::{MailList, Tables};

fn is_of_list(list: &MailList, name: &OrName) -> bool
    ensures { result ≡ is_of_list name.now list.now }
{
    list.name.same(name)
}

fn list_among<'a>(lists: &'a [MailList], name: &OrName) -> Option<&'a MailList>
    ensures { option_copied result ≡ find (is_of_list name.now) lists.now }
{
    lists.iter().find(|list| is_of_list(list, name))
}

/// The list of a name.
pub fn list_named<'a>(tables: &'a Tables, name: &OrName) -> Option<&'a MailList>
    ensures { option_copied result ≡ list_named tables.now name.now }
{
    list_among(tables.lists(), name)
}

/// From the list that was expanded last to the originator: a name that is no list here is it, a list that keeps
/// reports ends the walk, and one that sends them back is passed over.
#[tactic(auto, using(crate::proofs::Digits::last_first))]
fn walk<'a>(tables: &Tables, originator: &'a OrName, history: &'a [Expansion]) -> Option<&'a OrName>
    ensures { option_copied result ≡ walk tables.now originator.now (reverse (map name_of history.now)) }
{
    match history {
        [] => Some(originator),
        [before @ .., last] => {
            let name = &last.fields().name;
            match list_among(tables.lists(), name) {
                None => Some(name),
                Some(list) => {
                    if list.back {
                        walk(tables, originator, before)
                    } else {
                        None
                    }
                }
            }
        }
    }
}

/// To whom a report on this message or probe goes.
#[tactic(auto, unfolding(mta_procedures::specs::Walks::report_walk))]
pub fn report_walk<'a>(tables: &Tables, envelope: &'a EnvelopeFields) -> Option<&'a OrName>
    ensures { option_copied result ≡ report_walk tables.now envelope.now }
{
    walk(tables, &envelope.originator, envelope.history.as_slice())
}
