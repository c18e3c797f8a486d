//! The digest of a name.

ghost use Rattle.std.specs.Prelude.{◌≡◌, map};
ghost use Rattle.std.specs.Option.{option_map};
ghost use Rattle.mta_names.specs.Normal.{normal_text, normal_label, normal_person, normal_pair, normal_list};
ghost use Rattle.mta_name_digest.specs.Digests.{option_digest, texts_digest, person_digest, pairs_digest};
ghost use Rattle.mta_name_digest.specs.Digests.{domain_digest, person_and_units_digest, name_digest};

use crate::text::{digest_step, text_digest};
use mta_ber::Text;
use mta_names::{Attributes, Label, OrName, Pair, Person};

fn option_digest(digest: u64, text: &Option<Text>) -> u64
    ensures { result ≡ option_digest digest (option_map normal_text text.now) }
{
    match text {
        None => digest_step(digest, 1),
        Some(text) => text_digest(digest, text.as_slice()),
    }
}

fn label_digest(digest: u64, label: &Option<Label>) -> u64
    ensures { result ≡ option_digest digest (option_map normal_label label.now) }
{
    match label {
        None => digest_step(digest, 1),
        Some(label) => text_digest(digest, label.text.as_slice()),
    }
}

/// The digest with the normal texts of a list more.
pub fn texts_digest(digest: u64, texts: &[Text]) -> u64
    ensures { result ≡ texts_digest digest (map normal_text texts.now) }
{
    match texts {
        [] => digest_step(digest, 2),
        [text, others @ ..] => texts_digest(text_digest(digest, text.as_slice()), others),
    }
}

fn person_digest(digest: u64, person: &Option<Person>) -> u64
    ensures { result ≡ person_digest digest (option_map normal_person person.now) }
{
    match person {
        None => digest_step(digest, 1),
        Some(person) => {
            let fields = person.fields();
            let digest = text_digest(digest, fields.surname.as_slice());
            let digest = option_digest(digest, &fields.given);
            let digest = option_digest(digest, &fields.initials);
            option_digest(digest, &fields.generation)
        }
    }
}

fn pairs_digest(digest: u64, pairs: &[Pair]) -> u64
    ensures { result ≡ pairs_digest digest (map normal_pair pairs.now) }
{
    match pairs {
        [] => digest_step(digest, 2),
        [pair, others @ ..] => {
            let fields = pair.fields();
            let digest = text_digest(digest, fields.kind.as_slice());
            pairs_digest(text_digest(digest, fields.value.as_slice()), others)
        }
    }
}

fn domain_digest(n: &Attributes) -> u64
    ensures { result ≡ domain_digest (normal_list n.now) }
{
    let digest = label_digest(0, &n.country);
    let digest = label_digest(digest, &n.admd);
    let digest = label_digest(digest, &n.prmd);
    option_digest(digest, &n.organization)
}

fn person_and_units_digest(digest: u64, n: &Attributes) -> u64
    ensures { result ≡ person_and_units_digest digest (normal_list n.now) }
{
    let digest = texts_digest(digest, n.units.as_slice());
    let digest = person_digest(digest, &n.person);
    option_digest(digest, &n.common)
}

#[tactic(auto, unfolding(crate::specs::Digests::name_digest))]
fn attributes_digest(n: &Attributes) -> u64
    ensures { result ≡ name_digest (normal_list n.now) }
{
    let digest = domain_digest(n);
    let digest = person_and_units_digest(digest, n);
    let digest = option_digest(digest, &n.network);
    let digest = option_digest(digest, &n.terminal);
    let digest = option_digest(digest, &n.user);
    pairs_digest(digest, n.pairs.as_slice())
}

/// The digest of a name: that of its normal list.
pub fn name_digest(name: &OrName) -> u64
    ensures { result ≡ name_digest (normal_list name.now) }
{
    attributes_digest(name.attributes())
}
