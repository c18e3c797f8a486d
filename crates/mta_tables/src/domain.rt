//! The agent's own domain, from a name.

ghost use Rattle.std.specs.Prelude.{◌≡◌};
ghost use Rattle.mta_tables.specs.Domain.{is_bare, domain_of};

use mta_fields::{Domain, DomainFields};
use mta_names::{Attributes, DomainLabels, OrName};

/// Whether a name has at most a country, an administration domain and a private domain.
fn is_bare(n: &Attributes) -> bool
    ensures { result ≡ is_bare n.now }
{
    n.network.is_none()
        && n.terminal.is_none()
        && n.organization.is_none()
        && n.user.is_none()
        && n.person.is_none()
        && n.units.as_slice().is_empty()
        && n.pairs.as_slice().is_empty()
        && n.common.is_none()
        && n.extras.as_slice().is_empty()
        && n.directory.is_none()
}

/// The domain of a name that has a country, an administration domain, perhaps a private domain, and nothing else.
pub fn domain_of(name: OrName) -> Option<Domain>
    ensures { result ≡ domain_of name }
{
    if !is_bare(name.attributes()) {
        return None;
    }
    let DomainLabels {
        country,
        admd,
        prmd,
    } = name.into_attributes().into_labels();
    match (country, admd) {
        (Some(country), Some(admd)) => Some(Domain::from_fields(DomainFields {
            country,
            admd,
            prmd,
        })),
        _ => None,
    }
}
