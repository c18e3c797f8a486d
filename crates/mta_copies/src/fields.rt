//! Equal domains, identifiers, trace elements, extension fields and expansions.

ghost use Rattle.std.specs.Prelude.{◌≡◌, ◌≤◌, IfOk, IfSome, None, false};
ghost use Rattle.mta_ber.specs.Times.{last_moment};

use mta_ber::Memory;
use mta_fields::{
    Action, Domain, DomainFields, Expansion, ExpansionFields, ExtField, ExtFields, ExtKind, MtsId,
    MtsIdFields, Supplied, TraceElement, TraceFields,
};
use mta_names::{Label, Row, copied_label, copied_raw};
use std::alloc::Global;

fn copied_name(alloc: Global, label: &Label) -> Result<Label, Memory>
    ensures { IfOk result (λ l. l ≡ label.now) }
{
    let text = label.text.copy(alloc)?;
    Ok(Label {
        numeric: label.numeric,
        text,
    })
}

/// An equal domain.
pub fn copied_domain(alloc: Global, domain: &Domain) -> Result<Domain, Memory>
    ensures { IfOk result (λ d. d ≡ domain.now) }
{
    let fields = domain.fields();
    let country = copied_name(alloc, &fields.country)?;
    let admd = copied_name(alloc, &fields.admd)?;
    let prmd = copied_label(alloc, &fields.prmd)?;
    Ok(Domain::from_fields(DomainFields {
        country,
        admd,
        prmd,
    }))
}

fn copied_domain_if(alloc: Global, domain: &Option<Domain>) -> Result<Option<Domain>, Memory>
    ensures { IfOk result (λ d. d ≡ domain.now) }
{
    match domain {
        None => Ok(None),
        Some(domain) => Ok(Some(copied_domain(alloc, domain)?)),
    }
}

/// An equal identifier.
pub fn copied_id(alloc: Global, id: &MtsId) -> Result<MtsId, Memory>
    ensures { IfOk result (λ i. i ≡ id.now) }
{
    let fields = id.fields();
    let domain = copied_domain(alloc, &fields.domain)?;
    let local = fields.local.copy(alloc)?;
    Ok(MtsId::from_fields(MtsIdFields { domain, local }))
}

fn copied_supplied(alloc: Global, supplied: &Supplied) -> Result<Supplied, Memory>
    ensures { IfOk result (λ s. s ≡ supplied.now) }
{
    let attempted = copied_domain_if(alloc, &supplied.attempted)?;
    let converted = copied_raw(alloc, &supplied.converted)?;
    Ok(Supplied {
        arrival: supplied.arrival,
        action: supplied.action,
        attempted,
        deferred: supplied.deferred,
        converted,
        redirected: supplied.redirected,
        dl: supplied.dl,
    })
}

/// An equal trace element.
pub fn copied_trace_element(alloc: Global, element: &TraceElement) -> Result<TraceElement, Memory>
    ensures { IfOk result (λ e. e ≡ element.now) }
{
    let fields = element.fields();
    let domain = copied_domain(alloc, &fields.domain)?;
    let supplied = copied_supplied(alloc, &fields.supplied)?;
    Ok(TraceElement::from_fields(TraceFields { domain, supplied }))
}

/// The element of a domain that relays what arrived at a moment: held until the deferred time where there is one, and
/// with dl-operation where a list was expanded.
pub fn relayed_element(
    alloc: Global,
    domain: &Domain,
    arrival: u64,
    deferred: Option<u64>,
    dl: bool,
) -> Result<TraceElement, Memory>
    requires arrival { arrival ≤ last_moment }
    requires deferred { IfSome deferred (λ m. m ≤ last_moment) }
    ensures { IfOk result (λ e. e ≡ record {
      domain = domain.now;
      supplied = record {
        arrival = arrival;
        action = Action.Relayed;
        attempted = None;
        deferred = deferred;
        converted = None;
        redirected = false;
        dl = dl;
      };
    }) }
{
    let domain = copied_domain(alloc, domain)?;
    Ok(TraceElement::from_fields(TraceFields {
        domain,
        supplied: Supplied {
            arrival,
            action: Action::Relayed,
            attempted: None,
            deferred,
            converted: None,
            redirected: false,
            dl,
        },
    }))
}

/// Equal trace elements, in their order.
pub fn copied_trace(alloc: Global, trace: &[TraceElement]) -> Result<Row<TraceElement>, Memory>
    ensures { IfOk result (λ r. r ≡ trace.now) }
{
    let mut row: Row<TraceElement> = Row::new(alloc);
    for element in trace {
        row.push(copied_trace_element(alloc, element)?)?;
    }
    Ok(row)
}

/// An equal type of an extension.
pub fn copied_type(alloc: Global, kind: &ExtKind) -> Result<ExtKind, Memory>
    ensures { IfOk result (λ k. k ≡ kind.now) }
{
    match kind {
        ExtKind::Standard(number) => Ok(ExtKind::Standard(*number)),
        ExtKind::Private(octets) => Ok(ExtKind::Private(octets.copy(alloc)?)),
    }
}

/// An equal extension field.
pub fn copied_field(alloc: Global, field: &ExtField) -> Result<ExtField, Memory>
    ensures { IfOk result (λ f. f ≡ field.now) }
{
    let fields = field.fields();
    let kind = copied_type(alloc, &fields.kind)?;
    let value = fields.value.copy(alloc)?;
    Ok(ExtField::from_fields(ExtFields {
        kind,
        submission: fields.submission,
        transfer: fields.transfer,
        delivery: fields.delivery,
        value,
    }))
}

/// Equal extension fields, in their order.
pub fn copied_fields(alloc: Global, fields: &[ExtField]) -> Result<Row<ExtField>, Memory>
    ensures { IfOk result (λ r. r ≡ fields.now) }
{
    let mut row: Row<ExtField> = Row::new(alloc);
    for field in fields {
        row.push(copied_field(alloc, field)?)?;
    }
    Ok(row)
}

/// An equal expansion.
pub fn copied_expansion(alloc: Global, expansion: &Expansion) -> Result<Expansion, Memory>
    ensures { IfOk result (λ x. x ≡ expansion.now) }
{
    let fields = expansion.fields();
    let name = fields.name.copy(alloc)?;
    Ok(Expansion::from_fields(ExpansionFields {
        name,
        moment: fields.moment,
    }))
}

/// Equal expansions, in their order.
pub fn copied_history(alloc: Global, history: &[Expansion]) -> Result<Row<Expansion>, Memory>
    ensures { IfOk result (λ r. r ≡ history.now) }
{
    let mut row: Row<Expansion> = Row::new(alloc);
    for expansion in history {
        row.push(copied_expansion(alloc, expansion)?)?;
    }
    Ok(row)
}
