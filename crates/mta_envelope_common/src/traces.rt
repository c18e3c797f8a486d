//! Traces.

ghost use Rattle.std.specs.Prelude.{◌≡◌, List, OnOk, OnErr, IfOk};
ghost use Rattle.std.specs.List.{flat_map};
ghost use Rattle.mta_ber.specs.Canon.{appended};
ghost use Rattle.mta_ber.specs.Parts.{Leaves, Reads, IsReadAs};
ghost use Rattle.mta_ber.specs.Seen.{view};
ghost use Rattle.mta_fields.specs.declared.trace.TraceFields.{TraceFields};
ghost use Rattle.mta_fields.specs.TraceElements.{canonical_trace};
ghost use Rattle.mta_envelope_common.specs.TraceLists.{trace_list_step, trace_list_in, SpellsTraceList};
ghost use Rattle.mta_envelope_common.specs.TraceLists.{canonical_trace_list};

use mta_ber::{Components, Kind, Memory, ReadFault, View, Writer, bad, is_tag_of, take_parts};
use mta_fields::TraceElement;
use mta_names::{Row, constructed, put_around};
use std::alloc::Global;
use std::marker::Model;

/// The elements so far.
#[derive(Drop)]
pub struct TraceRow {
    elements: Row<TraceElement>,
}

impl Model for TraceRow {
    ghost use Rattle.std.specs.Prelude.{List};
    ghost use Rattle.mta_fields.specs.declared.trace.TraceFields.{TraceFields};

    ghost Value = { List TraceFields };

    ghost view = { λ r. r.elements };
}

impl Components for TraceRow {
    ghost step = { trace_list_step };

    fn take(&mut self, alloc: Global, part: &View) -> Result<(), ReadFault> {
        if !is_tag_of(part.tag, 0, 16) {
            return bad(part.at, Kind::BadTag);
        }
        let element = TraceElement::read(alloc, part)?;
        self.elements.push(element)?;
        Ok(())
    }
}

#[tactic(auto, unfolding(crate::specs::TraceLists::trace_list_in))]
fn trace_of(alloc: Global, whole: &View) -> Result<Row<TraceElement>, ReadFault>
    ensures { Reads result (trace_list_in (view whole.now)) }
{
    if !whole.tag.constructed {
        return bad(whole.at, Kind::BadTag);
    }
    let mut row = TraceRow {
        elements: Row::new(alloc),
    };
    take_parts(alloc, whole, &mut row)?;
    let TraceRow { elements } = row;
    if 512 < elements.len() {
        return bad(whole.at, Kind::BadSize);
    }
    Ok(elements)
}

/// The trace that an element spells (X.411, TraceInformation), whatever its tag, which is `[APPLICATION 9]` and for the
/// caller to check: 0 to 512 trace elements. BadSize at the trace where there are more.
pub fn read_trace(alloc: Global, part: &View) -> Result<Row<TraceElement>, ReadFault>
    // Which trace it is, or which fault comes first.
    ensures exact { Reads result (trace_list_in (view part.now)) }

    // What is answered is spelled by the content, and what the content spells is answered.
    ensures found { IfOk result (SpellsTraceList part.now.depth part.now.tag.constructed part.now.content.now) }
    ensures only { (v : List TraceFields)
        → SpellsTraceList part.now.depth part.now.tag.constructed part.now.content.now v → IsReadAs result v }
{
    trace_of(alloc, part)
}

fn put_elements(w: &mut Writer, elements: &[TraceElement]) -> Result<(), Memory>
    ensures { OnOk result (w.new ≡ appended w.old (flat_map canonical_trace elements.now)) }
{
    for element in elements {
        element.write(w)?;
    }
    Ok(())
}

/// Appends a trace in its canonical octets, under `[APPLICATION 9]`.
#[tactic(auto, unfolding(crate::specs::TraceLists::canonical_trace_list))]
pub fn put_trace(w: &mut Writer, trace: &Row<TraceElement>) -> Result<(), Memory>
    ensures ok { OnOk result (w.new ≡ appended w.old (canonical_trace_list trace.now)) }
    ensures err { OnErr result (w.new ≡ w.old) }
{
    let mut inside = Writer::new(w.alloc());
    put_elements(&mut inside, trace.as_slice())?;
    put_around(w, constructed(1, 9), &inside)
}
