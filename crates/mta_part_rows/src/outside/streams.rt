//! Sources, sinks and clocks. `take` answers what the call answers and the two octets of its buffer, which stays from
//! one call to the next; `put` what the call answers; `put-so-far` the octets that a sink has; `now` the moment.

use crate::outside::numbers::{numbers, octets};
use anyhow::Result;
use mta_edge::{Clock, MemClock, MemSink, MemSource, Octets, SafeSink, SafeSource, Sink, Source};
use mta_rows::{Fields, octets_of};
use std::alloc::{AllocError, Global};

#[derive(Drop)]
pub struct Streams {
    source: MemSource,
    safe_source: SafeSource,
    sink: MemSink,
    safe_sink: SafeSink,
    clock: MemClock,
    buffer: [u8; 2],
}

fn take<S: Source>(
    alloc: Global,
    source: &mut S,
    buffer: &mut [u8; 2],
) -> Result<String, AllocError> {
    let answer = source.take(buffer);
    format!(in alloc; "{answer:?} {buffer:?}")
}

fn put<S: Sink>(alloc: Global, sink: &mut S, octets: &[u8]) -> Result<String, AllocError> {
    let answer = sink.put(octets);
    format!(in alloc; "{answer:?}")
}

fn now(alloc: Global, clock: &mut MemClock) -> Result<String, AllocError> {
    let moment = clock.now();
    format!(in alloc; "{moment}")
}

impl Streams {
    pub fn new(alloc: Global) -> Streams {
        Streams {
            source: MemSource::new(Octets::new(alloc), Vec::new(alloc)),
            safe_source: SafeSource::new(Octets::new(alloc)),
            sink: MemSink::new(alloc, Vec::new(alloc)),
            safe_sink: SafeSink::new(alloc),
            clock: MemClock::new(Vec::new(alloc)),
            buffer: [0; 2],
        }
    }

    fn make_source(&mut self, alloc: Global, mut fields: Fields<'_>) -> Result<()> {
        let octets = octets(alloc, &mut fields)?;
        self.source = MemSource::new(octets, numbers(alloc, fields.take())?);
        self.buffer = [0; 2];
        Ok(())
    }

    fn make_safe_source(&mut self, alloc: Global, mut fields: Fields<'_>) -> Result<()> {
        self.safe_source = SafeSource::new(octets(alloc, &mut fields)?);
        self.buffer = [0; 2];
        Ok(())
    }

    /// Makes what the row says: a source of octets, whose calls of these numbers fail, a sink, whose calls fail so, or
    /// a clock of moments.
    pub fn make(&mut self, alloc: Global, asked: &str, fields: Fields<'_>) -> Result<bool> {
        match asked {
            "source" => self.make_source(alloc, fields)?,
            "safe-source" => self.make_safe_source(alloc, fields)?,
            "sink" => self.sink = MemSink::new(alloc, numbers(alloc, fields.rest)?),
            "safe-sink" => self.safe_sink = SafeSink::new(alloc),
            "clock" => self.clock = MemClock::new(numbers(alloc, fields.rest)?),
            _ => return Ok(false),
        }
        Ok(true)
    }

    fn answer_put(&mut self, alloc: Global, asked: &str, text: &str) -> Result<String> {
        let octets = octets_of(alloc, text)?;
        if asked == "put" {
            Ok(put(alloc, &mut self.sink, octets.as_slice())?)
        } else {
            Ok(put(alloc, &mut self.safe_sink, octets.as_slice())?)
        }
    }

    /// What the row is answered, where it asks of a stream or a clock.
    pub fn answer(
        &mut self,
        alloc: Global,
        asked: &str,
        fields: Fields<'_>,
    ) -> Result<Option<String>> {
        Ok(Some(match asked {
            "take" => take(alloc, &mut self.source, &mut self.buffer)?,
            "safe-take" => take(alloc, &mut self.safe_source, &mut self.buffer)?,
            "put" | "safe-put" => self.answer_put(alloc, asked, fields.rest)?,
            "put-so-far" => format!(in alloc; "{:?}", self.sink.octets())?,
            "safe-put-so-far" => format!(in alloc; "{:?}", self.safe_sink.octets())?,
            "now" => now(alloc, &mut self.clock)?,
            _ => return Ok(None),
        }))
    }
}
