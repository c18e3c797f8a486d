//! Writing elements, in the one spelling that is canonical: definite minimal lengths.

ghost use Rattle.std.specs.Prelude.{◌≡◌, ◌<◌, ◌≤◌, ◌^◌, ◌+◌, ◌++◌, ◌∷◌, [], length, OnOk, OnErr};
ghost use Rattle.mta_ber.specs.Canon.{IsTag, Written, element, begun, ended, appended};

use crate::encoding::append_element;
use crate::memory::Memory;
use crate::octets::Octets;
use crate::tag::Tag;
use std::alloc::Global;
use std::marker::Model;

/// An element that is begun, and what stood before it.
#[derive(Debug, Drop)]
struct Frame {
    tag: Tag,
    before: Vec<u8>,
}

/// Elements one behind the other, and inside elements that are begun. After want of memory it is as before.
#[derive(Debug, Drop)]
pub struct Writer {
    alloc: Global,
    outer: Vec<Frame>,
    octets: Vec<u8>,
}

impl Model for Writer {
    ghost use Rattle.std.specs.Prelude.{map, reverse, All};
    ghost use Rattle.mta_ber.specs.Canon.{Written, IsTag};
    ghost use Rattle.mta_ber.specs.declared.writer.Frame.{Frame};

    ghost Value = { Written };

    ghost view = { λ w. record {
      frames = reverse (map (λ f. (f.tag, f.before.items)) w.outer.items);
      octets =
          w.octets.items;
    } };

    ghost invariant = { λ w. All (λ f. IsTag f.tag) w.outer.items };
}

impl Writer {
    /// An empty writer.
    pub fn new(alloc: Global) -> Writer
        ensures { result ≡ record { frames = []; octets = [] } }
    {
        Writer {
            alloc,
            outer: Vec::new(alloc),
            octets: Vec::new(alloc),
        }
    }

    /// Appends one element with definite minimal length.
    pub fn put(&mut self, tag: Tag, content: &[u8]) -> Result<(), Memory>
        requires { IsTag tag }
        ensures ok { OnOk result (self.new ≡ appended self.old (element tag content.now)) }
        ensures err { OnErr result (self.new ≡ self.old) }
    {
        append_element(&mut self.octets, tag, content)
    }

    /// Appends the octets of elements that are kept as they are.
    pub fn put_raw(&mut self, octets: &[u8]) -> Result<(), Memory>
        ensures ok { OnOk result (self.new ≡ appended self.old octets.now) }
        ensures err { OnErr result (self.new ≡ self.old) }
    {
        self.octets.extend_from_slice(octets)?;
        Ok(())
    }

    /// Begins an element that encloses what is put until its end.
    pub fn begin(&mut self, tag: Tag) -> Result<(), Memory>
        requires { IsTag tag }
        ensures ok { OnOk result (self.new ≡ begun tag self.old) }
        ensures err { OnErr result (self.new ≡ self.old) }
    {
        self.outer.reserve(1)?;
        let before = std::mem::replace(&mut self.octets, Vec::new(self.alloc));
        self.outer.push_reserved(Frame { tag, before });
        Ok(())
    }

    /// Ends the element that was begun last.
    pub fn end(&mut self) -> Result<(), Memory>
        requires { 0 < length self.old.frames }
        ensures ok { OnOk result (self.new ≡ ended self.old) }
        ensures err { OnErr result (self.new ≡ self.old) }
    {
        match self.outer.pop() {
            None => Ok(()),
            Some(Frame { tag, mut before }) => {
                match append_element(&mut before, tag, self.octets.as_slice()) {
                    Ok(()) => {
                        self.octets = before;
                        Ok(())
                    }
                    Err(memory) => {
                        self.outer.push_reserved(Frame { tag, before });
                        Err(memory)
                    }
                }
            }
        }
    }

    /// The allocator that it was made with.
    pub fn alloc(&self) -> Global {
        self.alloc
    }

    /// How many elements are begun.
    pub fn begun(&self) -> usize
        ensures { result ≡ length self.now.frames }
    {
        self.outer.len()
    }

    /// The octets that were put last, at the place where the next are put.
    pub fn as_slice(&self) -> &[u8]
        ensures { result.now ≡ self.now.octets }
    {
        self.octets.as_slice()
    }

    /// All that was put.
    pub fn finish(self) -> Octets
        requires { self.frames ≡ [] }
        ensures { result ≡ self.octets }
    {
        let Writer {
            alloc: _,
            outer: _,
            octets,
        } = self;
        Octets::from_vec(octets)
    }
}
