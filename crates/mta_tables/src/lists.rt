//! Distribution lists, in the order of their first lines.

use crate::cut::is_text;
use crate::entry::MailList;
use crate::found::{has_list_word_at, is_of_list_at};
use crate::line::ListHead;
use crate::same::is_same;
use mta_ber::Memory;
use mta_name_digest::{Places, name_digest, octets_digest};
use mta_name_text::Pattern;
use mta_names::{OrName, Row};
use std::alloc::Global;
use std::marker::Model;

/// Distribution lists, in the order of their first lines, no two of one word, with indexes of their words and names.
#[derive(Drop)]
pub struct Lists {
    inner: Vec<MailList>,
    words: Places,
    names: Places,
}

impl Model for Lists {
    ghost use Rattle.std.specs.Prelude.{List, ◌≤◌, length};
    ghost use Rattle.std.specs.List.{AllPairs};
    ghost use Rattle.mta_tables.specs.declared.entry.MailList.{MailList};
    ghost use Rattle.mta_tables.specs.Indexes.{IsIndex, list_word, list_name};
    ghost use Rattle.mta_tables.specs.Sameness.{DifferInWord};

    ghost Value = { List MailList };

    ghost view = { λ l. l.inner.items };

    ghost invariant = { λ l. (length l.inner.items ≤ 256) × AllPairs DifferInWord l.inner.items
        × IsIndex list_word l.inner.items l.words × IsIndex list_name l.inner.items l.names };
}

impl Lists {
    ghost use Rattle.std.specs.Prelude.{◌≡◌, ◌<◌, ◌≤◌, ◌++◌, [], ◌∷◌, false, length, map};
    ghost use Rattle.std.specs.Prelude.{OnOk, IfSome};
    ghost use Rattle.std.specs.List.{list_any, position};
    ghost use Rattle.mta_tables.specs.Indexes.{checked};
    ghost use Rattle.mta_tables.specs.Reading.{has_list_word, is_of_list, is_full_from, is_full_list, opened};
    ghost use Rattle.mta_tables.specs.Reading.{permitted, joined};

    /// No lists.
    pub fn new(alloc: Global) -> Lists
        ensures { result ≡ [] }
    {
        Lists {
            inner: Vec::new(alloc),
            words: Places::new(alloc),
            names: Places::new(alloc),
        }
    }

    /// How many there are.
    pub fn len(&self) -> usize
        ensures { result ≡ length self.now }
    {
        self.inner.len()
    }

    /// The lists, lent.
    pub fn as_slice(&self) -> &[MailList]
        ensures exact { result.now ≡ self.now }
        ensures few { length self.now ≤ 256 }
    {
        self.inner.as_slice()
    }

    fn opened(alloc: Global, head: ListHead) -> MailList
        ensures { result ≡ opened head }
    {
        let ListHead { word, back, name } = head;
        MailList {
            word,
            back,
            name,
            from: Row::new(alloc),
            members: Row::new(alloc),
        }
    }

    /// Appends a list that nobody has been named of.
    pub fn push(&mut self, alloc: Global, head: ListHead) -> Result<(), Memory>
        requires few { length self.old < 256 }
        requires other { list_any (has_list_word head.word) self.old ≡ false }
        ensures { OnOk result (self.new ≡ self.old ++ opened head ∷ []) }
    {
        let list = Lists::opened(alloc, head);
        let place = self.inner.len() as u32;
        let word = octets_digest(0, list.word.as_slice());
        let name = name_digest(&list.name);
        self.words.add(word, place)?;
        self.names.add(name, place)?;
        self.inner.push(list)?;
        Ok(())
    }

    fn scan_words(&self, word: &[u8]) -> Option<usize>
        ensures exact { result ≡ position (has_list_word word.now) self.now }
        ensures bound { IfSome result (λ place. place < 256) }
    {
        self.inner
            .iter()
            .position(|l| is_text(l.word.as_slice(), word))
    }

    fn scan_names(&self, name: &OrName) -> Option<usize>
        ensures exact { result ≡ position (is_of_list name.now) self.now }
        ensures bound { IfSome result (λ place. place < 256) }
    {
        self.inner.iter().position(|l| is_same(&l.name, name))
    }

    // The place that an index says, where the list there has the word.
    fn checked_word(&self, said: Option<u32>, word: &[u8]) -> Option<u32>
        ensures { result ≡ checked (has_list_word word.now) self.now said }
    {
        match said {
            None => None,
            Some(place) => {
                if has_list_word_at(self.inner.as_slice(), place, word) {
                    Some(place)
                } else {
                    None
                }
            }
        }
    }

    // The place that an index says, where the list there has the same name.
    fn checked_name(&self, said: Option<u32>, name: &OrName) -> Option<u32>
        ensures { result ≡ checked (is_of_list name.now) self.now said }
    {
        match said {
            None => None,
            Some(place) => {
                if is_of_list_at(self.inner.as_slice(), place, name) {
                    Some(place)
                } else {
                    None
                }
            }
        }
    }

    // The place of the first that has this word, from 0.
    fn of_word(&self, word: &[u8]) -> Option<u32>
        ensures { result ≡ position (has_list_word word.now) self.now }
    {
        if self.words.is_whole() {
            return self.checked_word(self.words.of(octets_digest(0, word)), word);
        }
        match self.scan_words(word) {
            Some(place) => Some(place as u32),
            None => None,
        }
    }

    /// The place of the first that has the same name, from 0.
    pub fn of_name(&self, name: &OrName) -> Option<u32>
        ensures { result ≡ position (is_of_list name.now) self.now }
    {
        if self.names.is_whole() {
            return self.checked_name(self.names.of(name_digest(name)), name);
        }
        match self.scan_names(name) {
            Some(place) => Some(place as u32),
            None => None,
        }
    }

    /// Whether one of them has this word.
    #[tactic(auto, using(crate::proofs::Indexes::position_any))]
    pub fn has_word(&self, word: &[u8]) -> bool
        ensures { result ≡ list_any (has_list_word word.now) self.now }
    {
        self.of_word(word).is_some()
    }

    /// Whether one of them has the same name.
    #[tactic(auto, using(crate::proofs::Indexes::position_any))]
    pub fn has_name(&self, name: &OrName) -> bool
        ensures { result ≡ list_any (is_of_list name.now) self.now }
    {
        self.of_name(name).is_some()
    }

    #[tactic(auto, using(crate::proofs::Places::position_within))]
    fn place_of_word(&self, word: &[u8]) -> Option<usize>
        ensures exact { result ≡ position (has_list_word word.now) self.now }
        ensures bound { IfSome result (λ place. place < length self.now) }
    {
        match self.of_word(word) {
            Some(place) => Some(place as usize),
            None => None,
        }
    }

    /// Whether the list of this word has 100 patterns.
    pub fn is_full_from(&self, word: &[u8]) -> bool
        ensures { result ≡ list_any (is_full_from word.now) self.now }
    {
        match self.place_of_word(word) {
            None => false,
            Some(place) => self.inner[place].from.len() >= 100,
        }
    }

    /// Whether the list of this word has 1,000 members.
    pub fn is_full_list(&self, word: &[u8]) -> bool
        ensures { result ≡ list_any (is_full_list word.now) self.now }
    {
        match self.place_of_word(word) {
            None => false,
            Some(place) => self.inner[place].members.len() >= 1000,
        }
    }

    /// Lets those post who match the pattern, to the list of this word.
    pub fn permit(&mut self, word: &[u8], pattern: Pattern) -> Result<(), Memory>
        ensures { OnOk result (self.new ≡ map (permitted word.now pattern) self.old) }
    {
        match self.place_of_word(word) {
            None => Ok(()),
            Some(place) => {
                self.inner[place].from.push(pattern)?;
                Ok(())
            }
        }
    }

    /// Appends a member to the list of this word.
    pub fn join(&mut self, word: &[u8], name: OrName) -> Result<(), Memory>
        ensures { OnOk result (self.new ≡ map (joined word.now name) self.old) }
    {
        match self.place_of_word(word) {
            None => Ok(()),
            Some(place) => {
                self.inner[place].members.push(name)?;
                Ok(())
            }
        }
    }
}
