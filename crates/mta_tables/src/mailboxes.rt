//! Mailboxes, in the order of their lines.

use crate::cut::is_text;
use crate::entry::Mailbox;
use crate::found::{has_mailbox_word_at, is_of_mailbox_at, is_of_surname_at};
use crate::same::is_same;
use crate::surname::{is_of_surname, surname_digest};
use mta_ber::Memory;
use mta_name_digest::{Places, name_digest, octets_digest};
use mta_names::OrName;
use std::alloc::Global;
use std::marker::Model;

/// Mailboxes, in the order of their lines, with indexes of their words and of their names.
#[derive(Drop)]
pub struct Mailboxes {
    inner: Vec<Mailbox>,
    words: Places,
    names: Places,
}

impl Model for Mailboxes {
    ghost use Rattle.std.specs.Prelude.{List, ◌≤◌, length};
    ghost use Rattle.mta_tables.specs.declared.entry.Mailbox.{Mailbox};
    ghost use Rattle.mta_tables.specs.Indexes.{IsIndex, mailbox_word, mailbox_name};

    ghost Value = { List Mailbox };

    ghost view = { λ m. m.inner.items };

    ghost invariant = { λ m. (length m.inner.items ≤ 4096) × IsIndex mailbox_word m.inner.items m.words
        × IsIndex mailbox_name m.inner.items m.names };
}

impl Mailboxes {
    ghost use Rattle.std.specs.Prelude.{◌≡◌, ◌<◌, ◌≤◌, ◌++◌, [], ◌∷◌, length, OnOk, IfSome};
    ghost use Rattle.std.specs.List.{list_any, position};
    ghost use Rattle.mta_tables.specs.Indexes.{checked};
    ghost use Rattle.mta_tables.specs.Reading.{has_mailbox_word, is_of_mailbox};
    ghost use Rattle.mta_tables.specs.Surnames.{name_of_surname};

    /// No mailboxes.
    pub fn new(alloc: Global) -> Mailboxes
        ensures { result ≡ [] }
    {
        Mailboxes {
            inner: Vec::new(alloc),
            words: Places::new(alloc),
            names: Places::new(alloc),
        }
    }

    /// How many there are.
    pub fn len(&self) -> usize
        ensures { result ≡ length self.now }
    {
        self.inner.len()
    }

    /// The mailboxes, lent.
    pub fn as_slice(&self) -> &[Mailbox]
        ensures exact { result.now ≡ self.now }
        ensures few { length self.now ≤ 4096 }
    {
        self.inner.as_slice()
    }

    /// Appends a mailbox.
    pub fn push(&mut self, mailbox: Mailbox) -> Result<(), Memory>
        requires { length self.old < 4096 }
        ensures { OnOk result (self.new ≡ self.old ++ mailbox ∷ []) }
    {
        let place = self.inner.len() as u32;
        let word = octets_digest(0, mailbox.word.as_slice());
        let name = name_digest(&mailbox.name);
        self.words.add(word, place)?;
        self.names.add(name, place)?;
        self.inner.push(mailbox)?;
        Ok(())
    }

    fn scan_words(&self, word: &[u8]) -> Option<usize>
        ensures exact { result ≡ position (has_mailbox_word word.now) self.now }
        ensures bound { IfSome result (λ place. place < 4096) }
    {
        self.inner
            .iter()
            .position(|m| is_text(m.word.as_slice(), word))
    }

    fn scan_names(&self, name: &OrName) -> Option<usize>
        ensures exact { result ≡ position (is_of_mailbox name.now) self.now }
        ensures bound { IfSome result (λ place. place < 4096) }
    {
        self.inner.iter().position(|m| is_same(&m.name, name))
    }

    fn scan_surnames(&self, country: &[u8], admd: &[u8], surname: &[u8]) -> Option<usize>
        ensures exact { result ≡ position
            (is_of_mailbox (name_of_surname country.now admd.now surname.now)) self.now }
        ensures bound { IfSome result (λ place. place < 4096) }
    {
        self.inner
            .iter()
            .position(|m| is_of_surname(&m.name, country, admd, surname))
    }

    // The place that an index says, where the mailbox there has the word.
    fn checked_word(&self, said: Option<u32>, word: &[u8]) -> Option<u32>
        ensures { result ≡ checked (has_mailbox_word word.now) self.now said }
    {
        match said {
            None => None,
            Some(place) => {
                if has_mailbox_word_at(self.inner.as_slice(), place, word) {
                    Some(place)
                } else {
                    None
                }
            }
        }
    }

    // The place that an index says, where the mailbox there has the same name.
    fn checked_name(&self, said: Option<u32>, name: &OrName) -> Option<u32>
        ensures { result ≡ checked (is_of_mailbox name.now) self.now said }
    {
        match said {
            None => None,
            Some(place) => {
                if is_of_mailbox_at(self.inner.as_slice(), place, name) {
                    Some(place)
                } else {
                    None
                }
            }
        }
    }

    fn checked_surname(
        &self,
        said: Option<u32>,
        country: &[u8],
        admd: &[u8],
        surname: &[u8],
    ) -> Option<u32>
        ensures { result ≡ checked (is_of_mailbox (name_of_surname country.now admd.now surname.now)) self.now said }
    {
        match said {
            None => None,
            Some(place) => {
                if is_of_surname_at(self.inner.as_slice(), place, country, admd, surname) {
                    Some(place)
                } else {
                    None
                }
            }
        }
    }

    /// The place of the first that has this word, from 0.
    pub fn of_word(&self, word: &[u8]) -> Option<u32>
        ensures { result ≡ position (has_mailbox_word word.now) self.now }
    {
        if self.words.is_whole() {
            return self.checked_word(self.words.of(octets_digest(0, word)), word);
        }
        match self.scan_words(word) {
            Some(place) => Some(place as u32),
            None => None,
        }
    }

    /// The place of the first that has the same name, from 0.
    pub fn of_name(&self, name: &OrName) -> Option<u32>
        ensures { result ≡ position (is_of_mailbox name.now) self.now }
    {
        if self.names.is_whole() {
            return self.checked_name(self.names.of(name_digest(name)), name);
        }
        match self.scan_names(name) {
            Some(place) => Some(place as u32),
            None => None,
        }
    }

    /// The place of the first that has the same name, from 0, for a name of a country, an administration domain and a
    /// surname.
    pub fn of_surname(&self, country: &[u8], admd: &[u8], surname: &[u8]) -> Option<u32>
        ensures { result ≡ position (is_of_mailbox (name_of_surname country.now admd.now surname.now)) self.now }
    {
        if self.names.is_whole() {
            let said = self.names.of(surname_digest(country, admd, surname));
            return self.checked_surname(said, country, admd, surname);
        }
        match self.scan_surnames(country, admd, surname) {
            Some(place) => Some(place as u32),
            None => None,
        }
    }

    /// Whether one of them has this word.
    #[tactic(auto, using(crate::proofs::Indexes::position_any))]
    pub fn has_word(&self, word: &[u8]) -> bool
        ensures { result ≡ list_any (has_mailbox_word word.now) self.now }
    {
        self.of_word(word).is_some()
    }

    /// Whether one of them has the same name.
    #[tactic(auto, using(crate::proofs::Indexes::position_any))]
    pub fn has_name(&self, name: &OrName) -> bool
        ensures { result ≡ list_any (is_of_mailbox name.now) self.now }
    {
        self.of_name(name).is_some()
    }
}
