//! Tables.

ghost use Rattle.std.specs.Prelude.{◌≡◌};
ghost use Rattle.mta_tables.specs.Reading.{Reads};
ghost use Rattle.mta_tables.specs.Tables.{tables_of};

use crate::entry::{Holds, MailList, Mailbox, Peer, Route};
use crate::fault::{LineKind, TablesFault};
use crate::hop::Hop;
use crate::reading::{Lines, read_lines};
use mta_ber::{Memory, Octets, Word};
use mta_fields::Domain;
use mta_names::OrName;
use std::alloc::Global;
use std::marker::Model;

/// What an agent knows of its surroundings, with the text that says so: its own domain and name, its peers, mailboxes
/// and lists, the routes, and how long messages are held.
pub struct Tables {
    text: Octets,
    lines: Lines,
}

// Written out, since a derived one is opened anew, field by field, at each place where a value is let go.
impl Drop for Tables {
    fn drop(self) {
        let Tables { text: _, lines: _ } = self;
    }
}

impl Model for Tables {
    ghost use Rattle.std.specs.Prelude.{◌≡◌, Ok};
    ghost use Rattle.mta_tables.specs.Tables.{TablesValue, tables, tables_of};

    ghost Value = { TablesValue };

    ghost view = { λ t. tables t.text t.lines };

    ghost invariant = { λ t. tables_of t.text ≡ Ok (tables t.text t.lines) };
}

/// The tables of a text, by the reading function.
#[tactic(auto, unfolding(crate::specs::Tables::tables_of))]
fn read_tables(alloc: Global, text: &[u8]) -> Result<Tables, TablesFault>
    ensures { Reads result (tables_of text.now) }
{
    if text.len() > Tables::LONGEST {
        return Err(TablesFault::BadLine {
            line: 1,
            kind: LineKind::TooLong,
        });
    }
    let kept = Octets::from_slice(alloc, text)?;
    let lines = read_lines(alloc, text)?;
    Ok(Tables { text: kept, lines })
}

impl Tables {
    ghost use Rattle.std.specs.Prelude.{◌≡◌, ℕ, Option, Ok, Err, IfOk};
    ghost use Rattle.mta_tables.specs.declared.fault.LineKind.{LineKind};
    ghost use Rattle.mta_tables.specs.declared.fault.TablesFault.TheVariants as Faults;
    ghost use Rattle.mta_tables.specs.declared.hop.Hop.{Hop};
    ghost use Rattle.mta_tables.specs.Answers.{IsReadAs, IsRefusedAs};
    ghost use Rattle.mta_tables.specs.Grammar.{IsTablesText, IsFirstBadLine};
    ghost use Rattle.mta_tables.specs.Hops.{best_hop, local_of, IsPeerAt, IsMailboxOf};
    ghost use Rattle.mta_tables.specs.Laws.{IsBestHop};
    ghost use Rattle.mta_tables.specs.Surnames.{name_of_surname};
    ghost use Rattle.mta_tables.specs.Tables.{TablesValue, tables_of, peer_of, mailbox_of};
    ghost use Rattle.mta_tables.specs.Whole.{AreTables};

    /// The most octets of a text.
    pub const LONGEST: usize = 1_048_576;

    /// The tables of a text: lines that each end with a line feed. A line is empty, begins with `#`, or is one of
    ///
    /// - `domain C=COUNTRY;A=ADMD` or `domain C=COUNTRY;A=ADMD;P=PRMD`, once: the agent's own domain
    /// - `name WORD`, once: its own name
    /// - `peer WORD OUT IN MODE SIZE WINDOW`: a peer, the passwords sent and expected, `monologue` or `twa`, a
    ///   checkpoint size of 0 to 64 units of 1,024 octets and a window of 1 to 8
    /// - `mailbox WORD NAME`: a mailbox and its O/R name
    /// - `list WORD POLICY NAME`: a list, `keep` or `back`, and its O/R name
    /// - `from WORD PATTERN`: who may post to an earlier list
    /// - `member WORD NAME`: a member of an earlier list
    /// - `route PATTERN here` or `route PATTERN peer WORD`: where names go that the pattern matches, the peer an
    ///   earlier one
    /// - `hold GRADE SECONDS`, once each for `urgent`, `normal` and `non-urgent`: 0 to 31,536,000 seconds
    ///
    /// with one space between two words, where the name or the pattern may hold spaces. A word is 1 to 32 letters,
    /// digits or `-`, a password 1 to 62 visible characters, a number decimal without leading zeros.
    pub fn read(alloc: Global, text: &[u8]) -> Result<Tables, TablesFault>
        ensures exact { Reads result (tables_of text.now) }

        // The text has what is answered, and the tables that a text has are answered, unless memory runs out.
        ensures found { IfOk result (IsTablesText text.now) }
        ensures only { (t : TablesValue) → IsTablesText text.now t → IsReadAs result t }

        // Which line is refused, and that the first bad line is refused for what is wrong with it, unless memory runs
        // out.
        ensures fault { (line : ℕ) (kind : LineKind) → result ≡ Err (Faults.BadLine line kind)
            → IsFirstBadLine text.now line kind }
        ensures refused { (line : ℕ) (kind : LineKind) → IsFirstBadLine text.now line kind
            → IsRefusedAs result line kind }
    {
        read_tables(alloc, text)
    }

    /// The text that was read.
    pub fn text(&self) -> &[u8]
        ensures exact { result.now ≡ self.now.text }
        ensures read { tables_of result.now ≡ Ok self.now }
    {
        self.text.as_slice()
    }

    /// An equal value, read once more from the text.
    pub fn copy(&self, alloc: Global) -> Result<Tables, Memory>
        ensures { IfOk result (λ t. t ≡ self.now) }
    {
        match read_tables(alloc, self.text.as_slice()) {
            Ok(tables) => Ok(tables),
            Err(_) => Err(Memory),
        }
    }

    /// The agent's own domain.
    pub fn domain(&self) -> &Domain
        ensures { result.now ≡ self.now.domain }
    {
        &self.lines.domain
    }

    /// The agent's own name.
    pub fn own(&self) -> &Word
        ensures { result.now ≡ self.now.own }
    {
        &self.lines.own
    }

    /// The peers, in the order of their lines.
    pub fn peers(&self) -> &[Peer]
        ensures { result.now ≡ self.now.peers }
    {
        self.lines.peers.as_slice()
    }

    /// The mailboxes, in the order of their lines.
    pub fn mailboxes(&self) -> &[Mailbox]
        ensures { result.now ≡ self.now.mailboxes }
    {
        self.lines.mailboxes.as_slice()
    }

    /// The lists, in the order of their first lines.
    pub fn lists(&self) -> &[MailList]
        ensures { result.now ≡ self.now.lists }
    {
        self.lines.lists.as_slice()
    }

    /// The routes, in the order of their lines.
    pub fn routes(&self) -> &[Route]
        ensures { result.now ≡ self.now.routes }
    {
        self.lines.routes.as_slice()
    }

    /// How long messages are held.
    pub fn holds(&self) -> &Holds
        ensures { result.now ≡ self.now.holds }
    {
        &self.lines.holds
    }

    /// The place of the peer of this word, from 0.
    pub fn peer(&self, word: &[u8]) -> Option<u32>
        ensures exact { result ≡ peer_of self.now word.now }

        // The place that is answered has the word, and there is no other.
        ensures found { IsPeerAt self.now word.now result }
        ensures only { (place : Option ℕ) → IsPeerAt self.now word.now place → result ≡ place }
    {
        self.lines.peers.of_word(word)
    }

    /// The place of the mailbox of this word, from 0.
    pub fn mailbox(&self, word: &[u8]) -> Option<u32>
        ensures exact { result ≡ mailbox_of self.now word.now }

        // The place that is answered has the word, and there is no other.
        ensures found { IsMailboxOf self.now word.now result }
        ensures only { (place : Option ℕ) → IsMailboxOf self.now word.now place → result ≡ place }
    {
        self.lines.mailboxes.of_word(word)
    }

    /// Where the messages for a name go next: to the mailbox whose name is the same, else to the list whose name is
    /// the same, else where the route goes that matches and than which no route that matches has more parts, where
    /// `here` is nowhere, else nowhere.
    #[tactic(auto, unfolding(crate::specs::Hops::best_hop))]
    pub fn route(&self, name: &OrName) -> Hop
        ensures exact { result ≡ best_hop self.now name.now }

        // The hop that is answered is the best one, and there is no other.
        ensures found { IsBestHop self.now name.now result }
        ensures only { (hop : Hop) → IsBestHop self.now name.now hop → result ≡ hop }
    {
        self.are_whole();
        self.hop_of(name)
    }

    #[tactic(auto, unfolding(crate::specs::Hops::best_hop))]
    fn hop_of(&self, name: &OrName) -> Hop
        ensures { result ≡ best_hop self.now name.now }
    {
        if let Some(place) = self.lines.mailboxes.of_name(name) {
            return Hop::Local(place);
        }
        if let Some(place) = self.lines.lists.of_name(name) {
            return Hop::List(place);
        }
        self.lines.routes.hop_of(name)
    }

    /// The place of the mailbox, from 0, to which `route` sends the messages for the name of a country, an
    /// administration domain and a surname alone; none where it sends them elsewhere or nowhere.
    pub fn mailbox_of_surname(&self, country: &[u8], admd: &[u8], surname: &[u8]) -> Option<u32>
        ensures { result ≡ local_of (best_hop self.now (name_of_surname country.now admd.now surname.now)) }
    {
        self.lines.mailboxes.of_surname(country, admd, surname)
    }

    /// The tables are whole: in their limits, no two mailboxes or lists of one name, no two equal patterns, and the
    /// peers of routes are there.
    pub fn are_whole(&self)
        ensures { AreTables self.now }
    {
        let _text = self.text();
    }
}
